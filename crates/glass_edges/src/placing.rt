//! How a file is placed: through a new file beside it, which then takes its name.

ghost use Rattle.std.specs.Prelude.{◌≡◌, IfOk};
ghost use Rattle.glass_edges.specs.Saves.{BySteps, IsFresh, PlacesWhole, PlacesNew, PlacesStanding, Replaces, MakesNew, WritesAll};

use crate::Fault;
use crate::folders::{Folders, Standing};
use crate::fresh_name::fresh_name;

/// Places the bytes under a name. A regular file, and a name that does not stand, gets them by way of
/// a new file in the same folder, which is flushed to the disk before it takes the name: at each moment
/// the name has the old bytes whole or the new ones whole. What stands and is no regular file, as a
/// device, a pipe or a link, is written as it stands and never replaced.
pub fn place_file<F: Folders>(folders: &mut F, name: &str, bytes: &[u8]) -> Result<(), Fault>
    ensures { BySteps (PlacesWhole name.now bytes.now result) (F.past folders.old) (F.past folders.new) }
{
    match folders.standing(name)? {
        Standing::Nothing => replace(folders, name, bytes),
        Standing::Regular => {
            // A file that may not be written is not replaced either.
            folders.ask_to_write(name)?;
            replace(folders, name, bytes)
        }
        Standing::Other => write_standing(folders, name, bytes),
    }
}

// Writes what stands as it stands.
fn write_standing<F: Folders>(folders: &mut F, name: &str, bytes: &[u8]) -> Result<(), Fault>
    ensures { BySteps (PlacesStanding name.now bytes.now result) (F.past folders.old) (F.past folders.new) }
{
    let mut file = folders.open(name)?;
    write_all(folders, &mut file, bytes)
}

fn replace<F: Folders>(folders: &mut F, name: &str, bytes: &[u8]) -> Result<(), Fault>
    ensures { BySteps (PlacesNew name.now bytes.now result) (F.past folders.old) (F.past folders.new) }
{
    let fresh = fresh_name(name)?;
    replace_through(folders, fresh.as_str(), name, bytes)
}

// Writes the new file and gives it the name. At a fault it is removed, as far as the system lets it.
fn replace_through<F: Folders>(
    folders: &mut F,
    fresh: &str,
    name: &str,
    bytes: &[u8],
) -> Result<(), Fault>
    requires { IsFresh name.now fresh.now }
    ensures { BySteps (PlacesNew name.now bytes.now result) (F.past folders.old) (F.past folders.new) }
{
    // What a run left that was killed while it placed a file.
    let _ = folders.remove(fresh);
    let placed = make_and_rename(folders, fresh, name, bytes);
    if placed.is_err() {
        let _ = folders.remove(fresh);
    }
    placed
}

fn make_and_rename<F: Folders>(
    folders: &mut F,
    fresh: &str,
    name: &str,
    bytes: &[u8],
) -> Result<(), Fault>
    requires { IsFresh name.now fresh.now }
    ensures { BySteps (Replaces name.now fresh.now bytes.now result) (F.past folders.old) (F.past folders.new) }
{
    make_new(folders, fresh, bytes)?;
    folders.rename(fresh, name)
}

// Makes a file of these bytes, all of which are on the disk then.
fn make_new<F: Folders>(folders: &mut F, fresh: &str, bytes: &[u8]) -> Result<(), Fault>
    ensures { BySteps (MakesNew fresh.now bytes.now result) (F.past folders.old) (F.past folders.new) }
{
    let mut file = folders.create_new(fresh)?;
    write_all(folders, &mut file, bytes)?;
    folders.flush(file)
}

// Writes all of the bytes, piece by piece, up to the first error.
fn write_all<F: Folders>(folders: &mut F, file: &mut F::File, bytes: &[u8]) -> Result<(), Fault>
    ensures written { BySteps (WritesAll (F.name_of file.old) bytes.now result) (F.past folders.old) (F.past folders.new) }
    ensures named { F.name_of file.new ≡ F.name_of file.old }
{
    let mut at = 0;
    'pieces: while at < bytes.len() {
        let count = folders.write(file, &bytes[at..])?;
        at += count;
    }
    Ok(())
}
