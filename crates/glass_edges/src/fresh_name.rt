//! The name of the new file through which a file is placed.

ghost use Rattle.std.specs.Prelude.{◌≡◌, ℕ, ◌+◌, ◌<◌, ◌≤◌, ◌++◌, length, take, OnOk, OnErr, IfOk};
ghost use Rattle.glass_edges.specs.Saves.{IsSplitPath, IsFresh, path_room};

use crate::Fault;
use arrayvec::ArrayString;

/// The most bytes that the path of a file has on Linux.
const PATH: usize = 4096;

/// The most bytes of a file's own name that are all taken: with a dot before and `.new` behind they are
/// the 255 bytes that a file's name may have on Linux.
const WHOLE: usize = 250;

/// The most bytes that are taken of a longer one, so that the new file's own name is shorter than it.
const FRONT: usize = 245;

/// The name of the new file: in the folder of the named one, its own name with a dot before and `.new`
/// behind it, of a very long one the front alone. It is never the name itself, since it is longer, or
/// shorter where a front is taken.
pub(crate) fn fresh_name(name: &str) -> Result<ArrayString<PATH>, Fault>
    ensures fresh { IfOk result (λ fresh. IsFresh name.now fresh.bytes) }
    ensures long { OnErr result (path_room < length name.now + 5) }
{
    let (folder, own) = split_path(name);
    let mut fresh = ArrayString::new();
    add(&mut fresh, folder)?;
    add(&mut fresh, ".")?;
    add(&mut fresh, front_of(own))?;
    add(&mut fresh, ".new")?;
    Ok(fresh)
}

// The folder with its slash, or nothing, and the file's own name.
fn split_path(path: &str) -> (&str, &str)
    ensures { IsSplitPath path.now result.0.now result.1.now }
{
    match path.rfind('/') {
        Some(at) => path.split_at(at + 1),
        None => ("", path),
    }
}

// All of a name, or of a long one as many letters as there is room for.
fn front_of(own: &str) -> &str
    ensures front { (count : ℕ) × (result.now ≡ take count own.now) }
    ensures within { length result.now ≤ length own.now }
    ensures apart { ¬ (length result.now + 5 ≡ length own.now) }
{
    if own.len() <= WHOLE {
        return own;
    }
    let (front, _) = own.split_at(own.floor_char_boundary(FRONT));
    front
}

fn add(fresh: &mut ArrayString<PATH>, part: &str) -> Result<(), Fault>
    ensures added { OnOk result (fresh.new.bytes ≡ fresh.old.bytes ++ part.now) }
    ensures long { OnErr result (path_room < length fresh.old.bytes + length part.now) }
{
    fresh.try_push_str(part).map_err(|_| Fault)
}
