//! The files of the system, as a save meets them: one call of the system each.

ghost use Rattle.std.specs.Prelude.{◌<◌, ◌≤◌, None, [], length, take, IfOk, OnErr};
ghost use Rattle.std.specs.Io.KnownBytes.{Appends, Keeps};

use crate::Fault;
use crate::folders::{Folders, Standing};
use std::fs::{self, File, OpenFile, OpenOptions};
use std::io::{ErrorKind, Write};
use std::rt::Files;

/// The files that the runtime names. Its steps are not observable.
#[derive(Drop)]
pub(crate) struct SystemFolders<R> {
    pub(crate) rt: R,
}

impl<R: Files> Folders for SystemFolders<R> {
    type File = R::File;

    ghost past = { λ _. None };

    ghost name_of = { λ _. [] };

    fn standing(&mut self, name: &str) -> Result<Standing, Fault> {
        match fs::symlink_metadata(&self.rt, name) {
            Ok(standing) if standing.is_file() => Ok(Standing::Regular),
            Ok(_) => Ok(Standing::Other),
            Err(error) if error.kind() == ErrorKind::NotFound => Ok(Standing::Nothing),
            Err(_) => Err(Fault),
        }
    }

    fn ask_to_write(&mut self, name: &str) -> Result<(), Fault> {
        let opened = OpenOptions::new().write(true).open(&self.rt, name);
        opened.map(|_| ()).map_err(|_| Fault)
    }

    fn open(&mut self, name: &str) -> Result<R::File, Fault> {
        File::create(&self.rt, name).map_err(|_| Fault)
    }

    fn create_new(&mut self, name: &str) -> Result<R::File, Fault> {
        File::create_new(&self.rt, name).map_err(|_| Fault)
    }

    /// Writes once. Each error of the system is a fault, also an interrupted call, and so is a length of
    /// 0 for a piece that isn't empty; the file then has what it had.
    fn write(&mut self, file: &mut R::File, piece: &[u8]) -> Result<usize, Fault>
        ensures within { IfOk result (λ n. n ≤ length piece.now) }
        ensures some { IfOk result (λ n. 0 < length piece.now → 0 < n) }
        ensures handed { IfOk result (λ n. Appends (R.File.contents file.old) (R.File.contents file.new) (take n piece.now)) }
        ensures kept { OnErr result (Keeps (R.File.contents file.old) (R.File.contents file.new)) }
    {
        match file.write(piece) {
            Ok(count) if count > 0 || piece.is_empty() => Ok(count),
            _ => Err(Fault),
        }
    }

    fn flush(&mut self, file: R::File) -> Result<(), Fault> {
        file.sync_all().map_err(|_| Fault)
    }

    fn rename(&mut self, from: &str, to: &str) -> Result<(), Fault> {
        fs::rename(&self.rt, from, to).map_err(|_| Fault)
    }

    fn remove(&mut self, name: &str) -> Result<(), Fault> {
        fs::remove_file(&self.rt, name).map_err(|_| Fault)
    }
}
