//! The adapter over the files of the system.

ghost use Rattle.std.specs.Prelude.{◌≡◌, ◌+◌, ◌≤◌, ℕ, length, None, Some, OnOk, OnErr};
ghost use Rattle.glass_edges.specs.Causes.{one_more};

use crate::file_bytes::read_opened;
use crate::placing::place_file;
use crate::system_folders::SystemFolders;
use crate::{Fault, Fetched, Shelf};
use std::alloc::Global;
use std::fs::File;
use std::marker::Model;
use std::rt::Files;

/// A store of the files that the runtime names, whose content is not observable. Contracts see its
/// count of faults alone. Each error of the system is a fault, also an interrupted call; the one
/// exception is a name that the system doesn't find at a fetch, which is absent.
#[derive(Drop)]
pub struct FileShelf<R> {
    folders: SystemFolders<R>,
    faults: u64,
}

impl<R> Model for FileShelf<R> {
    ghost use Rattle.std.specs.Prelude.{ℕ};

    ghost Value = { ℕ };

    ghost view = { λ s. s.faults };
}

impl<R: Files + Drop> FileShelf<R> {
    /// The store over this runtime's files, with no fault counted.
    pub fn of(rt: R) -> FileShelf<R>
        ensures { result ≡ 0 }
    {
        FileShelf {
            folders: SystemFolders { rt },
            faults: 0,
        }
    }
}

impl<R: Files + Drop> Shelf for FileShelf<R> {
    ghost holds = { λ _. None };

    ghost faults = { λ s. s };

    ghost lengths = { λ _ _ limit. Some (limit + 1) };

    /// Reads at most `limit + 1` bytes, so a file that is too long is told as having that many.
    fn fetch(&mut self, alloc: Global, name: &str, limit: u64) -> Fetched
        ensures limit { (v : _) → result ≡ Fetched.Held v → length v.items ≤ limit }
        ensures one_past { (n : ℕ) → result ≡ Fetched.TooLong n → n ≡ limit + 1 }
        ensures counted { result ≡ Fetched.Failed → self.new ≡ one_more self.old }
        ensures uncounted { ¬ (result ≡ Fetched.Failed) → self.new ≡ self.old }
        ensures later { self.old ≤ self.new }
    {
        let fetched = read_opened(File::open(&self.folders.rt, name), alloc, limit);
        if let Fetched::Failed = fetched {
            self.faults = self.faults.saturating_add(1);
        }
        fetched
    }

    /// Through a new file that takes the name, so that a kill in the middle leaves the old file whole;
    /// what stands under the name and is no regular file is written as it stands.
    fn place(&mut self, name: &str, bytes: &[u8]) -> Result<(), Fault>
        ensures counted { OnErr result (self.new ≡ one_more self.old) }
        ensures uncounted { OnOk result (self.new ≡ self.old) }
        ensures later { self.old ≤ self.new }
    {
        let written = place_file(&mut self.folders, name, bytes);
        if written.is_err() {
            self.faults = self.faults.saturating_add(1);
        }
        written
    }
}
