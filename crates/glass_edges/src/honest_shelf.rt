//! The store of named files that never fails.

ghost use Rattle.std.specs.Prelude.{◌≡◌, ◌≤◌, ◌<◌, ℕ, Ok, None, Some, length, IfSome};
ghost use Rattle.glass_edges.specs.Contents.{observed_length};
ghost use Rattle.glass_edges.specs.MemoryStore.{IsReading};

use crate::{Fault, Fetched, MemoryShelf, Shelf};
use std::alloc::Global;
use std::marker::Model;

/// A store that never fails, over the files of a store in memory. They are observable until the
/// first place and not after it, since a place keeps nothing. Its count of faults is always 0.
#[derive(Drop)]
pub struct HonestShelf {
    files: MemoryShelf,
    observable: bool,
}

impl Model for HonestShelf {
    ghost use Rattle.std.specs.Prelude.{Option, Some, None, cond};
    ghost use Rattle.std.specs.Coded.{coded_option};
    ghost use Rattle.glass_edges.specs.Contents.{Files};
    ghost use Rattle.glass_edges.specs.MemoryStore.{files_code};

    ghost Value = { Option Files };

    ghost coded = { coded_option files_code };

    ghost view = { λ s. cond s.observable (Some s.files.files) None };
}

impl HonestShelf {
    /// The store of these files; takes no memory. It reads them by itself: neither the calls at
    /// which the given store fails nor its number of calls matter.
    pub fn of(files: MemoryShelf) -> HonestShelf
        ensures { result ≡ Some files.files }
    {
        HonestShelf {
            files,
            observable: true,
        }
    }
}

impl Shelf for HonestShelf {
    ghost holds = { λ s. s };

    ghost faults = { λ _. 0 };

    ghost lengths = { λ s name _. observed_length s name };

    fn fetch(&mut self, alloc: Global, name: &str, limit: u64) -> Fetched
        ensures exactly { IfSome self.old (λ files. IsReading files name.now limit result) }
        ensures limit { (v : _) → result ≡ Fetched.Held v → length v.items ≤ limit }
        ensures above { (n : ℕ) → result ≡ Fetched.TooLong n → limit < n }
        ensures same { self.new ≡ self.old }
        ensures never { ¬ (result ≡ Fetched.Failed) }
    {
        self.files.read(alloc, name, limit)
    }

    fn place(&mut self, _name: &str, _bytes: &[u8]) -> Result<(), Fault>
        ensures accepted { result ≡ Ok tt }
        ensures unobservable { self.new ≡ None }
    {
        self.observable = false;
        Ok(())
    }
}
