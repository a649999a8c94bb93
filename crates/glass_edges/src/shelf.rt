//! Stores of named files.

ghost use Rattle.std.specs.Prelude.{◌≡◌, ℕ, ◌<◌, ◌≤◌, List, length, Option, None, IfSome, OnOk, OnErr};
ghost use Rattle.glass_edges.specs.Causes.{HasCause, Rose};
ghost use Rattle.glass_edges.specs.Contents.{Files, HoldsFile, LacksFile, HoldsAtLeast, Placed, SameElsewhere};

use crate::Fault;
use std::alloc::Global;

/// What a fetch answers.
#[derive(Debug, PartialEq, Eq, Drop)]
pub enum Fetched {
    /// The bytes of the file.
    Held(Vec<u8>),
    /// There is no file of this name.
    Absent,
    /// The file is longer than the limit: it has at least so many bytes.
    TooLong(u64),
    /// Reading failed, and a fault was counted.
    Failed,
    /// There was not enough memory for the bytes.
    NoMemory,
}

/// A store of named files. A name is any text.
pub trait Shelf {
    /// The bytes of each file by its name, where that is observable.
    ghost holds: { Self → Option Files };

    /// How often it has failed: a count that never falls and stays at its last value, 2^64 - 1.
    ghost faults: { Self → ℕ };

    /// The number that a fetch within a limit tells of a file of this name that is longer, where the
    /// store says beforehand what it tells.
    ghost lengths: { Self → List ℕ → ℕ → Option ℕ } = { λ _ _ _. None };

    /// Reads the file of this name, of at most `limit` bytes. No file changes, and a fault is counted
    /// where reading failed and nowhere else.
    fn fetch(&mut self, alloc: Global, name: &str, limit: u64) -> Fetched
        ensures held { (v : _) → result ≡ Fetched.Held v → HoldsFile (holds self.old) name.now v.items }
        ensures limit { (v : _) → result ≡ Fetched.Held v → length v.items ≤ limit }
        ensures absent { result ≡ Fetched.Absent → LacksFile (holds self.old) name.now }
        ensures above { (n : ℕ) → result ≡ Fetched.TooLong n → limit < n }
        ensures long { (n : ℕ) → result ≡ Fetched.TooLong n → HoldsAtLeast (holds self.old) name.now n }
        ensures length { (n : ℕ) → result ≡ Fetched.TooLong n → IfSome (lengths self.old name.now limit) (λ told. n ≡ told) }
        ensures failed { result ≡ Fetched.Failed → Rose (faults self.old) (faults self.new) }
        ensures quiet { ¬ (result ≡ Fetched.Failed) → faults self.new ≡ faults self.old }
        ensures later { faults self.old ≤ faults self.new }
        ensures same { holds self.new ≡ holds self.old }
        ensures lengths_stay { lengths self.new ≡ lengths self.old };

    /// Sets the file of this name to exactly these bytes, and counts no fault. At an error, which
    /// counts a fault, that name may hold anything, and all other names stay.
    fn place(&mut self, name: &str, bytes: &[u8]) -> Result<(), Fault>
        ensures placed { OnOk result (Placed (holds self.old) (holds self.new) name.now bytes.now) }
        ensures others { OnErr result (SameElsewhere (holds self.old) (holds self.new) name.now) }
        ensures cause { HasCause (faults self.old) (faults self.new) result };
}
