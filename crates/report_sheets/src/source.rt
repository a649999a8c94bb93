//! Where the rows of a report come from.

ghost use Rattle.std.specs.Prelude.{◌≡◌, ℕ, ◌≤◌, List, [], ◌++◌};
ghost use Rattle.glass_edges.specs.Writes.{WritesFront};

use glass_edges::{Fault, Line, Sink};

/// The rows of a report, of which those between any two of its epochs can be made.
pub trait RowSource {
    /// What a source has to be, so that its rows can be made.
    ghost ready: { Self → Type 0 };

    /// The rows from one epoch to another, as text.
    ghost text: { Self → ℕ → ℕ → List ℕ };

    /// The epoch from which there are rows.
    ghost begin: { Self → ℕ };

    /// The epoch to which there are rows.
    ghost end: { Self → ℕ };

    /// The epoch from which there are rows, and it is not behind the one to which there are.
    fn first(&self) -> u64
        requires { ready self.now }
        ensures is { result ≡ begin self.now }
        ensures before { begin self.now ≤ end self.now };

    /// The epoch to which there are rows.
    fn last(&self) -> u64
        requires { ready self.now }
        ensures { result ≡ end self.now };

    /// For how many epochs, at least one, room for so many rows is to be enough. Speed alone depends on it.
    fn epochs_of(&self, rows: u64) -> u64
        requires { ready self.now }
        ensures { 1 ≤ result };

    /// Adds the rows from one epoch to another behind a text that is still to be put; a front of both may go
    /// out, and the rest stays. At an error the output has taken a prefix of the text and the rows.
    fn add<O: Sink>(&self, out: &mut O, line: &mut Line, from: u64, to: u64) -> Result<(), Fault>
        requires ready { ready self.now }
        requires begin { begin self.now ≤ from }
        requires window { from ≤ to }
        requires end { to ≤ end self.now }
        ensures { WritesFront O.Sink out.old out.new
            (line.old ++ text self.now from to) line.new result };

    /// Between an epoch and itself there is none.
    ghost empty: { (rows : Self) (e : ℕ) → text rows e e ≡ [] };

    /// The rows from one epoch to a later one are those to an epoch between, and then those from it.
    ghost joined: { (rows : Self) (a b c : ℕ) → a ≤ b → b ≤ c → text rows a c ≡ text rows a b ++ text rows b c };
}
