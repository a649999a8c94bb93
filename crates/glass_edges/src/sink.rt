//! Outputs that take bytes.

ghost use Rattle.std.specs.Prelude.{◌≡◌, ℕ, ◌<◌, ◌≤◌, List, length, take, Option, IfOk, OnErr};
ghost use Rattle.glass_edges.specs.Causes.{HasCause};
ghost use Rattle.glass_edges.specs.Contents.{appended};

use crate::Fault;

/// An output, which takes bytes in their order.
pub trait Sink {
    /// All bytes that it has taken, where that is observable.
    ghost taken: { Self → Option (List ℕ) };

    /// How often it has failed: a count that never falls and stays at its last value, 2^64 - 1.
    ghost faults: { Self → ℕ };

    /// Takes the first bytes of the piece, at least one of a piece that isn't empty, and answers
    /// how many; no fault is counted then. At an error, which counts a fault, it has taken none.
    fn put(&mut self, piece: &[u8]) -> Result<usize, Fault>
        ensures taken { IfOk result (λ n. taken self.new ≡ appended (taken self.old) (take n piece.now)) }
        ensures within { IfOk result (λ n. n ≤ length piece.now) }
        ensures some { IfOk result (λ n. 0 < length piece.now → 0 < n) }
        ensures kept { OnErr result (taken self.new ≡ taken self.old) }
        ensures cause { HasCause (faults self.old) (faults self.new) result };
}
