//! The adapter over a stream of the system.

ghost use Rattle.std.specs.Prelude.{◌≡◌, ◌<◌, ◌≤◌, ◌++◌, [], Some, length, take, IfOk, OnOk, OnErr};
ghost use Rattle.std.specs.Io.KnownBytes.{Appends, Keeps};
ghost use Rattle.glass_edges.specs.Causes.{one_more};

use crate::taken_bytes::{TakenBytes, none_taken, with_piece};
use crate::{Fault, Sink};
use std::io::Write;
use std::marker::Model;
use std::mem;
use std::snapshot::Snapshot;

/// An output over a writer, as the standard output. What it has taken are the bytes that the writer
/// answered to have taken; they are kept for proofs alone.
#[derive(Drop)]
pub struct StreamSink<W> {
    writer: W,
    faults: u64,
    taken: Snapshot<TakenBytes>,
}

impl<W> Model for StreamSink<W> {
    ghost use Rattle.std.specs.Prelude.{ℕ, List};
    ghost use Rattle.glass_edges.specs.TakenBytes.{bytes_of};

    ghost Value = { W × (ℕ × List ℕ) };

    ghost view = { λ s. (s.writer, (s.faults, bytes_of s.taken.value)) };
}

impl<W: Write + Drop> StreamSink<W> {
    /// The output over this writer, which has taken nothing, with no fault counted.
    pub fn of(writer: W) -> StreamSink<W>
        ensures { result ≡ (writer, (0, [])) }
    {
        StreamSink {
            writer,
            faults: 0,
            taken: none_taken(),
        }
    }
}

impl<W: Write + Drop> Sink for StreamSink<W> {
    ghost taken = { λ s. Some s.1.1 };

    ghost faults = { λ s. s.1.0 };

    /// Writes once. Each error of the system is a fault, also an interrupted call, and so is a
    /// length of 0 for a piece that isn't empty; the writer then holds what it held.
    fn put(&mut self, piece: &[u8]) -> Result<usize, Fault>
        ensures within { IfOk result (λ n. n ≤ length piece.now) }
        ensures some { IfOk result (λ n. 0 < length piece.now → 0 < n) }
        ensures written { IfOk result (λ n. Appends (W.contents self.old.0) (W.contents self.new.0) (take n piece.now)) }
        ensures unwritten { OnErr result (Keeps (W.contents self.old.0) (W.contents self.new.0)) }
        ensures taken { IfOk result (λ n. self.new.1.1 ≡ self.old.1.1 ++ take n piece.now) }
        ensures kept { OnErr result (self.new.1.1 ≡ self.old.1.1) }
        ensures counted { OnErr result (self.new.1.0 ≡ one_more self.old.1.0) }
        ensures uncounted { OnOk result (self.new.1.0 ≡ self.old.1.0) }
        ensures later { self.old.1.0 ≤ self.new.1.0 }
    {
        match self.writer.write(piece) {
            Ok(count) if count > 0 || piece.is_empty() => {
                let taken = mem::replace(&mut self.taken, none_taken());
                self.taken = with_piece(taken, &piece[..count]);
                Ok(count)
            }
            _ => {
                self.faults = self.faults.saturating_add(1);
                Err(Fault)
            }
        }
    }
}
