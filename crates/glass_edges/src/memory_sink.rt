//! The output in memory.

ghost use Rattle.std.specs.Prelude.{◌≡◌, ◌<◌, ◌≤◌, [], length, Some, IfOk, is_err};
ghost use Rattle.glass_edges.specs.Causes.{HasCause};
ghost use Rattle.glass_edges.specs.MemoryOutput.{refuses, accepted, after_put};

use crate::{Fault, NoMemory, Sink};
use std::alloc::Global;
use std::marker::Model;

/// An output in memory, for tests: it takes at most `most` bytes at a put and `room` bytes in all,
/// and fails at the puts whose numbers, from 0, are in `fails`. Its content is always observable.
#[derive(Drop)]
pub struct MemorySink {
    taken: Vec<u8>,
    room: usize,
    most: usize,
    fails: Vec<u64>,
    puts: u64,
    faults: u64,
}

impl Model for MemorySink {
    ghost use Rattle.std.specs.Prelude.{◌<◌, ◌≤◌, vec_len, vec_capacity};
    ghost use Rattle.glass_edges.specs.MemoryOutput.{MemoryOutput};

    ghost Value = { MemoryOutput };

    ghost view = { λ s. record { taken = s.taken.items; room = s.room; most = s.most; failing = s.fails.items; puts = s.puts; faults = s.faults } };

    ghost invariant = { λ s. (vec_len s.taken ≤ s.room) × (s.room ≤ vec_capacity s.taken) × (0 < s.most) };
}

impl MemorySink {
    /// An output that has taken nothing. All its memory is taken here.
    pub fn new(
        alloc: Global,
        room: usize,
        most: usize,
        fails: Vec<u64>,
    ) -> Result<MemorySink, NoMemory>
        requires { 0 < most }
        ensures { IfOk result (λ s. s ≡ record { taken = []; room = room; most = most; failing = fails.items; puts = 0; faults = 0 }) }
    {
        Ok(MemorySink {
            taken: Vec::with_capacity(alloc, room)?,
            room,
            most,
            fails,
            puts: 0,
            faults: 0,
        })
    }

    /// The bytes taken so far.
    pub fn taken(&self) -> &[u8]
        ensures { result.now ≡ self.now.taken }
    {
        self.taken.as_slice()
    }

    /// How many puts have failed.
    pub fn faults(&self) -> u64
        ensures { result ≡ self.now.faults }
    {
        self.faults
    }
}

impl Sink for MemorySink {
    ghost taken = { λ s. Some s.taken };

    ghost faults = { λ s. s.faults };

    fn put(&mut self, piece: &[u8]) -> Result<usize, Fault>
        ensures exactly { is_err result ≡ refuses self.old piece.now }
        ensures amount { IfOk result (λ n. n ≡ accepted self.old piece.now) }
        ensures some { IfOk result (λ n. 0 < length piece.now → 0 < n) }
        ensures cause { HasCause self.old.faults self.new.faults result }
        ensures moved { self.new ≡ after_put self.old piece.now }
    {
        let failing = self.fails.contains(&self.puts);
        let left = self.room - self.taken.len();
        self.puts = self.puts.saturating_add(1);
        if failing || (left == 0 && !piece.is_empty()) {
            self.faults = self.faults.saturating_add(1);
            return Err(Fault);
        }
        let count = piece.len().min(self.most).min(left);
        let _ = self.taken.extend_from_slice(&piece[..count]);
        Ok(count)
    }
}
