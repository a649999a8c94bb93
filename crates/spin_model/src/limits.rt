//! The limits of the program that more than one crate tests.

ghost use Rattle.std.specs.Prelude.{◌≡◌};
ghost use Rattle.spin_model.specs.Lattice as model;

/// The last epoch that a run ends at, and the most epochs from one that is printed to the next.
pub const LAST_EPOCH: u64 = 1000000000;

/// The most sweeps of an epoch, of a plain run, and of each time after a quench.
pub const MOST_SWEEPS: u64 = 1000000;

/// The greatest number that a demonstration is made from.
pub const GREATEST_DEMO: u64 = 1000000;

/// The most temperature slots of a run.
pub const MOST_SLOTS: u32 = 32;

/// The hand-outs of the longest run, one for each of its slots and epochs.
pub const EVERY_TAKE: u64 = 32000000000;

/// The most rows of a report.
pub const MOST_ROWS: u64 = 4194304;

/// The disorder samples of a bank, a bit each of a word.
pub const BANK_SAMPLES: u32 = 64;

/// The most disorder samples of a run and of a couplings file: those of four banks.
pub const MOST_SAMPLES: u32 = 256;

/// The most sites of one colour in a plane: those at size 64.
pub const GREATEST_HALF_PLANE: usize = 2048;

/// The greatest threshold, of probability 1: each draw, a word of 32 bits, is below it.
pub const CERTAIN: u64 = 4294967296;

/// Whether a lattice may have this size: an even number from 4 to 64.
#[inline]
pub fn is_lawful_size(size: u64) -> bool
    ensures { result ≡ model.is_lawful_size size }
{
    size >= 4 && size <= 64 && size % 2 == 0
}
