//! The counts of all slots of a state.

ghost use Rattle.std.specs.Prelude.{◌≡◌, ℕ, ◌+◌, ◌*◌, ◌/◌, ◌<◌, ◌≤◌, [], length, slice_index_or};
ghost use Rattle.multispin_word.specs.Planes.{number};
ghost use Rattle.overlap_lines.specs.CountedText.{AreCounts, HaveCounts};
ghost use Rattle.overlap_lines.specs.Overlaps as model;
ghost use Rattle.plane_sweep.specs.Packed.{spins_of, FitsDuo, StandFits};

use crate::counting::{agreeing_bonds, agreeing_line};
use lattice_geometry::Lattice;
use plane_sweep::{Duo, Stand};
use scalar_rule::Plan;
use spin_model::MOST_SLOTS;

/// The most slots of a state.
pub(crate) const SLOTS: usize = MOST_SLOTS as usize;

/// The most counts of a slot: of its bonds, and of 32 lines in each direction.
pub(crate) const COUNTS: usize = 97;

/// The counts of the slots of a state, each of them for all samples.
pub(crate) fn count_slots(counts: &mut [[[u64; 20]; COUNTS]; SLOTS], base: &Stand, plan: &Plan)
    requires { StandFits plan.now base.now }
    ensures { HaveCounts plan.now.size base.now.slots counts.new }
{
    let lattice = plan.lattice();
    'slots: for t in 0..plan.slots() as usize {
        count_slot(&mut counts[t], base.slots.at(t), lattice);
    }
}

// The counts of one slot.
fn count_slot(counts: &mut [[u64; 20]], duo: &Duo, lattice: Lattice)
    requires room { length counts.old ≡ COUNTS }
    requires fits { FitsDuo lattice duo.now }
    ensures { AreCounts lattice duo.now counts.new }
{
    let bonds = agreeing_bonds(duo, lattice);
    let words = bonds.words;
    counts[0] = words;
    'directions: for d in 0..3 {
        count_direction(counts, duo, lattice, d);
    }
}

// Those of the lines in one direction.
fn count_direction(counts: &mut [[u64; 20]], duo: &Duo, lattice: Lattice, d: u32)
    requires room { length counts.old ≡ COUNTS }
    requires fits { FitsDuo lattice duo.now }
    requires direction { d < 3 }
    ensures lines { (r b : ℕ) → 1 ≤ r → r ≤ lattice / 2 → b < 64
        → number (slice_index_or counts.new (32 * d + r) []) b ≡ model.agreeing_line lattice
        (spins_of lattice b duo.now.first.planes) (spins_of lattice b duo.now.second.planes) d r }
    ensures before { (m : ℕ) → m ≤ 32 * d
        → slice_index_or counts.new m [] ≡ slice_index_or counts.old m [] }
{
    'distances: for k in 0..lattice.size() / 2 {
        let line = agreeing_line(duo, lattice, d, k + 1);
        let words = line.words;
        counts[(32 * d + (k + 1)) as usize] = words;
    }
}
