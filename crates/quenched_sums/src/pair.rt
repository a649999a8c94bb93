//! What is printed of a state and an earlier one.

ghost use Rattle.std.specs.Prelude.{◌≡◌};
ghost use Rattle.plane_sweep.specs.Packed.{part_slot, FitsDuo};
ghost use Rattle.quenched_states.specs.Copies.{two_time_field};
ghost use Rattle.quenched_sums.specs.Told.{TellsPair};

use crate::fields::{write_links, write_overlaps};
use lattice_geometry::Lattice;
use plane_sweep::Duo;
use std::mem::swap;

/// The sums of a slot at two times in 64 samples: of each replica over the field of its spins at the earlier
/// time and at the later one.
#[derive(Drop)]
pub struct PairSums {
    /// The two-time overlaps of the first replica.
    pub first_overlaps: [i32; 64],
    /// The two-time overlaps of the second replica.
    pub second_overlaps: [i32; 64],
    /// The two-time link sums of the first replica.
    pub first_links: [i32; 64],
    /// The two-time link sums of the second replica.
    pub second_links: [i32; 64],
}

impl PairSums {
    /// All numbers 0.
    pub fn none() -> PairSums {
        PairSums {
            first_overlaps: [0i32; 64],
            second_overlaps: [0i32; 64],
            first_links: [0i32; 64],
            second_links: [0i32; 64],
        }
    }

    /// Measures a slot at two times. Takes no memory: meanwhile the two states hold one replica at both times
    /// each, and afterwards they are as before.
    pub fn measure(&mut self, earlier: &mut Duo, later: &mut Duo, lattice: Lattice)
        requires earlier { FitsDuo lattice earlier.old }
        requires later { FitsDuo lattice later.old }
        ensures tells { TellsPair lattice self.new
            (λ b. two_time_field (part_slot lattice b earlier.old) (part_slot lattice b later.old)) }
        ensures earlier { earlier.new ≡ earlier.old }
        ensures later { later.new ≡ later.old }
    {
        swap(&mut earlier.second, &mut later.first);
        write_overlaps(&mut self.first_overlaps, earlier, lattice);
        write_links(&mut self.first_links, earlier, lattice);
        write_overlaps(&mut self.second_overlaps, later, lattice);
        write_links(&mut self.second_links, later, lattice);
        swap(&mut earlier.second, &mut later.first);
    }
}
