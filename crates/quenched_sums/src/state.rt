//! What is printed of a state.

ghost use Rattle.std.specs.Prelude.{◌≡◌, ℕ, ◌+◌, ◌/◌, ◌<◌, ◌≤◌, [], length, slice_index_or};
ghost use Rattle.measured_sums.specs.MeasuredSums.{observed_in};
ghost use Rattle.measured_sums.specs.OverlapField.{distance_correlation, site_overlap};
ghost use Rattle.plane_sums.specs.Correlations.{signed_at};
ghost use Rattle.plane_sweep.specs.Packed.{part_slot, spins_of, FitsDuo};
ghost use Rattle.quenched_sums.specs.Told.{TellsState};

use crate::excesses::write_excesses;
use crate::fields::{write_distance, write_overlaps};
use bit_totals::unsatisfied_duo;
use lattice_geometry::Lattice;
use plane_sweep::Duo;
use scalar_rule::Plan;

/// The sums of a slot of a state in 64 samples, 9 KB.
#[derive(Drop)]
pub struct StateSums {
    /// The energies of the first replica.
    pub first_energies: [i32; 64],
    /// The energies of the second replica.
    pub second_energies: [i32; 64],
    /// The overlaps of both.
    pub overlaps: [i32; 64],
    /// At place r - 1 the sums over the pairs of sites r steps apart along an axis of the overlap at both.
    pub distances: [[i32; 64]; 32],
}

impl StateSums {
    /// All numbers 0.
    pub fn none() -> StateSums {
        StateSums {
            first_energies: [0i32; 64],
            second_energies: [0i32; 64],
            overlaps: [0i32; 64],
            distances: [[0i32; 64]; 32],
        }
    }

    /// Measures a slot: in each sample both energies, the overlap, and the sums over pairs of sites up to half
    /// the side apart. Takes no memory.
    pub fn measure(&mut self, duo: &Duo, plan: &Plan)
        requires { FitsDuo plan.now.size duo.now }
        ensures { TellsState plan.now.size self.new
            (λ b. observed_in plan.now b (part_slot plan.now.size b duo.now)) }
    {
        let lattice = plan.lattice();
        let bonds = 3 * lattice.sites();
        let (first, second) = unsatisfied_duo(duo, plan);
        write_excesses(&mut self.first_energies, &first, bonds);
        write_excesses(&mut self.second_energies, &second, bonds);
        write_overlaps(&mut self.overlaps, duo, lattice);
        write_distances(&mut self.distances, duo, lattice);
    }
}

// The sums at all distances from 1 to half the side.
fn write_distances(out: &mut [[i32; 64]; 32], duo: &Duo, lattice: Lattice)
    requires { FitsDuo lattice duo.now }
    ensures { (k b : ℕ) → k < lattice / 2 → b < 64 → signed_at (slice_index_or out.new k []) b
        ≡ distance_correlation lattice (site_overlap (spins_of lattice b duo.now.first.planes)
        (spins_of lattice b duo.now.second.planes)) (k + 1) }
{
    'distances: for k in 0..lattice.size() / 2 {
        write_distance(&mut out[k as usize], duo, lattice, k + 1);
    }
}
