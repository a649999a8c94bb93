//! The new words of a plane in both replicas of a slot, two rows of the one and two of the other by
//! turns, so that the couplings of a row are near the processor when the second replica reads them.

ghost use Rattle.std.specs.Prelude.{◌≡◌, ◌+◌, ◌%◌, ◌<◌, ◌==◌, if◌then◌else◌};
ghost use Rattle.plane_sweep.specs.DuoSweep.{CanSweepWords};
ghost use Rattle.plane_sweep.specs.PlaneSweep.{SweepsWords};
ghost use Rattle.spin_model.specs.Lattice.{half_plane, IsLawfulSize};

use crate::dynamics::HalfPlane;
use crate::pairs::sweep_pair;
use crate::replica::Plane;
use crate::rows::{first_row, kind_of, row_behind, sweep_words};
use crate::surroundings::lend;
use threshold_table::RuleKind;

// The least size at which the rows of the two replicas go by turns.
const LEAST_BY_ROWS: usize = 32;

/// The planes of the other colour in both replicas.
#[derive(Drop)]
pub(crate) struct Others<'a, 'b> {
    pub(crate) first: &'a [Plane],
    pub(crate) second: &'b [Plane],
}

/// A draw for each site of a plane in both replicas.
#[derive(Drop)]
pub(crate) struct Drawn<'a, 'b> {
    pub(crate) first: &'a [u32],
    pub(crate) second: &'b [u32],
}

/// The new words of the sites of a colour in a plane of both replicas, each by the planes of its own
/// replica and its own draws. They go by two rows in turn at multiples of 8 from 32 on, by a table in
/// order; else there is no code for both, and the plane of the one goes before that of the other.
pub(crate) fn sweep_words_of_duo<const SIZE: usize>(
    first: &mut [u64],
    second: &mut [u64],
    others: &Others,
    sites: &HalfPlane,
    drawn: &Drawn,
)
    requires size { 0 < SIZE → sites.now.couplings.now.size ≡ SIZE }
    requires first { CanSweepWords sites.now.couplings.now others.now.first.now drawn.now.first.now first.old }
    requires second { CanSweepWords sites.now.couplings.now others.now.second.now drawn.now.second.now second.old }
    requires colour { sites.now.colour < 2 }
    requires plane { sites.now.z < sites.now.couplings.now.size }
    ensures first { SweepsWords sites.now.couplings.now others.now.first.now sites.now.rule.now drawn.now.first.now sites.now.colour sites.now.z (half_plane sites.now.couplings.now.size) first.old first.new }
    ensures second { SweepsWords sites.now.couplings.now others.now.second.now sites.now.rule.now drawn.now.second.now sites.now.colour sites.now.z (half_plane sites.now.couplings.now.size) second.old second.new }
{
    let _ = sites.couplings.size();
    if SIZE < LEAST_BY_ROWS || SIZE % 8 != 0 {
        sweep_words::<SIZE>(first, others.first, sites, drawn.first);
        sweep_words::<SIZE>(second, others.second, sites, drawn.second);
        return;
    }
    let even = (sites.colour + sites.z) % 2 == 0;
    match sites.rule.kind() {
        RuleKind::Heat if even => {
            sweep_rows_of_duo::<SIZE, true, true>(first, second, others, sites, drawn)
        }
        RuleKind::Heat => {
            sweep_rows_of_duo::<SIZE, true, false>(first, second, others, sites, drawn)
        }
        RuleKind::Metropolis if even => {
            sweep_rows_of_duo::<SIZE, false, true>(first, second, others, sites, drawn)
        }
        RuleKind::Metropolis => {
            sweep_rows_of_duo::<SIZE, false, false>(first, second, others, sites, drawn)
        }
    }
}

// The new words by heat bath or Metropolis, two rows of each replica at a time. Not expanded where it is
// called, since no hint brings so much code into one function.
#[inline(never)]
fn sweep_rows_of_duo<const SIZE: usize, const HEAT: bool, const EVEN: bool>(
    first: &mut [u64],
    second: &mut [u64],
    others: &Others,
    sites: &HalfPlane,
    drawn: &Drawn,
)
    requires size { sites.now.couplings.now.size ≡ SIZE }
    requires lawful { IsLawfulSize sites.now.couplings.now.size }
    requires even { EVEN ≡ ((sites.now.colour + sites.now.z) % 2 == 0) }
    requires kind { sites.now.rule.now.kind ≡ (if HEAT then RuleKind.Heat else RuleKind.Metropolis) }
    requires first { CanSweepWords sites.now.couplings.now others.now.first.now drawn.now.first.now first.old }
    requires second { CanSweepWords sites.now.couplings.now others.now.second.now drawn.now.second.now second.old }
    requires colour { sites.now.colour < 2 }
    requires plane { sites.now.z < sites.now.couplings.now.size }
    ensures first { SweepsWords sites.now.couplings.now others.now.first.now sites.now.rule.now drawn.now.first.now sites.now.colour sites.now.z (half_plane sites.now.couplings.now.size) first.old first.new }
    ensures second { SweepsWords sites.now.couplings.now others.now.second.now sites.now.rule.now drawn.now.second.now sites.now.colour sites.now.z (half_plane sites.now.couplings.now.size) second.old second.new }
{
    if !sites.rule.is_in_order() {
        sweep_words::<0>(first, others.first, sites, drawn.first);
        sweep_words::<0>(second, others.second, sites, drawn.second);
        return;
    }
    let around = lend(others.first, sites.couplings, sites.colour, sites.z, SIZE);
    let beyond = lend(others.second, sites.couplings, sites.colour, sites.z, SIZE);
    // Its own, as in the sweep of one replica.
    let rule = sites.rule.copy_in_order(kind_of(HEAT));
    let (draws, more) = (drawn.first, drawn.second);
    let words = SIZE * (SIZE / 2);
    let mut row = first_row(SIZE, EVEN);
    'pairs: for i in 0..SIZE / 2 {
        let behind = row_behind(&row, words);
        sweep_pair::<SIZE, HEAT, EVEN, 1>(first, &around, &rule, draws, &row, &behind);
        sweep_pair::<SIZE, HEAT, EVEN, 2>(second, &beyond, &rule, more, &row, &behind);
        row = row_behind(&behind, words);
    }
}
