//! A sweep of both replicas of a slot that counts as it goes. A site of colour 1 gets its new spins when
//! all its neighbours, which are of colour 0, have theirs: so its unsatisfied bonds are known then, no later
//! step changes them, and those of all such sites are all bonds.

ghost use Rattle.std.specs.Prelude.{◌≡◌, ℕ, ◌*◌, ◌<◌, ◌≤◌, length};
ghost use Rattle.bit_totals.specs.Counted.{unsatisfied_from};
ghost use Rattle.bit_totals.specs.CountedTurns.{CountsTurn, HasRoom, SweepsAndCounts};
ghost use Rattle.bit_totals.specs.Tallies.{tallied};
ghost use Rattle.coupling_set.specs.CouplingWords.{bonds_of};
ghost use Rattle.multispin_word.specs.Planes.{number};
ghost use Rattle.plane_sweep.specs.Order.{FitsColours, SweepsTurn};
ghost use Rattle.plane_sweep.specs.Packed.{part_copy, spins_of, FitsDuo};
ghost use Rattle.scalar_rule.specs.Plan.{dynamics_of, slots_of};
ghost use Rattle.scalar_rule.specs.Replica.{configuration_of, with_configuration};
ghost use Rattle.scalar_rule.specs.Sums as sums;
ghost use Rattle.scalar_rule.specs.Sweep as model;
ghost use Rattle.spin_model.specs.Lattice.{bond_count, half_plane, IsLawfulSize};

use crate::counted_rows::sweep_plane_counted;
use crate::tally::Tally;
use multispin_word::Planes;
use plane_sweep::{
    DUO_DRAWS, Duo, Dynamics, HalfPlane, Plane, SMALL_DRAWS, by_size, first_turn, is_small,
    rule_of_slot, side_of, sites_of, sweep_turn_of_duo, turn_after,
};
use scalar_rule::Plan;

/// A sweep of both replicas of a temperature slot, as `plane_sweep::sweep_duo_often` makes one in one
/// piece, and U of each disorder sample after it, as `unsatisfied_duo` tells it. Takes no memory.
pub fn sweep_duo_and_count(duo: &mut Duo, plan: &Plan, slot: u32) -> (Planes<20>, Planes<20>)
    requires duo { FitsDuo plan.now.size duo.old }
    requires slot { slot < slots_of plan.now }
    ensures swept_first { (b : ℕ) → b < 64 → part_copy plan.now.size b duo.new.first
        ≡ with_configuration (part_copy plan.now.size b duo.old.first)
        (model.sweep (dynamics_of plan.now b slot) (configuration_of (part_copy plan.now.size b duo.old.first))) }
    ensures swept_second { (b : ℕ) → b < 64 → part_copy plan.now.size b duo.new.second
        ≡ with_configuration (part_copy plan.now.size b duo.old.second)
        (model.sweep (dynamics_of plan.now b slot) (configuration_of (part_copy plan.now.size b duo.old.second))) }
    ensures fits { FitsDuo plan.now.size duo.new }
    ensures first { (b : ℕ) → b < 64 → number result.0.words b
        ≡ sums.unsatisfied plan.now.size (bonds_of plan.now.couplings b)
        (spins_of plan.now.size b duo.new.first.planes) }
    ensures second { (b : ℕ) → b < 64 → number result.1.words b
        ≡ sums.unsatisfied plan.now.size (bonds_of plan.now.couplings b)
        (spins_of plan.now.size b duo.new.second.planes) }
    ensures within { (b : ℕ) → b < 64
        → (number result.0.words b ≤ bond_count plan.now.size) × (number result.1.words b ≤ bond_count plan.now.size) }
{
    let (first, second) = sweep_duo(duo, plan, slot);
    (first.total(), second.total())
}

// The sweep and its count, not yet in planes: the bonds of all sites of colour 1.
fn sweep_duo(duo: &mut Duo, plan: &Plan, slot: u32) -> (Tally, Tally)
    requires duo { FitsDuo plan.now.size duo.old }
    requires slot { slot < slots_of plan.now }
    ensures swept_first { (b : ℕ) → b < 64 → part_copy plan.now.size b duo.new.first
        ≡ with_configuration (part_copy plan.now.size b duo.old.first)
        (model.sweep (dynamics_of plan.now b slot) (configuration_of (part_copy plan.now.size b duo.old.first))) }
    ensures swept_second { (b : ℕ) → b < 64 → part_copy plan.now.size b duo.new.second
        ≡ with_configuration (part_copy plan.now.size b duo.old.second)
        (model.sweep (dynamics_of plan.now b slot) (configuration_of (part_copy plan.now.size b duo.old.second))) }
    ensures fits { FitsDuo plan.now.size duo.new }
    ensures first { (b : ℕ) → b < 64 → tallied result.0.rows b
        ≡ unsatisfied_from plan.now.size (bonds_of plan.now.couplings b)
        (spins_of plan.now.size b duo.new.first.planes) 1 (plan.now.size * half_plane plan.now.size) }
    ensures second { (b : ℕ) → b < 64 → tallied result.1.rows b
        ≡ unsatisfied_from plan.now.size (bonds_of plan.now.couplings b)
        (spins_of plan.now.size b duo.new.second.planes) 1 (plan.now.size * half_plane plan.now.size) }
    ensures lawful { IsLawfulSize plan.now.size }
{
    let rule = rule_of_slot(plan, slot);
    let dynamics = Dynamics {
        couplings: plan.couplings(),
        rule: &rule,
    };
    let size = plan.lattice().size() as usize;
    let first = duo.first.planes.as_mut_slice();
    let second = duo.second.planes.as_mut_slice();
    sweep_colours(first, second, &dynamics, size)
}

// The sweep and its count of two lists of planes. The room for the draws is cleared in each sweep, so a small lattice
// takes less of it.
fn sweep_colours(
    first: &mut [Plane],
    second: &mut [Plane],
    dynamics: &Dynamics,
    size: usize,
) -> (Tally, Tally)
    requires size { size ≡ dynamics.now.couplings.now.size }
    requires lawful { IsLawfulSize dynamics.now.couplings.now.size }
    requires first { FitsColours dynamics.now.couplings.now.size first.old }
    requires second { FitsColours dynamics.now.couplings.now.size second.old }
    ensures first { SweepsAndCounts dynamics.now.couplings.now dynamics.now.rule.now first.old first.new result.0.rows }
    ensures second { SweepsAndCounts dynamics.now.couplings.now dynamics.now.rule.now second.old second.new result.1.rows }
{
    if is_small(size) {
        sweep_in_order(first, second, dynamics, &mut [0u32; 2 * SMALL_DRAWS])
    } else {
        sweep_in_order(first, second, dynamics, &mut [0u32; DUO_DRAWS])
    }
}

// The sweep and its count by code of its own for many sizes.
fn sweep_in_order(
    first: &mut [Plane],
    second: &mut [Plane],
    dynamics: &Dynamics,
    draws: &mut [u32],
) -> (Tally, Tally)
    requires lawful { IsLawfulSize dynamics.now.couplings.now.size }
    requires room { 2 * half_plane dynamics.now.couplings.now.size ≤ length draws.old }
    requires first { FitsColours dynamics.now.couplings.now.size first.old }
    requires second { FitsColours dynamics.now.couplings.now.size second.old }
    ensures first { SweepsAndCounts dynamics.now.couplings.now dynamics.now.rule.now first.old first.new result.0.rows }
    ensures second { SweepsAndCounts dynamics.now.couplings.now dynamics.now.rule.now second.old second.new result.1.rows }
{
    by_size!(
        dynamics.couplings.size(),
        sweep_turns(first, second, dynamics, draws)
    )
}

// All turns of the sweep, by code for a size, or for any where that is 0.
fn sweep_turns<const SIZE: usize>(
    first: &mut [Plane],
    second: &mut [Plane],
    dynamics: &Dynamics,
    draws: &mut [u32],
) -> (Tally, Tally)
    requires size { 0 < SIZE → dynamics.now.couplings.now.size ≡ SIZE }
    requires lawful { IsLawfulSize dynamics.now.couplings.now.size }
    requires room { 2 * half_plane dynamics.now.couplings.now.size ≤ length draws.old }
    requires first { FitsColours dynamics.now.couplings.now.size first.old }
    requires second { FitsColours dynamics.now.couplings.now.size second.old }
    ensures first { SweepsAndCounts dynamics.now.couplings.now dynamics.now.rule.now first.old first.new result.0.rows }
    ensures second { SweepsAndCounts dynamics.now.couplings.now dynamics.now.rule.now second.old second.new result.1.rows }
{
    let size = side_of::<SIZE>(dynamics.couplings);
    let mut tallies = (Tally::none(), Tally::none());
    let mut turn = first_turn();
    'turns: for i in 0..2 * size {
        let sites = sites_of(dynamics, &turn);
        sweep_turn::<SIZE>(&mut tallies, first, second, &sites, draws);
        turn = turn_after(&turn, size);
    }
    tallies
}

// The plane of a turn in both replicas, and the unsatisfied bonds of its sites if they are of colour 1.
fn sweep_turn<const SIZE: usize>(
    tallies: &mut (Tally, Tally),
    first: &mut [Plane],
    second: &mut [Plane],
    sites: &HalfPlane,
    draws: &mut [u32],
)
    requires size { 0 < SIZE → sites.now.couplings.now.size ≡ SIZE }
    requires lawful { IsLawfulSize sites.now.couplings.now.size }
    requires first { FitsColours sites.now.couplings.now.size first.old }
    requires second { FitsColours sites.now.couplings.now.size second.old }
    requires draws { 2 * half_plane sites.now.couplings.now.size ≤ length draws.old }
    requires colour { sites.now.colour < 2 }
    requires plane { sites.now.z < sites.now.couplings.now.size }
    requires first_room { HasRoom sites.now.couplings.now.size tallies.old.0.rows }
    requires second_room { HasRoom sites.now.couplings.now.size tallies.old.1.rows }
    ensures swept_first { SweepsTurn sites.now.couplings.now sites.now.rule.now sites.now.colour sites.now.z first.old first.new }
    ensures swept_second { SweepsTurn sites.now.couplings.now sites.now.rule.now sites.now.colour sites.now.z second.old second.new }
    ensures first { CountsTurn sites.now.couplings.now sites.now.colour sites.now.z first.new tallies.old.0.rows tallies.new.0.rows }
    ensures second { CountsTurn sites.now.couplings.now sites.now.colour sites.now.z second.new tallies.old.1.rows tallies.new.1.rows }
{
    if sites.colour == 0 {
        sweep_turn_of_duo::<SIZE>(first, second, sites, draws);
    } else {
        sweep_behind::<SIZE>(&mut tallies.0, first, sites, draws);
        sweep_behind::<SIZE>(&mut tallies.1, second, sites, draws);
    }
}

// A plane of colour 1, and the unsatisfied bonds of its sites.
fn sweep_behind<const SIZE: usize>(
    tally: &mut Tally,
    planes: &mut [Plane],
    sites: &HalfPlane,
    draws: &mut [u32],
)
    requires size { 0 < SIZE → sites.now.couplings.now.size ≡ SIZE }
    requires lawful { IsLawfulSize sites.now.couplings.now.size }
    requires planes { FitsColours sites.now.couplings.now.size planes.old }
    requires draws { half_plane sites.now.couplings.now.size ≤ length draws.old }
    requires colour { sites.now.colour ≡ 1 }
    requires plane { sites.now.z < sites.now.couplings.now.size }
    requires room { HasRoom sites.now.couplings.now.size tally.old.rows }
    ensures swept { SweepsTurn sites.now.couplings.now sites.now.rule.now sites.now.colour sites.now.z planes.old planes.new }
    ensures counted { CountsTurn sites.now.couplings.now sites.now.colour sites.now.z planes.new tally.old.rows tally.new.rows }
{
    let (ahead, behind) = planes.split_at_mut(side_of::<SIZE>(sites.couplings) as usize);
    let plane = &mut behind[sites.z as usize];
    sweep_plane_counted::<SIZE>(&mut tally.rows, plane, ahead, sites, draws);
}
