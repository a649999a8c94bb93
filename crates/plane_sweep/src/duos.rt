//! The sweep of all 64 samples of both replicas of a slot.

ghost use Rattle.std.specs.Prelude.{◌≡◌, ℕ, ◌+◌, ◌*◌, ◌<◌, ◌≤◌, length, All};
ghost use Rattle.plane_sweep.specs.Order.{FitsColours, SweepsTurn};
ghost use Rattle.plane_sweep.specs.Packed.{part_copy, FitsDuo, FitsPlane};
ghost use Rattle.plane_sweep.specs.PlaneSweep.{SweepsColours, SweepsPlane};
ghost use Rattle.scalar_rule.specs.Plan.{dynamics_of, slots_of};
ghost use Rattle.scalar_rule.specs.Replica.{configuration_of, with_configuration};
ghost use Rattle.scalar_rule.specs.SlotRules.{HasThresholds};
ghost use Rattle.scalar_rule.specs.Sweep as model;
ghost use Rattle.spin_model.specs.Lattice.{half_plane, IsLawfulSize};

use crate::by_size;
use crate::draws::DUO_DRAWS;
use crate::duo_rows::{Drawn, Others, sweep_words_of_duo};
use crate::dynamics::{Dynamics, HalfPlane, rule_of_slot, sites_of};
use crate::order::{first_turn, turn_after};
use crate::replica::{Duo, Plane};
use crate::sizes::side_of;
use crate::sweeping::{is_forked, sweep_often};
use local_rule::ReadyRule;
use scalar_rule::Plan;
use std::thread::Threads;

// The least size at which both replicas of a slot are swept by turns: a smaller lattice's couplings
// stay near the processor from the sweep of the one to that of the other.
const LEAST_IN_TURN: usize = 32;

/// That many sweeps of both replicas of a temperature slot, of each as `sweep` makes one. On a large
/// lattice that is not cut in pieces the two go in turn, by two rows or by planes, since both read
/// the same couplings. Takes no memory.
pub fn sweep_duo_often<R: Threads + Sync>(
    rt: &R,
    duo: &mut Duo,
    plan: &Plan,
    slot: u32,
    pieces: u32,
    count: u32,
)
    requires duo { FitsDuo plan.now.size duo.old }
    requires slot { slot < slots_of plan.now }
    requires some_pieces { 1 ≤ pieces }
    requires few_pieces { pieces ≤ 16 }
    ensures first { (b : ℕ) → b < 64 → part_copy plan.now.size b duo.new.first
        ≡ with_configuration (part_copy plan.now.size b duo.old.first)
        (model.sweeps (dynamics_of plan.now b slot) count (configuration_of (part_copy plan.now.size b duo.old.first))) }
    ensures second { (b : ℕ) → b < 64 → part_copy plan.now.size b duo.new.second
        ≡ with_configuration (part_copy plan.now.size b duo.old.second)
        (model.sweeps (dynamics_of plan.now b slot) count (configuration_of (part_copy plan.now.size b duo.old.second))) }
    ensures fits { FitsDuo plan.now.size duo.new }
{
    let size = plan.lattice().size() as usize;
    if size >= LEAST_IN_TURN && !is_forked(size, pieces as usize) {
        sweep_in_turn(duo, plan, slot, count);
    } else {
        sweep_often(rt, &mut duo.first, plan, slot, pieces, count);
        sweep_often(rt, &mut duo.second, plan, slot, pieces, count);
    }
}

// The sweeps of both replicas in turn.
fn sweep_in_turn(duo: &mut Duo, plan: &Plan, slot: u32, count: u32)
    requires duo { FitsDuo plan.now.size duo.old }
    requires slot { slot < slots_of plan.now }
    ensures first { (b : ℕ) → b < 64 → part_copy plan.now.size b duo.new.first
        ≡ with_configuration (part_copy plan.now.size b duo.old.first)
        (model.sweeps (dynamics_of plan.now b slot) count (configuration_of (part_copy plan.now.size b duo.old.first))) }
    ensures second { (b : ℕ) → b < 64 → part_copy plan.now.size b duo.new.second
        ≡ with_configuration (part_copy plan.now.size b duo.old.second)
        (model.sweeps (dynamics_of plan.now b slot) count (configuration_of (part_copy plan.now.size b duo.old.second))) }
    ensures fits { FitsDuo plan.now.size duo.new }
{
    let rule = rule_of_slot(plan, slot);
    'sweeps: for _ in 0..count {
        sweep_once(duo, plan, &rule);
    }
}

// One sweep of both, by the rule of a slot.
fn sweep_once(duo: &mut Duo, plan: &Plan, rule: &ReadyRule)
    requires duo { FitsDuo plan.now.size duo.old }
    ensures first { (slot b : ℕ) → HasThresholds plan.now.rules slot rule.now → b < 64
        → part_copy plan.now.size b duo.new.first
        ≡ with_configuration (part_copy plan.now.size b duo.old.first)
        (model.sweep (dynamics_of plan.now b slot) (configuration_of (part_copy plan.now.size b duo.old.first))) }
    ensures second { (slot b : ℕ) → HasThresholds plan.now.rules slot rule.now → b < 64
        → part_copy plan.now.size b duo.new.second
        ≡ with_configuration (part_copy plan.now.size b duo.old.second)
        (model.sweep (dynamics_of plan.now b slot) (configuration_of (part_copy plan.now.size b duo.old.second))) }
    ensures fits { FitsDuo plan.now.size duo.new }
{
    let dynamics = Dynamics {
        couplings: plan.couplings(),
        rule,
    };
    let _ = plan.lattice();
    let first = duo.first.planes.as_mut_slice();
    let second = duo.second.planes.as_mut_slice();
    sweep_colours(first, second, &dynamics);
}

// One sweep of two lists of planes.
fn sweep_colours(first: &mut [Plane], second: &mut [Plane], dynamics: &Dynamics)
    requires lawful { IsLawfulSize dynamics.now.couplings.now.size }
    requires first { FitsColours dynamics.now.couplings.now.size first.old }
    requires second { FitsColours dynamics.now.couplings.now.size second.old }
    ensures first { SweepsColours dynamics.now.couplings.now dynamics.now.rule.now first.old first.new }
    ensures second { SweepsColours dynamics.now.couplings.now dynamics.now.rule.now second.old second.new }
{
    let draws: &mut [u32] = &mut [0u32; DUO_DRAWS];
    by_size!(
        dynamics.couplings.size(),
        sweep_turns(first, second, dynamics, draws)
    );
}

// All turns of a sweep of both, by code for a size, or for any where that is 0.
fn sweep_turns<const SIZE: usize>(
    first: &mut [Plane],
    second: &mut [Plane],
    dynamics: &Dynamics,
    draws: &mut [u32],
)
    requires size { 0 < SIZE → dynamics.now.couplings.now.size ≡ SIZE }
    requires lawful { IsLawfulSize dynamics.now.couplings.now.size }
    requires room { 2 * half_plane dynamics.now.couplings.now.size ≤ length draws.old }
    requires first { FitsColours dynamics.now.couplings.now.size first.old }
    requires second { FitsColours dynamics.now.couplings.now.size second.old }
    ensures first { SweepsColours dynamics.now.couplings.now dynamics.now.rule.now first.old first.new }
    ensures second { SweepsColours dynamics.now.couplings.now dynamics.now.rule.now second.old second.new }
{
    let size = side_of::<SIZE>(dynamics.couplings);
    let mut turn = first_turn();
    'turns: for i in 0..2 * size {
        sweep_turn_of_duo::<SIZE>(first, second, &sites_of(dynamics, &turn), draws);
        turn = turn_after(&turn, size);
    }
}

/// Sweeps the sites of a turn in both replicas of a slot, by code for a size, or for any where that is 0.
/// Each list has the 2L planes of a replica, those of colour 0 ahead; `draws` is the room for a draw for
/// each site of both planes.
pub fn sweep_turn_of_duo<const SIZE: usize>(
    first: &mut [Plane],
    second: &mut [Plane],
    sites: &HalfPlane,
    draws: &mut [u32],
)
    requires size { 0 < SIZE → sites.now.couplings.now.size ≡ SIZE }
    requires first { FitsColours sites.now.couplings.now.size first.old }
    requires second { FitsColours sites.now.couplings.now.size second.old }
    requires room { 2 * half_plane sites.now.couplings.now.size ≤ length draws.old }
    requires colour { sites.now.colour < 2 }
    requires plane { sites.now.z < sites.now.couplings.now.size }
    ensures first { SweepsTurn sites.now.couplings.now sites.now.rule.now sites.now.colour sites.now.z first.old first.new }
    ensures second { SweepsTurn sites.now.couplings.now sites.now.rule.now sites.now.colour sites.now.z second.old second.new }
{
    let z = sites.z as usize;
    let size = side_of::<SIZE>(sites.couplings) as usize;
    let (first_ahead, first_behind) = first.split_at_mut(size);
    let (second_ahead, second_behind) = second.split_at_mut(size);
    if sites.colour == 0 {
        let others = Others {
            first: first_behind,
            second: second_behind,
        };
        sweep_plane::<SIZE>(
            &mut first_ahead[z],
            &mut second_ahead[z],
            &others,
            sites,
            draws,
        );
    } else {
        let others = Others {
            first: first_ahead,
            second: second_ahead,
        };
        sweep_plane::<SIZE>(
            &mut first_behind[z],
            &mut second_behind[z],
            &others,
            sites,
            draws,
        );
    }
}

// The sites of a colour in a plane of both replicas, each plane by the draws of its own generator.
fn sweep_plane<const SIZE: usize>(
    first: &mut Plane,
    second: &mut Plane,
    others: &Others,
    sites: &HalfPlane,
    draws: &mut [u32],
)
    requires size { 0 < SIZE → sites.now.couplings.now.size ≡ SIZE }
    requires first { FitsPlane sites.now.couplings.now.size first.old }
    requires second { FitsPlane sites.now.couplings.now.size second.old }
    requires first_count { length others.now.first.now ≡ sites.now.couplings.now.size }
    requires second_count { length others.now.second.now ≡ sites.now.couplings.now.size }
    requires first_others { All (FitsPlane sites.now.couplings.now.size) others.now.first.now }
    requires second_others { All (FitsPlane sites.now.couplings.now.size) others.now.second.now }
    requires room { 2 * half_plane sites.now.couplings.now.size ≤ length draws.old }
    requires colour { sites.now.colour < 2 }
    requires plane { sites.now.z < sites.now.couplings.now.size }
    ensures first { SweepsPlane sites.now.couplings.now others.now.first.now sites.now.rule.now sites.now.colour sites.now.z first.old first.new }
    ensures second { SweepsPlane sites.now.couplings.now others.now.second.now sites.now.rule.now sites.now.colour sites.now.z second.old second.new }
{
    let size = side_of::<SIZE>(sites.couplings);
    let count = (size * (size / 2)) as usize;
    let (front, rest) = draws.split_at_mut(count);
    let back = &mut rest[..count];
    first.wheel.fill(front);
    second.wheel.fill(back);
    sweep_words_of_duo::<SIZE>(
        first.words.as_mut_slice(),
        second.words.as_mut_slice(),
        others,
        sites,
        &Drawn {
            first: front,
            second: back,
        },
    );
}
