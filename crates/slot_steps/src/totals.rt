//! The sweeps of an epoch in all 64 samples, and the sums after them.

ghost use Rattle.std.specs.Prelude.{◌≡◌, ℕ, ◌<◌, ◌≤◌};
ghost use Rattle.plane_sweep.specs.Packed.{part_slot, FitsDuo};
ghost use Rattle.scalar_rule.specs.Epoch as model;
ghost use Rattle.scalar_rule.specs.Plan.{slots_of};
ghost use Rattle.slot_steps.specs.Totals.{AreTotals};

use bit_totals::{sweep_duo_and_count, unsatisfied_duo};
use multispin_word::Planes;
use plane_sweep::{Duo, is_forked, sweep_duo_often};
use scalar_rule::Plan;
use std::thread::Threads;

/// The unsatisfied bonds of both replicas of a slot in 64 samples, as twenty bit planes: 0 to 3V for V
/// sites. Its exchange asks for them.
#[derive(Drop)]
pub struct Totals {
    pub first: Planes<20>,
    pub second: Planes<20>,
}

/// The totals of a slot, counted now.
pub fn count_totals(duo: &Duo, plan: &Plan) -> Totals
    requires { FitsDuo plan.now.size duo.now }
    ensures { AreTotals plan.now duo.now result }
{
    let (first, second) = unsatisfied_duo(duo, plan);
    Totals { first, second }
}

/// The sweeps of an epoch of both replicas of a slot, and its totals after them.
pub fn sweep_and_total<R: Threads + Sync>(
    rt: &R,
    duo: &mut Duo,
    plan: &Plan,
    slot: u32,
    pieces: u32,
) -> Totals
    requires duo { FitsDuo plan.now.size duo.old }
    requires slot { slot < slots_of plan.now }
    requires some_pieces { 1 ≤ pieces }
    requires few_pieces { pieces ≤ 16 }
    ensures swept { (b : ℕ) → b < 64 → part_slot plan.now.size b duo.new
        ≡ model.swept_slot plan.now b slot (part_slot plan.now.size b duo.old) }
    ensures fits { FitsDuo plan.now.size duo.new }
    ensures totals { AreTotals plan.now duo.new result }
{
    let size = plan.lattice().size() as usize;
    // Where a sweep that counts has code of its own, and no planes are cut in pieces.
    if size % 8 == 0 && !is_forked(size, pieces as usize) {
        total_in_last_sweep(rt, duo, plan, slot)
    } else {
        sweep_slot(rt, duo, plan, slot, pieces);
        count_totals(duo, plan)
    }
}

// The sweeps of an epoch in one run of planes: the last one counts the bonds.
#[tactic(auto, unfolding(scalar_rule::specs::Epoch::swept_slot))]
fn total_in_last_sweep<R: Threads + Sync>(rt: &R, duo: &mut Duo, plan: &Plan, slot: u32) -> Totals
    requires duo { FitsDuo plan.now.size duo.old }
    requires slot { slot < slots_of plan.now }
    ensures swept { (b : ℕ) → b < 64 → part_slot plan.now.size b duo.new
        ≡ model.swept_slot plan.now b slot (part_slot plan.now.size b duo.old) }
    ensures fits { FitsDuo plan.now.size duo.new }
    ensures totals { AreTotals plan.now duo.new result }
{
    let _ = plan.lattice();
    let before = plan.sweeps() - 1;
    sweep_duo_often(rt, duo, plan, slot, 1, before);
    let (first, second) = sweep_duo_and_count(duo, plan, slot);
    Totals { first, second }
}

/// The sweeps of an epoch of both replicas of a slot.
#[tactic(auto, unfolding(scalar_rule::specs::Epoch::swept_slot))]
pub fn sweep_slot<R: Threads + Sync>(rt: &R, duo: &mut Duo, plan: &Plan, slot: u32, pieces: u32)
    requires duo { FitsDuo plan.now.size duo.old }
    requires slot { slot < slots_of plan.now }
    requires some_pieces { 1 ≤ pieces }
    requires few_pieces { pieces ≤ 16 }
    ensures swept { (b : ℕ) → b < 64 → part_slot plan.now.size b duo.new
        ≡ model.swept_slot plan.now b slot (part_slot plan.now.size b duo.old) }
    ensures fits { FitsDuo plan.now.size duo.new }
{
    let count = plan.sweeps();
    sweep_duo_often(rt, duo, plan, slot, pieces, count);
}
