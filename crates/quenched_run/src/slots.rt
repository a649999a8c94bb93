//! The sweeps of slots.

ghost use Rattle.std.specs.Prelude.{◌≡◌, ◌<◌, ◌≤◌, All, length};
ghost use Rattle.plane_sweep.specs.Packed.{FitsDuo};
ghost use Rattle.plane_sweep.specs.Storing.{Changed};
ghost use Rattle.quenched_run.specs.Steps.{IsStillSlot};
ghost use Rattle.scalar_rule.specs.Plan.{slots_of};

use plane_sweep::{Duo, sweep_duo_often};
use scalar_rule::Plan;
use std::thread;
use std::thread::Threads;

/// So many epochs are swept by one call at most: an epoch has at most 1000000 sweeps, and a call counts them in
/// 32 bits.
const MOST_EPOCHS: u64 = 4000;

/// The sweeps of so many epochs in all slots of a bank. Each worker has slots that follow each other.
pub(crate) fn sweep_slots<R: Threads + Sync>(
    rt: &R,
    slots: &mut [Duo],
    plan: &Plan,
    epochs: u64,
    workers: u32,
    pieces: u32,
)
    requires count { length slots.old ≡ slots_of plan.now }
    requires fit { All (FitsDuo plan.now.size) slots.old }
    requires some_workers { 1 ≤ workers }
    requires some_pieces { 1 ≤ pieces }
    requires few_pieces { pieces ≤ 16 }
    ensures { Changed (IsStillSlot plan.now epochs) (slots_of plan.now) slots.old slots.new }
{
    thread::for_each_mut(
        rt,
        slots,
        workers as usize,
        &|t, duo| -> ()
            requires { (t < slots_of plan.now) × FitsDuo plan.now.size duo.now × (1 ≤ pieces) × (pieces ≤ 16) }
            ensures { IsStillSlot plan.entry.now epochs t duo.entry.now duo.exit.now }
        { sweep_slot(rt, duo, plan, t, pieces, epochs) },
    );
}

// The sweeps of so many epochs in both replicas of a slot.
fn sweep_slot<R: Threads + Sync>(
    rt: &R,
    duo: &mut Duo,
    plan: &Plan,
    slot: usize,
    pieces: u32,
    epochs: u64,
)
    requires duo { FitsDuo plan.now.size duo.old }
    requires slot { slot < slots_of plan.now }
    requires some_pieces { 1 ≤ pieces }
    requires few_pieces { pieces ≤ 16 }
    ensures { IsStillSlot plan.now epochs slot duo.old duo.new }
{
    // A plan has few slots.
    let _ = plan.slots();
    let slot = slot as u32;
    let rest = (epochs % MOST_EPOCHS) as u32;
    sweep_epochs(rt, duo, plan, slot, pieces, rest);
    'calls: for k in 0..epochs / MOST_EPOCHS {
        sweep_epochs(rt, duo, plan, slot, pieces, MOST_EPOCHS as u32);
    }
}

// Those of so few epochs that one call sweeps them.
#[tactic(auto, unfolding(quenched_states::specs::StillRule::still_slot))]
fn sweep_epochs<R: Threads + Sync>(
    rt: &R,
    duo: &mut Duo,
    plan: &Plan,
    slot: u32,
    pieces: u32,
    epochs: u32,
)
    requires duo { FitsDuo plan.now.size duo.old }
    requires slot { slot < slots_of plan.now }
    requires some_pieces { 1 ≤ pieces }
    requires few_pieces { pieces ≤ 16 }
    requires few { epochs ≤ MOST_EPOCHS }
    ensures { IsStillSlot plan.now epochs slot duo.old duo.new }
{
    let _ = plan.slots();
    let count = plan.sweeps() * epochs;
    sweep_duo_often(rt, duo, plan, slot, pieces, count);
}
