//! The sweeps of banks.

ghost use Rattle.std.specs.Arc.{arc_value};
ghost use Rattle.std.specs.Prelude.{◌≡◌, ◌≤◌, IfOk, map};
ghost use Rattle.plane_sweep.specs.Packed.{StandFits};
ghost use Rattle.quenched_run.specs.Quenches.{AreInTime};
ghost use Rattle.quenched_run.specs.Steps.{AreStill, CanSweep, IsStill, IsStillBank};
ghost use Rattle.spin_model.specs.Limits.{last_epoch};

use crate::quench::Quench;
use crate::slots::sweep_slots;
use glass_edges::NoMemory;
use plain_list::Items;
use plane_sweep::Stand;
use scalar_rule::Plan;
use std::alloc::Global;
use std::thread;
use std::thread::Threads;

/// Takes banks to an epoch, by sweeps without exchange. The workers share the slots of a bank, and where there
/// are more workers than slots, more than one bank has its turn at a time. Takes no memory.
pub(crate) fn sweep_banks<R: Threads + Sync>(
    rt: &R,
    quench: &Quench,
    banks: &mut [Stand],
    time: u64,
)
    requires fit { AreInTime (map arc_value quench.now.plans.now) time banks.old }
    requires time { time ≤ last_epoch }
    ensures { AreStill (map arc_value quench.now.plans.now) time banks.old banks.new }
{
    let slots = quench.plans[0].slots();
    let beside = (quench.workers / slots).max(1);
    thread::for_each_mut(
        rt,
        banks,
        beside as usize,
        &|bank, stand| -> ()
            requires { CanSweep (map arc_value quench.now.plans.now) time bank stand.now × (time ≤ last_epoch) }
            ensures { IsStillBank (map arc_value quench.entry.now.plans.now) time bank stand.entry.now stand.exit.now }
        { sweep_one(rt, quench, stand, bank, time) },
    );
}

// Takes one of the banks to an epoch, by its plan.
fn sweep_one<R: Threads + Sync>(rt: &R, quench: &Quench, stand: &mut Stand, bank: usize, time: u64)
    requires can { CanSweep (map arc_value quench.now.plans.now) time bank stand.old }
    requires time { time ≤ last_epoch }
    ensures { IsStillBank (map arc_value quench.now.plans.now) time bank stand.old stand.new }
{
    let plan = &quench.plans[bank];
    sweep_bank(rt, stand, plan, time, quench.workers, quench.pieces);
}

// Takes a bank to an epoch.
fn sweep_bank<R: Threads + Sync>(
    rt: &R,
    stand: &mut Stand,
    plan: &Plan,
    time: u64,
    workers: u32,
    pieces: u32,
)
    requires fits { StandFits plan.now stand.old }
    requires in_time { stand.old.epoch ≤ time }
    requires time { time ≤ last_epoch }
    requires some_workers { 1 ≤ workers }
    requires some_pieces { 1 ≤ pieces }
    requires few_pieces { pieces ≤ 16 }
    ensures { IsStill plan.now time stand.old stand.new }
{
    let epochs = time - stand.epoch;
    let slots = stand.slots.as_mut_slice();
    sweep_slots(rt, slots, plan, epochs, workers, pieces);
    stand.epoch = time;
}

/// Equal banks.
pub(crate) fn copied_banks(alloc: Global, banks: &Items<Stand>) -> Result<Items<Stand>, NoMemory>
    ensures { IfOk result (λ copies. copies ≡ banks.now) }
{
    let mut copies = Vec::with_capacity(alloc, banks.len())?;
    'banks: for g in 0..banks.len() {
        copies.push(banks.at(g).copy(alloc)?)?;
    }
    Ok(Items::of(copies))
}
