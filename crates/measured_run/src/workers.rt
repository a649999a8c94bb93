//! The workers of an epoch, one a room: each sweeps and measures slots that follow each other.

ghost use Rattle.std.specs.Prelude.{◌+◌, ◌<◌, ◌≤◌, All, length};
ghost use Rattle.std.specs.Thread.{IsSync};
ghost use Rattle.measured_run.specs.Cells.{AreSwept, CanSweep};
ghost use Rattle.scalar_rule.specs.Plan.{slots_of};

use crate::cell::Cell;
use crate::step::Step;
use crate::sweeping::sweep_part;
use glass_edges::Gate;
use plane_sums::MeasuringRoom;
use std::sync::Wait;
use std::thread::{Threads, join_mut};

/// The sweeps of an epoch in slots of a bank that follow each other, of which `first` is the first, with one
/// worker for each room. Each room but the last has a thread that is started here; where one can't be started,
/// the caller works in its place. Takes no memory.
#[cycle(rooms)]
pub(crate) fn sweep_all<R: Threads + Wait + Sync, G: Gate + Sync>(
    rt: &R,
    gate: &G,
    step: &Step,
    first: u32,
    cells: &mut [Cell],
    rooms: &mut [MeasuringRoom],
)
    requires within { first + length cells.old ≤ slots_of step.now.plan.now }
    requires can { All (CanSweep step.now.plan.now step.now.epoch) cells.old }
    requires rooms { 0 < length rooms.old }
    ensures { AreSwept step.now.plan.now step.now.every step.now.epoch first cells.old cells.new }
{
    if rooms.len() < 2 {
        sweep_part(rt, gate, step, first, cells, &mut rooms[0]);
        return;
    }
    // The share of the first worker.
    let count = cells.len() / rooms.len();
    let (front, back) = cells.split_at_mut(count);
    let (room, others) = rooms.split_at_mut(1);
    both(rt, gate, step, first, front, back, room, others);
}

// Apart from `sweep_all`, so that what the closures require is what this function is given.
#[cycle(rooms)]
fn both<R: Threads + Wait + Sync, G: Gate + Sync>(
    rt: &R,
    gate: &G,
    step: &Step,
    first: u32,
    front: &mut [Cell],
    back: &mut [Cell],
    room: &mut [MeasuringRoom],
    rooms: &mut [MeasuringRoom],
)
    requires some { (0 < length room.old) × (0 < length rooms.old) }
    requires within { first + length front.old + length back.old ≤ slots_of step.now.plan.now }
    requires front { All (CanSweep step.now.plan.now step.now.epoch) front.old }
    requires back { All (CanSweep step.now.plan.now step.now.epoch) back.old }
    ensures front { AreSwept step.now.plan.now step.now.every step.now.epoch first front.old front.new }
    ensures back { AreSwept step.now.plan.now step.now.every step.now.epoch (first + length front.old) back.old back.new }
{
    // A plan has few slots.
    let _ = step.plan.slots();
    let middle = first + front.len() as u32;
    join_mut(
        rt,
        &mut ||
            requires { IsSync R.row × IsSync G.row
                × (first + length front.now ≤ slots_of step.now.plan.now) × (0 < length room.now)
                × All (CanSweep step.now.plan.now step.now.epoch) front.now }
            ensures { AreSwept step.entry.now.plan.now step.entry.now.every step.entry.now.epoch first front.entry.now front.exit.now }
        { sweep_all(rt, gate, step, first, front, room) },
        &mut ||
            requires { IsSync R.row × IsSync G.row
                × (middle + length back.now ≤ slots_of step.now.plan.now) × (0 < length rooms.now)
                × All (CanSweep step.now.plan.now step.now.epoch) back.now }
            ensures { AreSwept step.entry.now.plan.now step.entry.now.every step.entry.now.epoch middle back.entry.now back.exit.now }
        { sweep_all(rt, gate, step, middle, back, rooms) },
    );
}
