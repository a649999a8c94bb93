//! The sweeps of an epoch.

ghost use Rattle.std.specs.Prelude.{◌+◌, ◌≤◌, All, length};
ghost use Rattle.measured_run.specs.Cells.{AreSwept, CanSweep};
ghost use Rattle.scalar_rule.specs.Plan.{slots_of};

use crate::cell::Cell;
use crate::step::Step;
use glass_edges::Gate;
use plane_sums::MeasuringRoom;
use std::thread::Threads;

/// The sweeps of an epoch in slots of a bank that follow each other, of which `first` is the first, one after
/// the other. The hook is called for each before its sweeps.
pub(crate) fn sweep_part<R: Threads + Sync, G: Gate>(
    rt: &R,
    gate: &G,
    step: &Step,
    first: u32,
    cells: &mut [Cell],
    room: &mut MeasuringRoom,
)
    requires within { first + length cells.old ≤ slots_of step.now.plan.now }
    requires can { All (CanSweep step.now.plan.now step.now.epoch) cells.old }
    ensures { AreSwept step.now.plan.now step.now.every step.now.epoch first cells.old cells.new }
{
    // A plan has few slots.
    let _ = step.plan.slots();
    'slots: for t in 0..cells.len() {
        let slot = first + t as u32;
        gate.enter(slot, step.epoch);
        cells[t].sweep(rt, step, slot, room);
    }
}
