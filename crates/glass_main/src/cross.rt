//! The command `cross`: the overlaps of each two of the four copies that two saved states have.

ghost use Rattle.std.specs.Prelude.{◌≡◌, Some, IfOk};
ghost use Rattle.command_words.specs.CommandLine as commands;
ghost use Rattle.command_words.specs.ReadCross.{read_cross_order, IsLawfulCross};
ghost use Rattle.glass_edges.specs.Writes.{Writes};
ghost use Rattle.glass_main.specs.CheckpointBytes.{HasBytes};
ghost use Rattle.glass_main.specs.CrossRun.{crossed_text};
ghost use Rattle.glass_main.specs.CrossedPlans.{crossed_of, HasRoomFor, KeepsCrossed};
ghost use Rattle.glass_main.specs.Outside.{output, store};
ghost use Rattle.glass_main.specs.Statuses.{Ends};

use crate::crossed_states::{Crossed, gather_crossed};
use crate::ending::Ending;
use command_words::CrossOrder;
use copies_report::{CopiesHead, CopiesRoom, write_copies};
use glass_edges::{Fault, NoMemory, Shelf, Sink};
use report_text::kind_word;
use scalar_rule::Plan;
use std::alloc::Global;
use std::sync::Arc;

/// Reads the run file and both checkpoints of an order, and prints the overlaps.
pub(crate) fn cross<H: Shelf, O: Sink>(
    alloc: Global,
    shelf: &mut H,
    out: &mut O,
    order: &CrossOrder<'_>,
) -> Ending
    requires order { IsLawfulCross order.now }
    ensures ends { Ends (Some (commands.Cross (read_cross_order order.now))) result
        (store H.Shelf shelf.old) (store H.Shelf shelf.new)
        (output O.Sink out.old) (output O.Sink out.new) }
    ensures bytes { result ≡ Ending.Done
        → HasBytes (H.holds shelf.old) order.now.first.now × HasBytes (H.holds shelf.old) order.now.second.now }
{
    let crossed = match gather_crossed(alloc, shelf, order) {
        Ok(crossed) => crossed,
        Err(ending) => return ending,
    };
    let mut room = match room_for(alloc, &crossed) {
        Ok(room) => room,
        Err(NoMemory) => return Ending::NoMemory,
    };
    match put_copies(out, &crossed, &mut room) {
        Ok(()) => Ending::Done,
        Err(_) => Ending::Unwritten,
    }
}

// Room for the sums of the slots of both states.
fn room_for(alloc: Global, crossed: &Crossed) -> Result<CopiesRoom, NoMemory>
    requires kept { KeepsCrossed (crossed_of crossed.now) }
    ensures { IfOk result (HasRoomFor (crossed_of crossed.now)) }
{
    let plan: &Plan = &crossed.plans[0];
    CopiesRoom::none(alloc, plan.slots())
}

// Puts the text.
fn put_copies<O: Sink>(out: &mut O, crossed: &Crossed, room: &mut CopiesRoom) -> Result<(), Fault>
    requires kept { KeepsCrossed (crossed_of crossed.now) }
    requires room { HasRoomFor (crossed_of crossed.now) room.old }
    ensures { Writes O.Sink out.old out.new (crossed_text (crossed_of crossed.now)) result }
{
    let plans: &[Arc<Plan, Global>] = &crossed.plans;
    let plan: &Plan = &plans[0];
    let head = CopiesHead {
        lattice: plan.lattice(),
        slots: plan.slots(),
        samples: crossed.orders.samples,
        rule: kind_word(plan.rules().kind()),
        first_seed: plan.seed(),
        second_seed: crossed.seed,
        first_epoch: crossed.first.at(0).epoch,
        second_epoch: crossed.second.at(0).epoch,
    };
    let first = crossed.first.as_slice();
    let second = crossed.second.as_slice();
    write_copies(out, &head, first, second, room)
}
