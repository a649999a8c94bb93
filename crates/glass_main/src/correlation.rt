//! The command `lines`: the link overlaps and correlation lines of the state that a checkpoint holds.

ghost use Rattle.std.specs.Prelude.{◌≡◌, option_map, Some, IfOk, IfErr};
ghost use Rattle.plane_sweep.specs.Packed.{StandFits};
ghost use Rattle.run_plan.specs.RunFile.{AreLawfulOrders};
ghost use Rattle.glass_main.specs.CheckpointBytes.{HasBytes};
ghost use Rattle.command_words.specs.CommandLine as commands;
ghost use Rattle.glass_main.specs.Endings.{IsOfOneEpoch, IsReachedSaved};
ghost use Rattle.glass_main.specs.Gathers.{Fetches, Gathers};
ghost use Rattle.glass_main.specs.Outside.{output, store};
ghost use Rattle.command_words.specs.ReadCommand.{read_lines_order};
ghost use Rattle.glass_main.specs.Request as model;
ghost use Rattle.glass_main.specs.Statuses.{Ends, IfRefused};

use crate::ending::Ending;
use crate::gathering::{gather_bytes, gather_plan};
use crate::refusal::Refusal;
use crate::role::Role;
use crate::saved_state::SavedState;
use command_words::LinesOrder;
use glass_edges::{Shelf, Sink};
use overlap_lines::write_lines;
use plane_sweep::Stand;
use run_checkpoint::{CheckpointRefused, decode};
use scalar_rule::Plan;
use spin_model::LAST_EPOCH;
use std::alloc::Global;

/// Reads the run file and the checkpoint of an order, and prints the sums of its state.
pub(crate) fn correlation_lines<H: Shelf, O: Sink>(
    alloc: Global,
    shelf: &mut H,
    out: &mut O,
    order: &LinesOrder<'_>,
) -> Ending
    ensures ends { Ends (Some (commands.Lines (read_lines_order order.now))) result
        (store H.Shelf shelf.old) (store H.Shelf shelf.new)
        (output O.Sink out.old) (output O.Sink out.new) }
    ensures bytes { result ≡ Ending.Done → HasBytes (H.holds shelf.old) order.now.checkpoint.now }
{
    let saved = match gather_saved(alloc, shelf, order) {
        Ok(saved) => saved,
        Err(ending) => return ending,
    };
    let plan = &saved.planned.plan;
    match write_lines(&saved.base, plan, saved.planned.orders.samples, out) {
        Ok(()) => Ending::Done,
        Err(_) => Ending::Unwritten,
    }
}

// Reads the run file of an order and what it names, and then the checkpoint.
#[tactic(auto, unfolding(crate::specs::Request::saved_at))]
fn gather_saved<H: Shelf>(
    alloc: Global,
    shelf: &mut H,
    order: &LinesOrder<'_>,
) -> Result<SavedState, Ending>
    ensures asked { Gathers (option_map (model.saved_at (read_lines_order order.now)) (H.holds shelf.old))
        (IsReachedSaved order.now.run.now (H.holds shelf.old)) result
        (store H.Shelf shelf.old) (store H.Shelf shelf.new) }
    ensures level { IfErr result (λ ending. IfRefused ending IsOfOneEpoch) }
    ensures orders { IfOk result (λ saved. AreLawfulOrders saved.planned.orders) }
    ensures fits { IfOk result (λ saved. StandFits saved.planned.plan saved.base) }
    ensures bytes { IfOk result (λ saved. HasBytes (H.holds shelf.old) order.now.checkpoint.now) }
{
    let planned = gather_plan(alloc, shelf, order.run)?;
    let base = gather_stand(alloc, shelf, &planned.plan, order.checkpoint)?;
    Ok(SavedState { planned, base })
}

// Reads the checkpoint of a name, whose slots are all at one epoch.
#[tactic(auto, unfolding(crate::specs::Request::stand_at))]
fn gather_stand<H: Shelf>(
    alloc: Global,
    shelf: &mut H,
    plan: &Plan,
    name: &str,
) -> Result<Stand, Ending>
    ensures asked { Gathers (option_map (model.stand_at plan.now name.now) (H.holds shelf.old))
        (Fetches Role.Checkpoint) result (store H.Shelf shelf.old) (store H.Shelf shelf.new) }
    ensures level { IfErr result (λ ending. IfRefused ending IsOfOneEpoch) }
    ensures fits { IfOk result (StandFits plan.now) }
    ensures bytes { IfOk result (λ base. HasBytes (H.holds shelf.old) name.now) }
{
    let bytes = gather_bytes(alloc, shelf, Role::Checkpoint, name)?;
    match decode(alloc, plan, LAST_EPOCH, bytes.as_slice()) {
        Ok(base) => Ok(base),
        Err(CheckpointRefused::NoMemory) => Err(Ending::NoMemory),
        Err(refused) => Err(Ending::Refused(Refusal::Checkpoint(refused))),
    }
}
