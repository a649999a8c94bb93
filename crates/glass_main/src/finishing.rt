//! The end of a run: it is driven, its report printed, and its checkpoint placed.

ghost use Rattle.std.specs.Prelude.{◌≡◌, ◌≢◌, ◌≤◌, [], ◌∷◌, map, All, Some, None, Ok, IfOk, OnOk, OnErr};
ghost use Rattle.std.specs.Arc.{arc_value};
ghost use Rattle.glass_edges.specs.Causes.{HasCause};
ghost use Rattle.glass_engine.specs.BankRuns.{plans_of, runs_of};
ghost use Rattle.glass_engine.specs.Runs.{DoneView};
ghost use Rattle.glass_engine.specs.Saves.{end_checkpoint};
ghost use Rattle.glass_engine.specs.declared.run.SaveKind.TheVariants as saves;
ghost use Rattle.glass_main.specs.Opened.{AreReady, AreRunsOf, IsOfOpenRun};
ghost use Rattle.glass_main.specs.Outside.{output, store};
ghost use Rattle.command_words.specs.ReadCommand.{name_bytes, IsLawfulOrder};
ghost use Rattle.glass_main.specs.Request.{Work};
ghost use Rattle.glass_main.specs.Statuses.{Printed, Saved, Unsought, Unplaced, Kept, Wrote};

use crate::ending::Ending;
use command_words::RunOrder;
use glass_edges::{Fault, Gate, NoMemory, Shelf, Sink};
use glass_engine::{Done, Run, drive, print_report, save};
use report_sheets::Sheets;
use scalar_rule::Plan;
use std::alloc::Global;
use std::sync::{Arc, Wait};
use std::thread::Threads;

/// A run that was opened, the plans of its banks, and the sheets for the rows of its report.
#[derive(Drop)]
pub(crate) struct Opened {
    pub(crate) plans: Vec<Arc<Plan, Global>>,
    pub(crate) run: Run,
    pub(crate) sheets: Sheets,
}

/// The plans of a run of one bank.
pub(crate) fn alone(
    alloc: Global,
    plan: Arc<Plan, Global>,
) -> Result<Vec<Arc<Plan, Global>>, NoMemory>
    ensures { IfOk result (λ plans. plans.items ≡ plan ∷ []) }
{
    let mut plans = Vec::with_capacity(alloc, 1)?;
    plans.push(plan)?;
    Ok(plans)
}

/// Drives an open run to its end, prints its report, and places its checkpoint where one is asked for. It
/// is given no allocator, and does not end for lack of memory.
pub(crate) fn finish<R: Threads + Wait + Sync, H: Shelf, O: Sink, G: Gate + Sync>(
    rt: &R,
    shelf: &mut H,
    out: &mut O,
    gate: &G,
    opened: Opened,
    order: &RunOrder<'_>,
) -> Ending
    requires order { IsLawfulOrder order.now }
    requires ready { AreReady (name_bytes order.now.save) opened }
    ensures ending { IsOfOpenRun (name_bytes order.now.save) result }
    ensures out { Printed result (output O.Sink out.old) (output O.Sink out.new) }
    ensures files { Kept (name_bytes order.now.save) result
        (store H.Shelf shelf.old) (store H.Shelf shelf.new) }
    ensures wrote { (work : Work) → AreRunsOf (name_bytes order.now.save) work opened.run
        → Wrote (name_bytes order.now.save) (Some (Ok work)) result
        (store H.Shelf shelf.old) (store H.Shelf shelf.new)
        (output O.Sink out.old) (output O.Sink out.new) }
    ensures later { O.faults out.old ≤ O.faults out.new }
    ensures later_store { H.faults shelf.old ≤ H.faults shelf.new }
{
    let Opened {
        plans,
        run,
        mut sheets,
    } = opened;
    let mut done = drive(rt, run, &plans, order.pieces, gate);
    match print_report(rt, &mut sheets, &done, out) {
        Ok(()) => {}
        Err(_) => return Ending::Unwritten,
    }
    match save_run(&mut done, &plans, shelf, order) {
        Ok(()) => Ending::Done,
        Err(_) => Ending::Unsaved,
    }
}

// Places the checkpoint of a run at its end, where a name is given.
fn save_run<H: Shelf>(
    done: &mut Done,
    plans: &[Arc<Plan, Global>],
    shelf: &mut H,
    order: &RunOrder<'_>,
) -> Result<(), Fault>
    requires plans { map arc_value plans.now ≡ plans_of (runs_of done.old) }
    requires saved { name_bytes order.now.save ≢ None → All (λ (d : DoneView). d.run.saves ≢ saves.Never) done.old }
    ensures placed { OnOk result (Saved (name_bytes order.now.save) (end_checkpoint done.old)
        (store H.Shelf shelf.old) (store H.Shelf shelf.new)) }
    ensures unsought { OnOk result (Unsought (name_bytes order.now.save)
        (store H.Shelf shelf.old) (store H.Shelf shelf.new)) }
    ensures others { OnErr result (Unplaced (name_bytes order.now.save)
        (store H.Shelf shelf.old) (store H.Shelf shelf.new)) }
    ensures named { OnErr result (name_bytes order.now.save ≢ None) }
    ensures cause { HasCause (H.faults shelf.old) (H.faults shelf.new) result }
{
    match order.save {
        None => Ok(()),
        Some(name) => save(done, plans, shelf, name),
    }
}
