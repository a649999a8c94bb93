//! The command `demo`: a large run whose plan is made from a number, and its summary.

ghost use Rattle.std.specs.Prelude.{◌≡◌, ◌≤◌, map, Some, IfOk};
ghost use Rattle.std.specs.Arc.{arc_value};
ghost use Rattle.glass_edges.specs.Writes.{Writes};
ghost use Rattle.spin_model.specs.Limits.{greatest_demo};
ghost use Rattle.run_plan.specs.DemoPlan.{demo_plan};
ghost use Rattle.scalar_rule.specs.Opening.{opening};
ghost use Rattle.scalar_rule.specs.declared.sample.Start.TheVariants.{Random};
ghost use Rattle.command_words.specs.CommandLine as commands;
ghost use Rattle.glass_engine.specs.BankRuns.{plans_of};
ghost use Rattle.glass_engine.specs.Summary.{IsSummed};
ghost use Rattle.glass_main.specs.Outside.{output, store};
ghost use Rattle.glass_main.specs.Statuses.{Ends};
ghost use Rattle.glass_main.specs.Texts.{demo_text};

use crate::ending::Ending;
use crate::finishing::{Opened, alone};
use glass_edges::{Fault, Gate, NoMemory, Shelf, Sink};
use glass_engine::{SaveKind, drive, open, write_summary};
use plane_sweep::{RaggedStand, Stand};
use report_sheets::Sheets;
use run_plan::demo_plan;
use scalar_rule::Plan;
use spin_model::EVERY_TAKE;
use std::alloc::Global;
use std::sync::{Arc, Wait};
use std::thread::Threads;

const WORKERS: u32 = 4;

/// So many pieces the planes of a sweep are cut into.
const PIECES: u32 = 2;

/// Runs the plan that is made from a number, and prints the summary of its last epoch.
pub(crate) fn demo<R: Threads + Wait + Sync, H: Shelf, O: Sink, G: Gate + Sync>(
    rt: &R,
    alloc: Global,
    _shelf: &mut H,
    out: &mut O,
    gate: &G,
    n: u64,
) -> Ending
    requires { n ≤ greatest_demo }
    ensures ends { Ends (Some (commands.Demo n)) result
        (store H.Shelf _shelf.old) (store H.Shelf _shelf.new)
        (output O.Sink out.old) (output O.Sink out.new) }
    ensures untouched { _shelf.new ≡ _shelf.old }
{
    let opened = match open_demo(alloc, n) {
        Ok(opened) => opened,
        Err(_) => return Ending::NoMemory,
    };
    match put_demo(rt, out, gate, opened, n) {
        Ok(()) => Ending::Done,
        Err(_) => Ending::Unwritten,
    }
}

// Opens the run of a number, from random spins; no checkpoint of it is saved.
fn open_demo(alloc: Global, n: u64) -> Result<Opened, NoMemory>
    requires { n ≤ greatest_demo }
    ensures share { IfOk result (λ opened. map arc_value opened.plans.items ≡ plans_of opened.run) }
    ensures run { IfOk result (λ opened. IsSummed (demo_plan n) (opening (demo_plan n) Random 0) 16 opened.run) }
{
    let (plan, orders) = demo_plan(alloc, n)?;
    let stand = Stand::opening(alloc, &plan, orders.start)?;
    let base = RaggedStand::level(alloc, stand)?;
    let plan = Arc::new(alloc, plan)?;
    let run = open(
        alloc,
        &plan,
        &orders,
        base,
        orders.epochs,
        EVERY_TAKE,
        WORKERS,
        SaveKind::Never,
    )?;
    // A summary has no rows.
    let sheets = Sheets::none(alloc);
    let plans = alone(alloc, plan)?;
    Ok(Opened { plans, run, sheets })
}

// Drives the run of a number to its end, and prints its summary.
fn put_demo<R: Threads + Wait + Sync, O: Sink, G: Gate + Sync>(
    rt: &R,
    out: &mut O,
    gate: &G,
    opened: Opened,
    n: u64,
) -> Result<(), Fault>
    requires plans { map arc_value opened.plans.items ≡ plans_of opened.run }
    requires run { IsSummed (demo_plan n) (opening (demo_plan n) Random 0) 16 opened.run }
    ensures { Writes O.Sink out.old out.new (demo_text n) result }
{
    let Opened { plans, run, .. } = opened;
    let plans: &[Arc<Plan, Global>] = &plans;
    let done = drive(rt, run, plans, PIECES, gate);
    write_summary(&done, &plans[0], n, out)
}
