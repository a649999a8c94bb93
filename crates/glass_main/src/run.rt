//! The command `run`: the run that a run file, its tables and its couplings describe, from their opening
//! state or from a checkpoint, to its last epoch or until it stops, its report, and its own checkpoint.

ghost use Rattle.std.specs.Prelude.{◌≡◌, ◌≤◌, None, Some, Ok, IfSome, IfOk, IfErr, option_map, unwrap_or};
ghost use Rattle.spin_model.specs.Limits.{every_take, last_epoch, most_rows};
ghost use Rattle.plane_sweep.specs.Uneven.{positions_of};
ghost use Rattle.run_plan.specs.Amounts.{amount_refusal, row_count};
ghost use Rattle.run_plan.specs.RunFile.{AreLawfulOrders};
ghost use Rattle.scalar_rule.specs.Positions.{floor_of};
ghost use Rattle.glass_main.specs.Beginnings.{Beginning, begins_at};
ghost use Rattle.glass_main.specs.CheckpointBytes.{ResumesBytes};
ghost use Rattle.command_words.specs.CommandLine as commands;
ghost use Rattle.glass_main.specs.Opened.{takes_of, saves_as, IsOpened, IsUnopened};
ghost use Rattle.glass_main.specs.Outside.{output, store};
ghost use Rattle.command_words.specs.ReadCommand.{name_bytes, read_run_order, IsLawfulOrder};
ghost use Rattle.glass_main.specs.Request as model;
ghost use Rattle.glass_main.specs.Resumes.{IsResumable};
ghost use Rattle.glass_main.specs.Statuses.{Ends};

use crate::asked::Asked;
use crate::bank_gathering::gather_plans;
use crate::bank_run::run_banks;
use crate::ending::Ending;
use crate::finishing::{Opened, alone, finish};
use crate::planned::Planned;
use crate::plans::Plans;
use crate::refusal::Refusal;
use crate::resuming::gather_base;
use crate::sheets::sheets_of;
use command_words::RunOrder;
use glass_edges::{Gate, NoMemory, Shelf, Sink};
use glass_engine::{
    SaveKind, level_checkpoint_is_serial, level_report_is_serial, open, unstopped_run_is_whole,
    whole_checkpoint_is_the_rules,
};
use plane_sweep::RaggedStand;
use run_plan::{Orders, check_amount};
use scalar_rule::Plan;
use spin_model::EVERY_TAKE;
use std::alloc::Global;
use std::sync::{Arc, Wait};
use std::thread::Threads;

/// Reads the run file of an order and what it names, and its checkpoint; runs it, prints the report, and
/// places its own checkpoint. A run that may stop between epochs has one bank of 64 samples.
pub(crate) fn run<R: Threads + Wait + Sync, H: Shelf, O: Sink, G: Gate + Sync>(
    rt: &R,
    alloc: Global,
    shelf: &mut H,
    out: &mut O,
    gate: &G,
    order: &RunOrder<'_>,
) -> Ending
    requires { IsLawfulOrder order.now }
    ensures ends { Ends (Some (commands.Run (read_run_order order.now))) result
        (store H.Shelf shelf.old) (store H.Shelf shelf.new)
        (output O.Sink out.old) (output O.Sink out.new) }
    ensures bytes { result ≡ Ending.Done → ResumesBytes (name_bytes order.now.from) (H.holds shelf.old) }
{
    let plans = match gather_plans(alloc, shelf, order.run, has_banks(order)) {
        Ok(plans) => plans,
        Err(ending) => return ending,
    };
    let order = *order;
    match plans {
        Plans::One(planned) => run_one(rt, alloc, shelf, out, gate, Asked { order, planned }),
        Plans::Banks(planned) => run_banks(rt, alloc, shelf, out, gate, Asked { order, planned }),
    }
}

// Whether a run may have several banks.
fn has_banks(order: &RunOrder<'_>) -> bool
    ensures { result ≡ model.has_banks order.now.stop_after }
{
    order.stop_after.is_none()
}

// Reads the checkpoint of a run whose run file and what it names are read, of one bank; runs it, prints
// the report, and places its own checkpoint.
fn run_one<R: Threads + Wait + Sync, H: Shelf, O: Sink, G: Gate + Sync>(
    rt: &R,
    alloc: Global,
    shelf: &mut H,
    out: &mut O,
    gate: &G,
    asked: Asked<'_, Planned>,
) -> Ending
    requires order { IsLawfulOrder asked.order }
    requires orders { AreLawfulOrders asked.planned.orders }
    requires planned { IfSome (option_map (model.plans_at (model.has_banks asked.order.stop_after) asked.order.run.now)
        (H.holds shelf.old)) (λ said. said ≡ Ok (Plans.One asked.planned)) }
    ensures ends { Ends (Some (commands.Run (read_run_order asked.entry.order))) result
        (store H.Shelf shelf.old) (store H.Shelf shelf.new)
        (output O.Sink out.old) (output O.Sink out.new) }
    ensures bytes { result ≡ Ending.Done → ResumesBytes (name_bytes asked.entry.order.from) (H.holds shelf.old) }
{
    // The report and the checkpoint of a run that isn't to stop are those of the rule at its last epoch, and
    // from states at one epoch those of the serial dynamics.
    unstopped_run_is_whole();
    level_report_is_serial();
    whole_checkpoint_is_the_rules();
    level_checkpoint_is_serial();
    let Asked { order, planned } = asked;
    let until = until_of(order.until, &planned.orders);
    let base = match gather_base(alloc, shelf, &planned, until, order.from) {
        Ok(base) => base,
        Err(ending) => return ending,
    };
    let opened = match open_run(alloc, planned, base, until, &order) {
        Ok(opened) => opened,
        Err(ending) => return ending,
    };
    finish(rt, shelf, out, gate, opened, &order)
}

/// The epoch at which a run ends: what the words said of it, or that of the run file.
pub(crate) fn until_of(said: Option<u64>, orders: &Orders) -> u64
    requires said { IfSome said (λ e. e ≤ last_epoch) }
    requires epochs { orders.now.epochs ≤ last_epoch }
    ensures value { result ≡ unwrap_or said orders.now.epochs }
    ensures within { result ≤ last_epoch }
{
    said.unwrap_or(orders.epochs)
}

// Opens a run from a state, unless it would print too much.
fn open_run(
    alloc: Global,
    planned: Planned,
    base: RaggedStand,
    until: u64,
    order: &RunOrder<'_>,
) -> Result<Opened, Ending>
    requires orders { AreLawfulOrders planned.orders }
    requires base { IsResumable planned until base }
    requires until { until ≤ last_epoch }
    requires order { IsLawfulOrder order.now }
    ensures accepted { IfOk result (λ opened. amount_refusal planned.plan planned.orders (floor_of (positions_of base)) until ≡ None) }
    ensures opened { IfOk result (IsOpened planned base until order.now.stop_after (name_bytes order.now.save)) }
    ensures stopped { (from : Beginning) → begins_at from ≡ floor_of (positions_of base)
        → IfErr result (IsUnopened (model.run_work order.now.stop_after planned until from)) }
{
    let from = floor_of(&planned, &base, until);
    if let Err(refused) = check_amount(&planned.plan, &planned.orders, from, until) {
        return Err(Ending::Refused(Refusal::Plan(refused)));
    }
    match open_planned(alloc, planned, base, from, until, order) {
        Ok(opened) => Ok(opened),
        Err(_) => Err(Ending::NoMemory),
    }
}

// The least epoch that all slots have completed.
fn floor_of(planned: &Planned, base: &RaggedStand, until: u64) -> u64
    requires base { IsResumable planned.now until base.now }
    requires until { until ≤ last_epoch }
    ensures value { result ≡ floor_of (positions_of base.now) }
    ensures within { result ≤ until }
{
    // A plan has a slot.
    let _ = planned.plan.slots();
    base.floor()
}

// Opens a run from a state; the room of its sheets alone depends on the epoch from which it is said to print.
fn open_planned(
    alloc: Global,
    planned: Planned,
    base: RaggedStand,
    from: u64,
    until: u64,
    order: &RunOrder<'_>,
) -> Result<Opened, NoMemory>
    requires orders { AreLawfulOrders planned.orders }
    requires base { IsResumable planned until base }
    requires window { from ≤ until }
    requires until { until ≤ last_epoch }
    requires rows { row_count planned.plan planned.orders (floor_of (positions_of base)) until ≤ most_rows }
    requires order { IsLawfulOrder order.now }
    ensures { IfOk result (IsOpened planned base until order.now.stop_after (name_bytes order.now.save)) }
{
    let sheets = sheets_of(alloc, order, &planned.plan, &planned.orders, from, until)?;
    let plan = Arc::new(alloc, planned.plan)?;
    let run = open(
        alloc,
        &plan,
        &planned.orders,
        base,
        until,
        takes_of(order),
        order.workers,
        kind_of(order),
    )?;
    let plans = alone(alloc, plan)?;
    Ok(Opened { plans, run, sheets })
}

// How many hand-outs of a slot the run makes at most.
fn takes_of(order: &RunOrder<'_>) -> u64
    requires { IsLawfulOrder order.now }
    ensures value { result ≡ takes_of order.now.stop_after }
    ensures within { result ≤ every_take }
{
    order.stop_after.unwrap_or(EVERY_TAKE)
}

// Which checkpoint the run saves.
fn kind_of(order: &RunOrder<'_>) -> SaveKind
    ensures { result ≡ saves_as order.now.stop_after (name_bytes order.now.save) }
{
    match (order.stop_after, order.save) {
        (_, None) => SaveKind::Never,
        (None, Some(_)) => SaveKind::Level,
        (Some(_), Some(_)) => SaveKind::Ragged,
    }
}
