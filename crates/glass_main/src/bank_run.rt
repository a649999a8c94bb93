//! A run of several banks of 64 samples: it is read, opened, and driven to its last epoch.

ghost use Rattle.std.specs.Prelude.{◌≡◌, ℕ, ◌*◌, ◌<◌, ◌≤◌, List, length, map, None, Some, Ok, IfSome, IfOk, IfErr, option_map};
ghost use Rattle.std.specs.Arc.{arc_value};
ghost use Rattle.glass_edges.specs.Refusals.{unless};
ghost use Rattle.spin_model.specs.Limits.{last_epoch, most_rows};
ghost use Rattle.glass_engine.specs.BankLaws.{BanksReportIsSerial, BanksCheckpointIsSerial};
ghost use Rattle.run_checkpoint.specs.BankEncoding.{BanksStand, HaveShape};
ghost use Rattle.scalar_rule.specs.Records.{recorded_epochs};
ghost use Rattle.scalar_rule.specs.declared.sample.Sample.{Sample};
ghost use Rattle.glass_main.specs.CheckpointBytes.{ResumesBytes};
ghost use Rattle.command_words.specs.CommandLine as commands;
ghost use Rattle.glass_main.specs.ManyBanks.{banks_amount_refusal, stands_at, starts_at};
ghost use Rattle.glass_main.specs.Opened.{saves_as, AreReady, AreRunsOf, IsUnopened};
ghost use Rattle.glass_main.specs.Outside.{output, store};
ghost use Rattle.command_words.specs.ReadCommand.{name_bytes, read_run_order, IsLawfulOrder};
ghost use Rattle.glass_main.specs.Request.{BanksWork, banks_work, plans_at, has_banks};
ghost use Rattle.glass_main.specs.Resumes.{AreResumable};
ghost use Rattle.glass_main.specs.Statuses.{Ends};

use crate::asked::Asked;
use crate::bank_resuming::gather_stands;
use crate::ending::Ending;
use crate::finishing::{Opened, finish};
use crate::plans::{PlannedBanks, Plans};
use crate::refusal::Refusal;
use crate::run::until_of;
use crate::sheets::sheets_of;
use command_words::RunOrder;
use glass_edges::{Gate, NoMemory, Shelf, Sink};
use glass_engine::{SaveKind, banks_checkpoint_is_serial, banks_report_is_serial, open_banks};
use plain_list::Items;
use plane_sweep::Stand;
use run_plan::{Orders, PlanRefused, check_amount};
use scalar_rule::Plan;
use std::alloc::Global;
use std::sync::{Arc, Wait};
use std::thread::Threads;

/// Reads the checkpoint of a run whose run file and what it names are read; runs the banks, prints
/// their one report, and places their one checkpoint.
pub(crate) fn run_banks<R: Threads + Wait + Sync, H: Shelf, O: Sink, G: Gate + Sync>(
    rt: &R,
    alloc: Global,
    shelf: &mut H,
    out: &mut O,
    gate: &G,
    asked: Asked<'_, PlannedBanks>,
) -> Ending
    requires order { IsLawfulOrder asked.order }
    requires planned { IfSome (option_map (plans_at (has_banks asked.order.stop_after) asked.order.run.now)
        (H.holds shelf.old)) (λ said. said ≡ Ok (Plans.Banks asked.planned)) }
    ensures ends { Ends (Some (commands.Run (read_run_order asked.entry.order))) result
        (store H.Shelf shelf.old) (store H.Shelf shelf.new)
        (output O.Sink out.old) (output O.Sink out.new) }
    ensures bytes { result ≡ Ending.Done → ResumesBytes (name_bytes asked.entry.order.from) (H.holds shelf.old) }
{
    // What the banks print and save is the serial dynamics'.
    banks_report_is_serial();
    banks_checkpoint_is_serial();
    let Asked { order, planned } = asked;
    let until = until_of(order.until, &planned.orders);
    let stands = match gather_stands(alloc, shelf, &planned, until, order.from) {
        Ok(stands) => stands,
        Err(ending) => return ending,
    };
    let opened = match open_run(alloc, planned, stands, until, &order) {
        Ok(opened) => opened,
        Err(ending) => return ending,
    };
    finish(rt, shelf, out, gate, opened, &order)
}

// Opens the banks from their states, unless they would print too much.
fn open_run(
    alloc: Global,
    planned: PlannedBanks,
    stands: Items<Stand>,
    until: u64,
    order: &RunOrder<'_>,
) -> Result<Opened, Ending>
    requires stands { AreResumable planned.plans until stands }
    requires until { until ≤ last_epoch }
    requires order { IsLawfulOrder order.now }
    ensures accepted { IfOk result (λ opened.
        banks_amount_refusal planned.plans planned.orders (stands_at stands) until ≡ None) }
    ensures ready { IfOk result (AreReady (name_bytes order.now.save)) }
    // What they print and save is the serial dynamics', from each start that the states are packed of.
    ensures runs { IfOk result (λ opened. BanksReportIsSerial → BanksCheckpointIsSerial
        → (starts : List (ℕ → Sample)) → BanksStand planned.plans starts stands
        → AreRunsOf (name_bytes order.now.save) (BanksWork planned starts until) opened.run) }
    ensures stopped { (starts : List (ℕ → Sample)) → starts_at starts ≡ stands_at stands
        → IfErr result (IsUnopened (banks_work planned until starts)) }
{
    let PlannedBanks { plans, orders } = planned;
    let from = stands.at(0).epoch;
    if let Err(refused) = check_banks_amount(&plans, &orders, from, until) {
        return Err(Ending::Refused(Refusal::Plan(refused)));
    }
    let Ok(sheets) = sheets_of(alloc, order, &plans[0], &orders, from, until) else {
        return Err(Ending::NoMemory);
    };
    let save = kind_of(order);
    let stands = stands.into_vec();
    match open_banks(alloc, &plans, &orders, stands, until, order.workers, save) {
        Ok(run) => Ok(Opened { plans, run, sheets }),
        Err(NoMemory) => Err(Ending::NoMemory),
    }
}

// Tests the amount of what a run of several banks prints, whose plans agree in size and number of slots.
fn check_banks_amount(
    plans: &[Arc<Plan, Global>],
    orders: &Orders,
    from: u64,
    until: u64,
) -> Result<(), PlanRefused>
    requires some { 0 < length plans.now }
    requires few_samples { orders.now.samples ≤ 256 }
    requires some_every { 1 ≤ orders.now.every }
    requires window { from ≤ until }
    requires until { until ≤ last_epoch }
    ensures exact { result ≡ unless (banks_amount_refusal (map arc_value plans.now) orders.now from until) tt }
    ensures rows { (size slots : ℕ) → HaveShape size slots (map arc_value plans.now) → IfOk result (λ _.
        orders.now.samples * slots * recorded_epochs orders.now.every from until ≤ most_rows) }
    ensures slots { (size slots : ℕ) → HaveShape size slots (map arc_value plans.now) → 1 ≤ slots }
{
    let plan: &Plan = &plans[0];
    // A plan has a slot.
    let _ = plan.slots();
    check_amount(plan, orders, from, until)
}

// Which checkpoint the run saves.
fn kind_of(order: &RunOrder<'_>) -> SaveKind
    ensures { result ≡ saves_as None (name_bytes order.now.save) }
{
    match order.save {
        None => SaveKind::Never,
        Some(_) => SaveKind::Level,
    }
}
