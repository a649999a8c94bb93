//! The command `measure`: a run that prints sums over its epochs in place of rows, and places the checkpoint that the run would.

ghost use Rattle.std.specs.Arc.{arc_value};
ghost use Rattle.std.specs.Prelude.{◌≡◌, ◌≢◌, ◌≤◌, List, ℕ, true, None, Some, Ok, length, map, option_map, IfOk, IfErr, OnOk, OnErr};
ghost use Rattle.command_words.specs.CommandLine as commands;
ghost use Rattle.command_words.specs.ReadCommand.{name_bytes, read_measure_order, IsLawfulMeasure};
ghost use Rattle.glass_edges.specs.Causes.{HasCause};
ghost use Rattle.glass_edges.specs.Writes.{Writes};
ghost use Rattle.glass_main.specs.CheckpointBytes.{ResumesBytes};
ghost use Rattle.glass_main.specs.Endings.{IsOfBanked, IsOfLevel, IsReached};
ghost use Rattle.glass_main.specs.Gathers.{Gathers};
ghost use Rattle.glass_main.specs.KeptMeasure.{is_named, run_of, IsReady};
ghost use Rattle.glass_main.specs.MeasureRun.{measured_text, rule_word};
ghost use Rattle.glass_main.specs.Opened.{IsOfOpenRun};
ghost use Rattle.glass_main.specs.Outside.{output, store};
ghost use Rattle.glass_main.specs.Request as model;
ghost use Rattle.glass_main.specs.Resumes.{AreResumable};
ghost use Rattle.glass_main.specs.Statuses.{Ends, IfRefused, Kept, Printed, Saved, Unsought, Unplaced, Wrote};
ghost use Rattle.measured_run.specs.Runs.{checkpoint_at};
ghost use Rattle.run_checkpoint.specs.BankEncoding.{BanksStand};
ghost use Rattle.scalar_rule.specs.declared.sample.Sample.{Sample};
ghost use Rattle.spin_model.specs.Limits.{last_epoch};

use crate::bank_gathering::gather_plans;
use crate::banked::{Banked, list_banks};
use crate::digest_lines::digits;
use crate::ending::Ending;
use crate::level_resuming::gather_level;
use crate::run::until_of;
use command_words::MeasureOrder;
use glass_edges::{Fault, Gate, NoMemory, Shelf, Sink};
use measured_run::{Done, Run, Title, drive, open, save, write_text};
use plain_list::Items;
use plane_sweep::Stand;
use report_text::kind_word;
use run_plan::digest_banks;
use scalar_rule::Plan;
use std::alloc::Global;
use std::sync::{Arc, Wait};
use std::thread::Threads;

/// A run that is measured, as it is opened, and its plans.
#[derive(Drop)]
struct Measured {
    planned: Banked,
    run: Run,
}

/// Reads the run file of an order and what it names, and its checkpoint; runs it, prints its sums, and places
/// its own checkpoint. Of no amount is too much asked.
pub(crate) fn measure<R: Threads + Wait + Sync, H: Shelf, O: Sink, G: Gate + Sync>(
    rt: &R,
    alloc: Global,
    shelf: &mut H,
    out: &mut O,
    gate: &G,
    order: &MeasureOrder<'_>,
) -> Ending
    requires { IsLawfulMeasure order.now }
    ensures ends { Ends (Some (commands.Measure (read_measure_order order.now))) result
        (store H.Shelf shelf.old) (store H.Shelf shelf.new)
        (output O.Sink out.old) (output O.Sink out.new) }
    ensures bytes { result ≡ Ending.Done → ResumesBytes (name_bytes order.now.from) (H.holds shelf.old) }
{
    let planned = match gather_banked(alloc, shelf, order.run) {
        Ok(planned) => planned,
        Err(ending) => return ending,
    };
    let until = until_of(order.until, &planned.orders);
    let stands = match gather_level(alloc, shelf, &planned, until, order.from) {
        Ok(stands) => stands,
        Err(ending) => return ending,
    };
    let measured = match open_run(alloc, planned, stands, until, order) {
        Ok(measured) => measured,
        Err(NoMemory) => return Ending::NoMemory,
    };
    finish(rt, shelf, out, gate, measured, order)
}

// Reads the run file of a name, and then the tables and couplings that it names.
#[tactic(auto, unfolding(crate::specs::Request::banked_at))]
fn gather_banked<H: Shelf>(alloc: Global, shelf: &mut H, name: &str) -> Result<Banked, Ending>
    ensures asked { Gathers (option_map (model.banked_at name.now) (H.holds shelf.old))
        (IsReached true name.now (H.holds shelf.old)) result
        (store H.Shelf shelf.old) (store H.Shelf shelf.new) }
    ensures banks { IfErr result (λ ending. IfRefused ending (IsOfBanked true)) }
{
    let plans = gather_plans(alloc, shelf, name, true)?;
    match list_banks(alloc, plans) {
        Ok(planned) => Ok(planned),
        Err(NoMemory) => Err(Ending::NoMemory),
    }
}

// Opens a run from its states.
fn open_run(
    alloc: Global,
    planned: Banked,
    stands: Items<Stand>,
    until: u64,
    order: &MeasureOrder<'_>,
) -> Result<Measured, NoMemory>
    requires stands { AreResumable planned.plans until stands }
    requires until { until ≤ last_epoch }
    requires order { IsLawfulMeasure order.now }
    ensures planned { IfOk result (λ measured. measured.planned ≡ planned) }
    ensures run { IfOk result (λ measured. measured.run ≡ run_of planned stands until (name_bytes order.now.save)) }
    ensures ready { IfOk result (IsReady (name_bytes order.now.save)) }
{
    let run = open(
        alloc,
        &planned.plans,
        stands.into_vec(),
        planned.orders.every,
        until,
        order.workers,
        order.save.is_some(),
    )?;
    Ok(Measured { planned, run })
}

// Drives an open run to its end, prints its sums, and places its checkpoint where one is asked for. It is
// given no allocator, and does not end for lack of memory.
fn finish<R: Threads + Wait + Sync, H: Shelf, O: Sink, G: Gate + Sync>(
    rt: &R,
    shelf: &mut H,
    out: &mut O,
    gate: &G,
    measured: Measured,
    order: &MeasureOrder<'_>,
) -> Ending
    requires order { IsLawfulMeasure order.now }
    requires ready { IsReady (name_bytes order.now.save) measured }
    ensures ending { IsOfOpenRun (name_bytes order.now.save) result }
    ensures out { Printed result (output O.Sink out.old) (output O.Sink out.new) }
    ensures files { Kept (name_bytes order.now.save) result
        (store H.Shelf shelf.old) (store H.Shelf shelf.new) }
    ensures wrote { (starts : List (ℕ → Sample)) → BanksStand measured.planned.plans starts measured.run.bases
        → Wrote (name_bytes order.now.save) (Some (Ok (model.MeasureWork measured.planned starts measured.run.until))) result
        (store H.Shelf shelf.old) (store H.Shelf shelf.new)
        (output O.Sink out.old) (output O.Sink out.new) }
    ensures later { O.faults out.old ≤ O.faults out.new }
    ensures later_store { H.faults shelf.old ≤ H.faults shelf.new }
{
    let Measured { planned, run } = measured;
    let done = drive(rt, run, order.pieces, gate);
    match put_sums(out, &done, &planned) {
        Ok(()) => {}
        Err(_) => return Ending::Unwritten,
    }
    match save_run(done, shelf, order.save) {
        Ok(()) => Ending::Done,
        Err(_) => Ending::Unsaved,
    }
}

// Prints the sums of a run at its end.
fn put_sums<O: Sink>(out: &mut O, done: &Done, planned: &Banked) -> Result<(), Fault>
    requires plans { done.now.plans ≡ planned.now.plans }
    requires every { done.now.every ≡ planned.now.orders.every }
    requires stands { AreResumable planned.now.plans done.now.until done.now.bases }
    ensures text { (starts : List (ℕ → Sample)) → BanksStand planned.now.plans starts done.now.bases
        → Writes O.Sink out.old out.new (measured_text planned.now starts done.now.until) result }
    ensures cause { HasCause (O.faults out.old) (O.faults out.new) result }
{
    let digest = digits(&digest_banks(&planned.plans));
    let title = Title {
        samples: planned.orders.samples,
        rule: rule_of(&planned.plans),
        digest: &digest,
    };
    write_text(out, done, &title)
}

// The word of the rule, which all plans share.
#[tactic(auto, unfolding(crate::specs::MeasureRun::rule_word))]
fn rule_of(plans: &[Arc<Plan, Global>]) -> &'static [u8]
    requires { 1 ≤ length plans.now }
    ensures word { result.now ≡ rule_word (map arc_value plans.now) }
    ensures short { length result.now ≤ 10 }
{
    kind_word(plans[0].rules().kind())
}

// Places the checkpoint of a run at its end, where a name is given.
fn save_run<H: Shelf>(done: Done, shelf: &mut H, name: Option<&str>) -> Result<(), Fault>
    requires { done.saves ≡ is_named (name_bytes name) }
    ensures placed { OnOk result ((starts : List (ℕ → Sample)) → BanksStand done.plans starts done.bases
        → Saved (name_bytes name.entry) (checkpoint_at done.plans starts done.until)
        (store H.Shelf shelf.old) (store H.Shelf shelf.new)) }
    ensures unsought { OnOk result (Unsought (name_bytes name.entry)
        (store H.Shelf shelf.old) (store H.Shelf shelf.new)) }
    ensures others { OnErr result (Unplaced (name_bytes name.entry)
        (store H.Shelf shelf.old) (store H.Shelf shelf.new)) }
    ensures named { OnErr result (name_bytes name.entry ≢ None) }
    ensures cause { HasCause (H.faults shelf.old) (H.faults shelf.new) result }
{
    match name {
        None => Ok(()),
        Some(name) => save(done, shelf, name),
    }
}
