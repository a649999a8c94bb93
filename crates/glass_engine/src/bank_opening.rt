//! Opening a run over several banks: all its memory is taken here.

ghost use Rattle.std.specs.Prelude.{◌≡◌, ◌≢◌, ◌≤◌, length, map, IfOk};
ghost use Rattle.std.specs.Arc.{arc_value};
ghost use Rattle.spin_model.specs.Limits.{last_epoch, most_rows};
ghost use Rattle.plane_sweep.specs.Packed.{StandFits};
ghost use Rattle.run_plan.specs.Amounts as amounts;
ghost use Rattle.glass_engine.specs.BankRuns.{bank_run, bank_runs, for_samples, AreBankOrders, AreBankStarts};
ghost use Rattle.glass_engine.specs.KeptSaving.{banks_need, kind_of, HasRoom};
ghost use Rattle.glass_engine.specs.Runs.{AreRunOrders};
ghost use Rattle.glass_engine.specs.declared.run.SaveKind.TheVariants as saves;

use crate::opening::open_bank;
use crate::run::{BankRun, Run, SaveKind};
use crate::saving::Saving;
use glass_edges::NoMemory;
use plane_sweep::{RaggedStand, Stand};
use run_checkpoint::{Room, length};
use run_plan::Orders;
use scalar_rule::Plan;
use spin_model::{BANK_SAMPLES, EVERY_TAKE};
use std::alloc::Global;
use std::sync::Arc;

/// Opens a run over 2 to 4 banks from their states at one epoch to epoch `until`: each bank as `open`
/// does, and the buffer of the one checkpoint of all where it is to be saved. Each bank has its own
/// plan; the plans differ in their couplings alone. All banks but the last print 64 samples, and the
/// last what is left.
///
/// # Errors
///
/// Refuses only for lack of memory; the states are then dropped.
pub fn open_banks(
    alloc: Global,
    plans: &[Arc<Plan, Global>],
    orders: &Orders,
    stands: Vec<Stand>,
    until: u64,
    workers: u32,
    save: SaveKind,
) -> Result<Run, NoMemory>
    requires orders { AreBankOrders (length plans.now) orders.now }
    requires starts { AreBankStarts (map arc_value plans.now) stands.items orders.now until }
    requires until { until ≤ last_epoch }
    requires some_workers { 1 ≤ workers }
    requires few_workers { workers ≤ 64 }
    // A run of several banks is not asked to stop.
    requires level { save ≢ saves.Ragged }
    ensures { IfOk result (λ run. run
        ≡ bank_runs (map arc_value plans.now) stands.items orders.now until save) }
{
    // A plan has a slot.
    let _ = plans[0].slots();
    let driven = Vec::with_capacity(alloc, plans.len())?;
    let saving = reserve(alloc, plans, save)?;
    let banks = open_each(alloc, plans, orders, stands, until, workers, save)?;
    Ok(Run {
        banks,
        driven,
        saving,
    })
}

// The runs of the banks.
fn open_each(
    alloc: Global,
    plans: &[Arc<Plan, Global>],
    orders: &Orders,
    stands: Vec<Stand>,
    until: u64,
    workers: u32,
    save: SaveKind,
) -> Result<Vec<BankRun>, NoMemory>
    requires orders { AreBankOrders (length plans.now) orders.now }
    requires starts { AreBankStarts (map arc_value plans.now) stands.items orders.now until }
    requires until { until ≤ last_epoch }
    requires some_workers { 1 ≤ workers }
    requires few_workers { workers ≤ 64 }
    ensures { IfOk result (λ runs. runs.items
        ≡ bank_runs (map arc_value plans.now) stands.items orders.now until save) }
{
    let mut runs = Vec::with_capacity(alloc, plans.len())?;
    'banks: for stand in stands {
        let bank = runs.len();
        let left = orders.samples - BANK_SAMPLES * bank as u32;
        let own = of_samples(orders, left.min(BANK_SAMPLES));
        runs.push(open_level(alloc, &plans[bank], &own, stand, until, workers, save)?)?;
    }
    Ok(runs)
}

// The run of one bank, from its state.
fn open_level(
    alloc: Global,
    plan: &Arc<Plan, Global>,
    orders: &Orders,
    stand: Stand,
    until: u64,
    workers: u32,
    save: SaveKind,
) -> Result<BankRun, NoMemory>
    requires orders { AreRunOrders orders.now }
    requires stand { StandFits (arc_value plan.now) stand }
    requires window { stand.epoch ≤ until }
    requires until { until ≤ last_epoch }
    requires workers { (1 ≤ workers) × (workers ≤ 64) }
    requires rows { amounts.row_count (arc_value plan.now) orders.now stand.epoch until ≤ most_rows }
    ensures { IfOk result (λ run. run ≡ bank_run (arc_value plan.now) stand orders.now until save) }
{
    // A plan has a slot.
    let _ = plan.slots();
    let base = RaggedStand::level(alloc, stand)?;
    open_bank(alloc, plan, orders, base, until, EVERY_TAKE, workers, save)
}

/// The same orders for so many printed samples.
pub(crate) fn of_samples(orders: &Orders, samples: u32) -> Orders
    ensures { result ≡ for_samples samples orders.now }
{
    Orders { samples, ..*orders }
}

// Reserves the buffer of the checkpoint of all banks, where it is to be saved.
fn reserve(alloc: Global, plans: &[Arc<Plan, Global>], save: SaveKind) -> Result<Saving, NoMemory>
    requires some { 1 ≤ length plans.now }
    requires few { length plans.now ≤ 4 }
    requires level { save ≢ saves.Ragged }
    ensures kind { IfOk result (λ saving. kind_of saving ≡ save) }
    ensures room { IfOk result (HasRoom (banks_need (map arc_value plans.now))) }
{
    match save {
        SaveKind::Never => Ok(Saving::Never),
        SaveKind::Level => {
            let plan = &plans[0];
            let bank = length(plan.lattice().size(), plan.slots());
            let room = Room::reserve(alloc, 44 + bank * plans.len() as u64)?;
            Ok(Saving::Level(room))
        }
        SaveKind::Ragged => unreachable!(),
    }
}
