//! A bank of 64 samples on its way.

ghost use Rattle.std.specs.Prelude.{◌≡◌, ◌+◌, ◌<◌, ◌≤◌, All, length};
ghost use Rattle.measured_run.specs.Cells.{CanSweep, FitCells, RunsEpoch};
ghost use Rattle.plane_sweep.specs.Packed.{ArePairGenerators};
ghost use Rattle.scalar_rule.specs.Plan.{pairs_of, slots_of};

use crate::cell::Cell;
use crate::exchanging::exchange_pairs;
use crate::step::Step;
use crate::workers::sweep_all;
use glass_edges::Gate;
use plain_list::Items;
use plane_sums::MeasuringRoom;
use plane_sweep::{PairWheels, Stand};
use scalar_rule::Plan;
use std::alloc::Global;
use std::marker::Model;
use std::snapshot::Snapshot;
use std::sync::{Arc, Wait};
use std::thread::Threads;

/// The slots of a bank at an epoch. Contracts see what it was opened with, and how far it is.
#[derive(Drop)]
pub(crate) struct Bank {
    pub(crate) plan: Arc<Plan, Global>,
    // The state from which it started, for contracts alone.
    pub(crate) base: Snapshot<Stand>,
    pub(crate) every: u64,
    pub(crate) until: u64,
    pub(crate) epoch: u64,
    pub(crate) cells: Items<Cell>,
    pub(crate) pairs: Items<PairWheels>,
}

impl Model for Bank {
    ghost use Rattle.measured_run.specs.Banks.{BankAt};

    ghost Value = { BankAt };

    ghost use Rattle.measured_run.specs.Keeps.{bank_at, KeepsBank};

    ghost view = { bank_at };

    ghost invariant = { KeepsBank };
}

impl Bank {
    /// The epochs that are left.
    pub(crate) fn left(&self) -> u64
        ensures { result + self.now.epoch ≡ self.now.bank.until }
    {
        self.until - self.epoch
    }

    /// Takes a bank an epoch on: the sweeps of each slot, what is measured of it behind them, and the exchange.
    /// Takes no memory.
    pub(crate) fn advance<R: Threads + Wait + Sync, G: Gate + Sync>(
        &mut self,
        rt: &R,
        gate: &G,
        rooms: &mut [MeasuringRoom],
        pieces: u32,
    )
        requires rooms { 0 < length rooms.old }
        requires left { self.old.epoch < self.old.bank.until }
        requires some_pieces { 1 ≤ pieces }
        requires few_pieces { pieces ≤ 16 }
        ensures { self.new ≡ record { bank = self.old.bank; epoch = self.old.epoch + 1 } }
    {
        let step = Step {
            plan: &self.plan,
            every: self.every,
            epoch: self.epoch,
            pieces,
        };
        run_epoch(
            rt,
            gate,
            &step,
            self.cells.as_mut_slice(),
            self.pairs.as_mut_slice(),
            rooms,
        );
        self.epoch += 1;
    }
}

// The sweeps of all slots, and the exchange.
fn run_epoch<R: Threads + Wait + Sync, G: Gate + Sync>(
    rt: &R,
    gate: &G,
    step: &Step,
    cells: &mut [Cell],
    pairs: &mut [PairWheels],
    rooms: &mut [MeasuringRoom],
)
    requires rooms { 0 < length rooms.old }
    requires cells { length cells.old ≡ slots_of step.now.plan.now }
    requires pairs { length pairs.old ≡ pairs_of step.now.plan.now }
    requires can { All (CanSweep step.now.plan.now step.now.epoch) cells.old }
    requires wheels { All ArePairGenerators pairs.old }
    ensures { RunsEpoch step.now.plan.now step.now.every step.now.epoch pairs.old pairs.new cells.old cells.new }
{
    sweep_all(rt, gate, step, 0, cells, rooms);
    exchange_pairs(cells, pairs, step.plan, step.epoch);
}
