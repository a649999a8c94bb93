//! A slot of a bank.

ghost use Rattle.std.specs.Prelude.{◌≡◌, ◌<◌};
ghost use Rattle.measured_run.specs.Cells.{CanSweep, IsSweptCell, IsTradedCell};
ghost use Rattle.plane_sweep.specs.Packed.{part_pair, part_slot, ArePairGenerators, FitsDuo};
ghost use Rattle.scalar_rule.specs.Exchange as model;
ghost use Rattle.scalar_rule.specs.Plan.{pairs_of, slots_of};
ghost use Rattle.slot_steps.specs.Totals.{AreTotals};

use crate::step::Step;
use plane_sums::{MeasuringRoom, SlotSums, SweptSlot, add_slot};
use plane_sweep::{Duo, PairWheels};
use scalar_rule::{has_partner, is_recorded};
use slot_steps::{PlanPair, Totals, exchange_slots, sweep_and_total, sweep_slot};
use std::thread::Threads;

/// A slot of 64 samples: its replicas, what is summed up of it, and its totals, which are of its last sweep
/// where an exchange or a measurement asked for them.
#[derive(Drop)]
pub(crate) struct Cell {
    pub(crate) duo: Duo,
    pub(crate) sums: SlotSums,
    pub(crate) totals: Totals,
}

impl Cell {
    /// The sweeps of an epoch. What is measured behind them is added where the epoch is measured.
    pub(crate) fn sweep<R: Threads + Sync>(
        &mut self,
        rt: &R,
        step: &Step,
        slot: u32,
        room: &mut MeasuringRoom,
    )
        requires slot { slot < slots_of step.now.plan.now }
        requires can { CanSweep step.now.plan.now step.now.epoch self.old }
        ensures { IsSweptCell step.now.plan.now step.now.every step.now.epoch slot self.old self.new }
    {
        let plan = step.plan;
        if is_recorded(step.every, step.epoch) || has_partner(plan.slots(), slot, step.epoch) {
            self.totals = sweep_and_total(rt, &mut self.duo, plan, slot, step.pieces);
            let swept = SweptSlot {
                plan,
                duo: &self.duo,
                first: &self.totals.first,
                second: &self.totals.second,
            };
            add_slot(&mut self.sums, &swept, step.every, step.epoch, room);
        } else {
            sweep_slot(rt, &mut self.duo, plan, slot, step.pieces);
        }
    }
}

/// The exchange of two slots that were swept and counted. What is summed up stays with each.
pub(crate) fn trade(cold: &mut Cell, hot: &mut Cell, wheels: &mut PairWheels, pair: &PlanPair)
    requires pair { pair.now.number < pairs_of pair.now.plan.now }
    requires cold_fits { FitsDuo pair.now.plan.now.size cold.old.duo }
    requires hot_fits { FitsDuo pair.now.plan.now.size hot.old.duo }
    requires cold_totals { AreTotals pair.now.plan.now cold.old.duo cold.old.totals }
    requires hot_totals { AreTotals pair.now.plan.now hot.old.duo hot.old.totals }
    requires wheels { ArePairGenerators wheels.old }
    ensures cold { IsTradedCell pair.now.plan.now (λ b. model.cold_side pair.now.plan.now b pair.now.number (part_pair wheels.old)
        (part_slot pair.now.plan.now.size b cold.old.duo) (part_slot pair.now.plan.now.size b hot.old.duo)) cold.old cold.new }
    ensures hot { IsTradedCell pair.now.plan.now (λ b. model.hot_side pair.now.plan.now b pair.now.number (part_pair wheels.old)
        (part_slot pair.now.plan.now.size b cold.old.duo) (part_slot pair.now.plan.now.size b hot.old.duo)) hot.old hot.new }
    ensures wheels { part_pair wheels.new ≡ model.drawn_pair (part_pair wheels.old) }
    ensures wheels_fit { ArePairGenerators wheels.new }
{
    exchange_slots(
        &mut cold.duo,
        &cold.totals,
        &mut hot.duo,
        &hot.totals,
        wheels,
        pair,
    );
}
