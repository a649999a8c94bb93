//! The exchange of a pair of slots in all 64 samples.

ghost use Rattle.std.specs.Prelude.{◌≡◌, ℕ, ◌<◌};
ghost use Rattle.plane_sweep.specs.Packed.{part_copy, part_slot, part_pair, FitsDuo, FitsReplica, ArePairGenerators};
ghost use Rattle.scalar_rule.specs.Exchange as model;
ghost use Rattle.scalar_rule.specs.Plan.{pairs_of};
ghost use Rattle.slot_steps.specs.Totals.{AreTotals, CountsBonds};
ghost use Rattle.spin_model.specs.Stream.{advanced};
ghost use Rattle.spin_model.specs.Words.{AreGeneratorWords};

use crate::totals::Totals;
use masked_swap::{decide, exchange};
use multispin_word::Planes;
use plane_sweep::{Duo, PairWheels, Replica};
use pr_generator::Wheel;
use scalar_rule::Plan;

/// A pair of slots of a plan.
#[derive(Clone, Copy)]
pub struct PlanPair<'a> {
    pub plan: &'a Plan,
    pub number: u32,
}

/// The exchange of both replicas of a pair, from the sums of its slots. Takes no memory.
#[tactic(auto, unfolding(scalar_rule::specs::Exchange::cold_side, scalar_rule::specs::Exchange::hot_side))]
pub fn exchange_slots(
    cold: &mut Duo,
    cold_totals: &Totals,
    hot: &mut Duo,
    hot_totals: &Totals,
    wheels: &mut PairWheels,
    pair: &PlanPair,
)
    requires pair { pair.now.number < pairs_of pair.now.plan.now }
    requires cold_duo { FitsDuo pair.now.plan.now.size cold.old }
    requires hot_duo { FitsDuo pair.now.plan.now.size hot.old }
    requires wheels { ArePairGenerators wheels.old }
    requires cold_totals { AreTotals pair.now.plan.now cold.old cold_totals.now }
    requires hot_totals { AreTotals pair.now.plan.now hot.old hot_totals.now }
    ensures cold { (b : ℕ) → b < 64 → part_slot pair.now.plan.now.size b cold.new
        ≡ model.cold_side pair.now.plan.now b pair.now.number (part_pair wheels.old) (part_slot pair.now.plan.now.size b cold.old) (part_slot pair.now.plan.now.size b hot.old) }
    ensures hot { (b : ℕ) → b < 64 → part_slot pair.now.plan.now.size b hot.new
        ≡ model.hot_side pair.now.plan.now b pair.now.number (part_pair wheels.old) (part_slot pair.now.plan.now.size b cold.old) (part_slot pair.now.plan.now.size b hot.old) }
    ensures wheels { part_pair wheels.new ≡ model.drawn_pair (part_pair wheels.old) }
    ensures cold_fits { FitsDuo pair.now.plan.now.size cold.new }
    ensures hot_fits { FitsDuo pair.now.plan.now.size hot.new }
    ensures wheels_fit { ArePairGenerators wheels.new }
{
    exchange_replicas(
        &mut cold.first,
        &cold_totals.first,
        &mut hot.first,
        &hot_totals.first,
        &mut wheels.first,
        pair,
    );
    exchange_replicas(
        &mut cold.second,
        &cold_totals.second,
        &mut hot.second,
        &hot_totals.second,
        &mut wheels.second,
        pair,
    );
}

// The exchange of one replica of a pair.
fn exchange_replicas(
    cold: &mut Replica,
    cold_bonds: &Planes<20>,
    hot: &mut Replica,
    hot_bonds: &Planes<20>,
    wheel: &mut Wheel,
    pair: &PlanPair,
)
    requires pair { pair.now.number < pairs_of pair.now.plan.now }
    requires cold { FitsReplica pair.now.plan.now.size cold.old }
    requires hot { FitsReplica pair.now.plan.now.size hot.old }
    requires wheel { AreGeneratorWords wheel.old }
    requires cold_bonds { CountsBonds pair.now.plan.now cold.old cold_bonds.now.words }
    requires hot_bonds { CountsBonds pair.now.plan.now hot.old hot_bonds.now.words }
    ensures cold { (b : ℕ) → b < 64 → part_copy pair.now.plan.now.size b cold.new
        ≡ model.traded (model.decision pair.now.plan.now b pair.now.number wheel.old (part_copy pair.now.plan.now.size b cold.old) (part_copy pair.now.plan.now.size b hot.old))
        (part_copy pair.now.plan.now.size b cold.old) (part_copy pair.now.plan.now.size b hot.old) }
    ensures hot { (b : ℕ) → b < 64 → part_copy pair.now.plan.now.size b hot.new
        ≡ model.traded (model.decision pair.now.plan.now b pair.now.number wheel.old (part_copy pair.now.plan.now.size b cold.old) (part_copy pair.now.plan.now.size b hot.old))
        (part_copy pair.now.plan.now.size b hot.old) (part_copy pair.now.plan.now.size b cold.old) }
    ensures wheel { wheel.new ≡ advanced wheel.old 64 }
    ensures cold_fits { FitsReplica pair.now.plan.now.size cold.new }
    ensures hot_fits { FitsReplica pair.now.plan.now.size hot.new }
    ensures wheel_fits { AreGeneratorWords wheel.new }
{
    let plan = pair.plan;
    let _ = plan.slots();
    let mask = decide(pair.number, cold_bonds, hot_bonds, wheel, plan.swaps());
    exchange(cold, hot, mask);
}
