//! The exchange of an epoch.

ghost use Rattle.std.specs.Prelude.{◌≡◌, ℕ, ◌+◌, ◌<◌, true, All, length, slice_index_or};
ghost use Rattle.measured_run.specs.Cells.{slots_in, sums_in, AreCounted, AreExchanged, FitCells, IsAfterTurn};
ghost use Rattle.measured_run.specs.declared.cell.Cell.{Cell};
ghost use Rattle.plane_sweep.specs.Packed.{part_pair, ArePairGenerators};
ghost use Rattle.scalar_rule.specs.Exchange.{drawn_pair};
ghost use Rattle.scalar_rule.specs.Plan.{pairs_of, slots_of};
ghost use Rattle.scalar_rule.specs.Turns.{exchanged_pair};
ghost use Rattle.slot_steps.specs.Totals.{AreTotals};
ghost use Rattle.spin_model.specs.Limits.{last_epoch};

use crate::cell::{Cell, trade};
use plane_sweep::PairWheels;
use scalar_rule::{Plan, has_turn};
use slot_steps::PlanPair;

/// The exchange of the pairs that have their turn at an epoch.
pub(crate) fn exchange_pairs(cells: &mut [Cell], pairs: &mut [PairWheels], plan: &Plan, epoch: u64)
    requires cells { length cells.old ≡ slots_of plan.now }
    requires pairs { length pairs.old ≡ pairs_of plan.now }
    requires fits { FitCells plan.now cells.old }
    requires wheels { All ArePairGenerators pairs.old }
    requires counted { AreCounted plan.now epoch 0 cells.old }
    ensures { AreExchanged plan.now epoch pairs.old pairs.new cells.old cells.new }
{
    'turns: for pair in 0..plan.slots() - 1 {
        exchange_in_turn(cells, pairs, plan, epoch, pair);
    }
}

// The exchange of a pair, where it has its turn at the epoch.
#[tactic(auto, unfolding(scalar_rule::specs::Turns::after_turn, scalar_rule::specs::Turns::drawn_in_turn))]
fn exchange_in_turn(
    cells: &mut [Cell],
    pairs: &mut [PairWheels],
    plan: &Plan,
    epoch: u64,
    pair: u32,
)
    requires pair { pair < pairs_of plan.now }
    requires cells { length cells.old ≡ slots_of plan.now }
    requires pairs { length pairs.old ≡ pairs_of plan.now }
    requires fits { FitCells plan.now cells.old }
    requires wheels { All ArePairGenerators pairs.old }
    requires counted { AreCounted plan.now epoch pair cells.old }
    ensures { IsAfterTurn plan.now epoch pair pairs.old pairs.new cells.old cells.new }
{
    if has_turn(pair, epoch) {
        exchange_pair(
            cells,
            &mut pairs[pair as usize],
            &PlanPair { plan, number: pair },
        );
    }
}

// The exchange of a pair: the slots of its number and the next.
fn exchange_pair(cells: &mut [Cell], wheels: &mut PairWheels, pair: &PlanPair)
    requires pair { pair.now.number < pairs_of pair.now.plan.now }
    requires cells { length cells.old ≡ slots_of pair.now.plan.now }
    requires fits { FitCells pair.now.plan.now cells.old }
    requires cold { (d : Cell) → AreTotals pair.now.plan.now (slice_index_or cells.old pair.now.number d).duo (slice_index_or cells.old pair.now.number d).totals }
    requires hot { (d : Cell) → AreTotals pair.now.plan.now (slice_index_or cells.old (pair.now.number + 1) d).duo (slice_index_or cells.old (pair.now.number + 1) d).totals }
    requires wheels { ArePairGenerators wheels.old }
    ensures slots { (b : ℕ) → b < 64 → slots_in pair.now.plan.now.size b cells.new
        ≡ exchanged_pair pair.now.plan.now b pair.now.number (part_pair wheels.old) (slots_in pair.now.plan.now.size b cells.old) }
    ensures wheels { part_pair wheels.new ≡ drawn_pair (part_pair wheels.old) }
    ensures wheels_fit { ArePairGenerators wheels.new }
    ensures fits { FitCells pair.now.plan.now cells.new }
    ensures sums { sums_in cells.new ≡ sums_in cells.old }
    ensures others { (j : ℕ) (d : Cell) → pair.now.number + 1 < j → slice_index_or cells.new j d ≡ slice_index_or cells.old j d }
{
    // A plan has one pair fewer than slots.
    let _ = pair.plan.slots();
    let at = pair.number as usize;
    let (colder, hotter) = cells.split_at_mut(at + 1);
    trade(&mut colder[at], &mut hotter[0], wheels, pair);
}
