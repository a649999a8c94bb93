//! The replica exchange of neighbouring temperature slots.

ghost use Rattle.std.specs.Prelude.{◌≡◌, ◌+◌, ◌<◌, length};
ghost use Rattle.spin_model.specs.Lattice.{volume};
ghost use Rattle.spin_model.specs.Stream.{advanced, draw};
ghost use Rattle.scalar_rule.specs.Epoch.{slot_at};
ghost use Rattle.scalar_rule.specs.Exchange as model;
ghost use Rattle.scalar_rule.specs.Plan.{pairs_of};
ghost use Rattle.scalar_rule.specs.Shape.{FitsSlot};
ghost use Rattle.scalar_rule.specs.Turns.{exchanged_pair};

use crate::plain_copy::PlainCopy;
use crate::plan::Plan;
use crate::sample::{PlainPair, PlainSlot};
use crate::sums::unsatisfied;
use plain_list::Items;
use pr_generator::Wheel;
use threshold_table::SwapTable;

/// The exchange of pair `pair`: slot `pair` is its colder one.
pub(crate) fn exchange_pair(
    slots: &mut Items<PlainSlot>,
    wheels: &mut PlainPair,
    plan: &Plan,
    bit: u32,
    pair: u32,
)
    requires bit { bit < 64 }
    requires pair { pair < pairs_of plan.now }
    requires slots { pair + 1 < length slots.old }
    requires cold { FitsSlot plan.now.size (slot_at slots.old pair) }
    requires hot { FitsSlot plan.now.size (slot_at slots.old (pair + 1)) }
    ensures slots { slots.new ≡ exchanged_pair plan.now bit pair wheels.old slots.old }
    ensures wheels { wheels.new ≡ model.drawn_pair wheels.old }
{
    let at = pair as usize;
    let (colder, hotter) = slots.as_mut_slice().split_at_mut(at + 1);
    exchange_slots(&mut colder[at], &mut hotter[0], wheels, plan, bit, pair);
}

// Both replicas of the two slots, each by its own generator.
#[tactic(auto, unfolding(crate::specs::Exchange::cold_side, crate::specs::Exchange::hot_side))]
fn exchange_slots(
    cold: &mut PlainSlot,
    hot: &mut PlainSlot,
    wheels: &mut PlainPair,
    plan: &Plan,
    bit: u32,
    pair: u32,
)
    requires bit { bit < 64 }
    requires pair { pair < pairs_of plan.now }
    requires cold { FitsSlot plan.now.size cold.old }
    requires hot { FitsSlot plan.now.size hot.old }
    ensures cold { cold.new ≡ model.cold_side plan.now bit pair wheels.old cold.old hot.old }
    ensures hot { hot.new ≡ model.hot_side plan.now bit pair wheels.old cold.old hot.old }
    ensures wheels { wheels.new ≡ model.drawn_pair wheels.old }
{
    exchange_copies(
        &mut cold.first,
        &mut hot.first,
        &mut wheels.first,
        plan,
        bit,
        pair,
    );
    exchange_copies(
        &mut cold.second,
        &mut hot.second,
        &mut wheels.second,
        plan,
        bit,
        pair,
    );
}

// One replica of the two slots.
fn exchange_copies(
    cold: &mut PlainCopy,
    hot: &mut PlainCopy,
    wheel: &mut Wheel,
    plan: &Plan,
    bit: u32,
    pair: u32,
)
    requires bit { bit < 64 }
    requires pair { pair < pairs_of plan.now }
    requires cold { length cold.old.spins ≡ volume plan.now.size }
    requires hot { length hot.old.spins ≡ volume plan.now.size }
    ensures cold { cold.new ≡ model.traded
        (model.decision plan.now bit pair wheel.old cold.old hot.old) cold.old hot.old }
    ensures hot { hot.new ≡ model.traded
        (model.decision plan.now bit pair wheel.old cold.old hot.old) hot.old cold.old }
    ensures wheel { wheel.new ≡ advanced wheel.old 64 }
{
    let draw = draw_of(wheel, bit);
    let colder = unsatisfied(cold, plan, bit);
    let hotter = unsatisfied(hot, plan, bit);
    // A plan has one pair fewer than slots.
    let _ = plan.slots();
    trade(
        cold,
        hot,
        is_swapped(plan.swaps(), pair, draw, colder, hotter),
    );
}

// The sample's draw. The generator gives 64, one for each sample of the bank, whatever happens.
fn draw_of(wheel: &mut Wheel, bit: u32) -> u32
    requires { bit < 64 }
    ensures moved { wheel.new ≡ advanced wheel.old 64 }
    ensures drawn { result ≡ draw wheel.old bit }
{
    let mut draws = [0u32; 64];
    wheel.fill(&mut draws);
    draws[bit as usize]
}

// Whether the configurations of pair `pair` swap, by a draw and from the unsatisfied bonds of the
// colder and the hotter slot.
fn is_swapped(table: &SwapTable, pair: u32, draw: u32, cold: u32, hot: u32) -> bool
    requires { pair < length table.now }
    ensures { result ≡ model.is_swapped table.now pair draw cold hot }
{
    cold >= hot || (draw as u64) < table.threshold(pair, (hot - cold - 1) / 2)
}

// The swap of two replicas: spins and labels move, generators stay.
fn trade(cold: &mut PlainCopy, hot: &mut PlainCopy, swap: bool)
    ensures cold { cold.new ≡ model.traded swap cold.old hot.old }
    ensures hot { hot.new ≡ model.traded swap hot.old cold.old }
{
    if swap {
        std::mem::swap(&mut cold.spins, &mut hot.spins);
        std::mem::swap(&mut cold.replica, &mut hot.replica);
    }
}
