//! The sums of the slots of a bank of a kept state, and of it with each earlier one.

ghost use Rattle.std.specs.Prelude.{◌≡◌, ◌+◌, ◌<◌, ◌≤◌, ℕ, All, IfOk, length};
ghost use Rattle.quench_report.specs.Held.{bank_fields, bank_seen, kept_at, HasBank, HasRoom, HasSlot, HoldBank, HoldPairs, TellsKept};
ghost use Rattle.quenched_sums.specs.Told.{TellsState};

use crate::pairs::{SlotPlace, measure_pair};
use glass_edges::NoMemory;
use lattice_geometry::Lattice;
use plain_list::Items;
use plane_sweep::Stand;
use quenched_sums::{PairSums, StateSums};
use scalar_rule::Plan;
use std::alloc::Global;
use std::marker::Model;

/// The sums of a slot of a kept state: of the state, and of it with each earlier one.
#[derive(Drop)]
pub(crate) struct KeptSums {
    pub(crate) state: StateSums,
    pub(crate) pairs: Items<PairSums>,
}

/// Room in which a bank of a kept state is measured, 9 KB for each slot and 1 KB for each slot and earlier
/// state. Contracts see the sums, slot by slot.
#[derive(Drop)]
pub struct QuenchRoom {
    slots: Items<KeptSums>,
}

impl Model for QuenchRoom {
    ghost use Rattle.std.specs.Prelude.{List};
    ghost use Rattle.quench_report.specs.declared.measuring.KeptSums.{KeptSums};

    ghost Value = { List KeptSums };

    ghost view = { λ room. room.slots };
}

impl QuenchRoom {
    /// Room for so many slots, and for a quench of so many times.
    ///
    /// # Errors
    ///
    /// Refuses only for lack of memory.
    pub fn none(alloc: Global, slots: u32, times: usize) -> Result<QuenchRoom, NoMemory>
        requires slots { slots ≤ 32 }
        requires times { times ≤ 32 }
        ensures { IfOk result (HasRoom slots times) }
    {
        Ok(QuenchRoom {
            slots: empty_slots(alloc, slots as usize, times)?,
        })
    }

    /// Measures a bank of a kept state, and it with each earlier one. Takes no memory.
    pub(crate) fn measure(
        &mut self,
        states: &mut [Items<Stand>],
        plan: &Plan,
        slots: u32,
        state: usize,
        bank: usize,
    )
        requires state { state < length states.old }
        requires banks { All (HasBank plan.now.size slots bank) states.old }
        requires room { HasRoom slots (state + 1) self.old }
        ensures held { HoldBank plan.now states.old state bank self.new slots }
        ensures room { (few times : ℕ) → HasRoom few times self.old → HasRoom few times self.new }
        ensures same { states.new ≡ states.old }
    {
        let room = &mut self.slots;
        measure_slots(room, states, plan, slots, state, bank);
    }

    /// The sums of a slot.
    pub(crate) fn sums_at(&self, slot: usize) -> &KeptSums
        requires { slot < length self.now }
        ensures { result.now ≡ kept_at self.now slot }
    {
        self.slots.at(slot)
    }
}

// The sums of as many slots, all of them 0.
fn empty_slots(alloc: Global, slots: usize, times: usize) -> Result<Items<KeptSums>, NoMemory>
    requires slots { slots ≤ 32 }
    requires times { times ≤ 32 }
    ensures { IfOk result (HasRoom slots times) }
{
    let mut room = Vec::with_capacity(alloc, slots)?;
    'slots: for made in 0..slots {
        room.push(KeptSums {
            state: StateSums::none(),
            pairs: empty_pairs(alloc, times)?,
        })?;
    }
    Ok(Items::of(room))
}

// Sums for each time but the last, all of them 0.
fn empty_pairs(alloc: Global, times: usize) -> Result<Items<PairSums>, NoMemory>
    requires { times ≤ 32 }
    ensures { IfOk result (λ pairs. times ≤ length pairs + 1) }
{
    let count = times.saturating_sub(1);
    let mut pairs = Vec::with_capacity(alloc, count)?;
    'pairs: for made in 0..count {
        pairs.push(PairSums::none())?;
    }
    Ok(Items::of(pairs))
}

// Measures each slot of a bank of a kept state, and it with each earlier one.
fn measure_slots(
    room: &mut Items<KeptSums>,
    states: &mut [Items<Stand>],
    plan: &Plan,
    slots: u32,
    state: usize,
    bank: usize,
)
    requires state { state < length states.old }
    requires banks { All (HasBank plan.now.size slots bank) states.old }
    requires room { HasRoom slots (state + 1) room.old }
    ensures held { HoldBank plan.now states.old state bank room.new slots }
    ensures room { (few times : ℕ) → HasRoom few times room.old → HasRoom few times room.new }
    ensures same { states.new ≡ states.old }
{
    'slots: for slot in 0..slots as usize {
        let place = SlotPlace { state, bank, slot };
        measure_slot(room.at_mut(slot), states, plan, place);
    }
}

// Measures a slot of a kept state, and it with each earlier one.
fn measure_slot(sums: &mut KeptSums, states: &mut [Items<Stand>], plan: &Plan, place: SlotPlace)
    requires state { place.state < length states.old }
    requires slots { All (HasSlot plan.now.size place.bank place.slot) states.old }
    requires room { place.state ≤ length sums.old.pairs }
    ensures tells { TellsKept plan.now.size place.state sums.new
        (bank_seen plan.now states.old place.state place.bank place.slot)
        (bank_fields plan.now.size states.old place.state place.bank place.slot) }
    ensures long { length sums.new.pairs ≡ length sums.old.pairs }
    ensures same { states.new ≡ states.old }
{
    measure_state(&mut sums.state, states, plan, place);
    measure_pairs(&mut sums.pairs, states, plan.lattice(), place);
}

// Measures a slot of a kept state.
fn measure_state(sums: &mut StateSums, states: &[Items<Stand>], plan: &Plan, place: SlotPlace)
    requires state { place.state < length states.now }
    requires slots { All (HasSlot plan.now.size place.bank place.slot) states.now }
    ensures { TellsState plan.now.size sums.new (bank_seen plan.now states.now place.state place.bank place.slot) }
{
    let stand = states[place.state].at(place.bank);
    sums.measure(stand.slots.at(place.slot), plan);
}

// Measures it with each earlier one.
fn measure_pairs(
    pairs: &mut Items<PairSums>,
    states: &mut [Items<Stand>],
    lattice: Lattice,
    place: SlotPlace,
)
    requires state { place.state < length states.old }
    requires slots { All (HasSlot lattice place.bank place.slot) states.old }
    requires room { place.state ≤ length pairs.old }
    ensures held { HoldPairs lattice pairs.new (bank_fields lattice states.old place.state place.bank place.slot) place.state }
    ensures long { length pairs.new ≡ length pairs.old }
    ensures same { states.new ≡ states.old }
{
    'earlier: for i in 0..place.state {
        measure_pair(pairs.at_mut(i), states, lattice, i, place);
    }
}
