//! An epoch of parallel tempering of one disorder sample.

ghost use Rattle.std.specs.Prelude.{◌≡◌, ◌+◌, ◌<◌, length, if◌then◌else◌};
ghost use Rattle.spin_model.specs.Limits.{last_epoch};
ghost use Rattle.spin_model.specs.Steps.{table};
ghost use Rattle.scalar_rule.specs.Epoch as model;
ghost use Rattle.scalar_rule.specs.Exchange.{drawn_pair};
ghost use Rattle.scalar_rule.specs.Plan.{pairs_of, slots_of};
ghost use Rattle.scalar_rule.specs.Shape.{Fits, FitSlots, FitsSlot};
ghost use Rattle.scalar_rule.specs.Turns.{TurnFits, after_turn, drawn_in_turn};

use crate::bonds::SampleBonds;
use crate::exchange::exchange_pair;
use crate::plan::Plan;
use crate::sample::{PlainPair, PlainSlot, Record, Sample};
use crate::sums::{agreeing, energy, excess};
use crate::sweeps::epoch_sweeps;
use crate::turns::has_turn;
use plain_list::Items;

impl Sample {
    /// One epoch: the plan's sweeps of every slot, the record of each slot into `rows`, slot 0
    /// first, and then the exchange of the pairs whose turn it is. Takes no memory.
    pub fn epoch(&mut self, plan: &Plan, rows: &mut [Record])
        requires fits { Fits plan.now self.old }
        requires epoch { self.old.epoch < last_epoch }
        requires rows { length rows.old ≡ slots_of plan.now }
        ensures state { self.new ≡ model.epoch plan.now self.old }
        ensures records { rows.new ≡ model.epoch_records plan.now self.old }
        ensures fits { Fits plan.now self.new }
    {
        sweep_slots(&mut self.slots, plan, self.bit);
        write_records(&self.slots, plan, self.bit, rows);
        exchange_pairs(&mut self.slots, &mut self.pairs, plan, self.bit, self.epoch);
        self.epoch += 1;
    }
}

// The sweeps of every slot.
fn sweep_slots(slots: &mut Items<PlainSlot>, plan: &Plan, bit: u32)
    requires slots { FitSlots plan.now slots.old }
    requires bit { bit < 64 }
    ensures swept { slots.new ≡ table
        (λ t. model.swept_slot plan.now bit t (model.slot_at slots.old t)) (slots_of plan.now) }
    ensures fits { FitSlots plan.now slots.new }
{
    'swept: for slot in 0..plan.slots() {
        sweep_slot(slots.at_mut(slot as usize), plan, bit, slot);
    }
}

#[tactic(auto, unfolding(crate::specs::Epoch::swept_slot))]
fn sweep_slot(place: &mut PlainSlot, plan: &Plan, bit: u32, slot: u32)
    requires fits { FitsSlot plan.now.size place.old }
    requires bit { bit < 64 }
    requires slot { slot < slots_of plan.now }
    ensures swept { place.new ≡ model.swept_slot plan.now bit slot place.old }
    ensures fits { FitsSlot plan.now.size place.new }
{
    epoch_sweeps(&mut place.first, plan, bit, slot);
    epoch_sweeps(&mut place.second, plan, bit, slot);
}

// The records of all slots.
fn write_records(slots: &Items<PlainSlot>, plan: &Plan, bit: u32, rows: &mut [Record])
    requires slots { FitSlots plan.now slots.now }
    requires bit { bit < 64 }
    requires rows { length rows.old ≡ slots_of plan.now }
    ensures { rows.new ≡ table
        (λ t. model.record_of plan.now bit (model.slot_at slots.now t)) (slots_of plan.now) }
{
    'records: for slot in 0..plan.slots() as usize {
        rows[slot] = record_of(slots.at(slot), plan, bit);
    }
}

fn record_of(place: &PlainSlot, plan: &Plan, bit: u32) -> Record
    requires fits { FitsSlot plan.now.size place.now }
    requires bit { bit < 64 }
    ensures { result ≡ model.record_of plan.now bit place.now }
{
    let lattice = plan.lattice();
    let bonds = SampleBonds::of(plan.couplings(), bit);
    Record {
        first_energy: energy(&lattice, &bonds, place.first.spins.as_slice()),
        second_energy: energy(&lattice, &bonds, place.second.spins.as_slice()),
        overlap: excess(agreeing(&place.first, &place.second), lattice.sites()),
        first_replica: place.first.replica,
        second_replica: place.second.replica,
    }
}

// The exchange of the pairs whose turn it is.
fn exchange_pairs(
    slots: &mut Items<PlainSlot>,
    pairs: &mut Items<PlainPair>,
    plan: &Plan,
    bit: u32,
    epoch: u64,
)
    requires slots { FitSlots plan.now slots.old }
    requires pairs { length pairs.old ≡ pairs_of plan.now }
    requires bit { bit < 64 }
    requires epoch { epoch < last_epoch }
    ensures slots { slots.new ≡ table
        (model.exchanged plan.now bit epoch pairs.old slots.old) (slots_of plan.now) }
    ensures pairs { pairs.new ≡ table
        (λ k. if model.has_turn k epoch then drawn_pair (model.pair_at pairs.old k) else model.pair_at pairs.old k)
        (pairs_of plan.now) }
    ensures fits { FitSlots plan.now slots.new }
{
    'turns: for pair in 0..plan.slots() - 1 {
        exchange_in_turn(slots, pairs, plan, bit, epoch, pair);
    }
}

// The exchange of a pair, where it has its turn at the epoch.
#[tactic(auto, unfolding(crate::specs::Turns::after_turn, crate::specs::Turns::drawn_in_turn))]
fn exchange_in_turn(
    slots: &mut Items<PlainSlot>,
    pairs: &mut Items<PlainPair>,
    plan: &Plan,
    bit: u32,
    epoch: u64,
    pair: u32,
)
    requires bit { bit < 64 }
    requires epoch { epoch < last_epoch }
    requires pair { pair < pairs_of plan.now }
    requires slots { pair + 1 < length slots.old }
    requires pairs { pair < length pairs.old }
    requires fits { TurnFits plan.now.size pair epoch slots.old }
    ensures slots { slots.new ≡ after_turn plan.now bit pair epoch pairs.old slots.old }
    ensures pairs { pairs.new ≡ drawn_in_turn pair epoch pairs.old }
{
    if has_turn(pair, epoch) {
        exchange_pair(slots, pairs.at_mut(pair as usize), plan, bit, pair);
    }
}
