//! The hand-back of a slot, and the exchange of a pair.

ghost use Rattle.std.specs.Prelude.{◌≡◌, ◌+◌, ◌*◌, ◌<◌, true, false, ◌==◌, ◌&&◌, if◌then◌else◌, length, slice_set, Some, None, IfSome, IfNone};
ghost use Rattle.std.specs.Arc.{arc_value};
ghost use Rattle.spin_model.specs.Limits.{last_epoch};
ghost use Rattle.scalar_rule.specs.Epoch.{has_partner, partner};
ghost use Rattle.exchange_board.specs.Machine.{epochs, phases, met, after, IsPhased, IsBehind};
ghost use Rattle.exchange_board.specs.Views.{place_at, out_at, ready_at, arrived_at, placed, progress};

use crate::board::{Board, Slot};
use crate::home::Home;
use crate::job::Swept;
use crate::pair::PairSwept;
use crate::rows::{SlotEpoch, put_records};
use crate::trading::{Side, meet};
use scalar_rule::{Plan, has_partner, has_turn};
use slot_steps::PlanPair;
use std::alloc::Global;

/// What a hand-back has done.
#[derive(Clone, Copy, Debug, PartialEq, Eq)]
pub enum Arrival {
    /// The slot waits for its partner, which has not come yet.
    Waiting,
    /// Its partner waited: the pair was exchanged, and both are at rest at the next epoch.
    Settled { pair: u32 },
    /// The slot has no partner at its epoch, and is at rest at the next one.
    Alone,
}

// The colder slot of a pair.
fn colder(slot: u32, other: u32, is_low: bool) -> u32
    ensures { result ≡ (if is_low then slot else other) }
{
    if is_low { slot } else { other }
}

/// The partner at an epoch of a slot, of so many.
pub(crate) fn partner_among(slots: u32, slot: u32, epoch: u64) -> Option<u32>
    requires { slot < slots }
    ensures some { IfSome result (λ p. (has_partner slots slot epoch ≡ true) × (p ≡ partner slot epoch) × (p < slots)) }
    ensures none { IfNone result (has_partner slots slot epoch ≡ false) }
{
    if !has_partner(slots, slot, epoch) {
        return None;
    }
    if has_turn(slot, epoch) {
        Some(slot + 1)
    } else {
        Some(slot - 1)
    }
}

// A slot at home.
fn at_home(home: Box<Home, Global>, epoch: u64) -> Slot
    ensures { result ≡ record { epoch = epoch; home = Some home } }
{
    Slot {
        epoch,
        home: Some(home),
    }
}

impl Board {
    ghost use Rattle.exchange_board.specs.Answers.{answer, with_pair_back};

    /// A slot that was swept comes back: it is recorded, and its pair is exchanged, in place, where its
    /// partner waits. Takes no memory.
    pub fn arrive(&mut self, plan: &Plan, swept: Swept) -> Arrival
        requires plan { plan.now ≡ arc_value self.old.origin.plan }
        requires same { swept.origin ≡ self.old.origin }
        requires known { swept.slot < length self.old.places }
        requires out { progress (place_at self.old.places swept.slot) ≡ 4 * swept.epoch + 1 }
        ensures answer { result ≡ answer self.old.places swept.slot swept.epoch }
        ensures moved { self.new ≡ placed self.old (after self.old.places swept.slot swept.epoch) }
        ensures phased { IsPhased self.old.places }
        ensures behind { IsBehind self.old.places swept.slot swept.epoch }
    {
        let slot = swept.slot();
        let epoch = swept.epoch();
        match self.partner_of(slot, epoch) {
            None => {
                self.alone(swept);
                Arrival::Alone
            }
            Some(other) => {
                if self.waits(other, epoch) {
                    self.settle_pair(plan, swept, other);
                    Arrival::Settled {
                        pair: if slot < other { slot } else { other },
                    }
                } else {
                    self.wait(swept);
                    Arrival::Waiting
                }
            }
        }
    }

    /// Two partners that were swept and exchanged come back: both are recorded, and at rest at the next
    /// epoch. Takes no memory.
    pub fn arrive_pair(&mut self, swept: PairSwept)
        requires same { swept.origin ≡ self.old.origin }
        requires known { swept.slot + 1 < length self.old.places }
        requires low { progress (place_at self.old.places swept.slot) ≡ 4 * swept.epoch + 1 }
        requires high { progress (place_at self.old.places (swept.slot + 1)) ≡ 4 * swept.epoch + 1 }
        ensures moved { self.new ≡ placed self.old (with_pair_back self.old.places swept.slot swept.epoch) }
        ensures phased { IsPhased self.old.places }
    {
        let PairSwept {
            slot,
            epoch,
            low,
            high,
        } = swept;
        let at = SlotEpoch { slot, epoch };
        put_records(&mut self.records, &low.page, &self.origin, at);
        let next = SlotEpoch {
            slot: slot + 1,
            epoch,
        };
        put_records(&mut self.records, &high.page, &self.origin, next);
        *self.pairs.at_mut(slot as usize) = low.wheels.copy();
        *self.slots.at_mut(slot as usize) = at_home(low, epoch + 1);
        *self.slots.at_mut(slot as usize + 1) = at_home(high, epoch + 1);
    }

    // Whether a slot waits at an epoch.
    fn waits(&self, slot: u32, epoch: u64) -> bool
        requires known { slot < length self.now.places }
        requires short { epoch < last_epoch }
        ensures waits { result ≡ true → place_at self.now.places slot ≡ arrived_at epoch }
        ensures others { result ≡ false → ((phases self.now.places slot == 2) && (epochs self.now.places slot == epoch)) ≡ false }
    {
        self.progress(slot) == 4 * epoch + 2
    }

    // The partner at this epoch.
    pub(crate) fn partner_of(&self, slot: u32, epoch: u64) -> Option<u32>
        requires known { slot < length self.now.places }
        requires out { progress (place_at self.now.places slot) ≡ 4 * epoch + 1 }
        ensures some { IfSome result (λ p. (has_partner (length self.now.places) slot epoch ≡ true) × (p ≡ partner slot epoch) × (p < length self.now.places)) }
        ensures none { IfNone result (has_partner (length self.now.places) slot epoch ≡ false) }
        ensures short { epoch < last_epoch }
        ensures out { place_at self.now.places slot ≡ out_at epoch }
        ensures phased { IsPhased self.now.places }
        ensures behind { IsBehind self.now.places slot epoch }
    {
        partner_among(self.slots.len() as u32, slot, epoch)
    }

    fn alone(&mut self, swept: Swept)
        requires same { swept.origin ≡ self.old.origin }
        requires known { swept.slot < length self.old.places }
        requires out { place_at self.old.places swept.slot ≡ out_at swept.epoch }
        requires alone { has_partner (length self.old.places) swept.slot swept.epoch ≡ false }
        ensures { self.new ≡ placed self.old (slice_set self.old.places swept.slot (ready_at (swept.epoch + 1))) }
    {
        let Swept {
            slot,
            epoch,
            mut home,
        } = swept;
        let at = SlotEpoch { slot, epoch };
        put_records(&mut self.records, &home.page, &self.origin, at);
        home.totals = None;
        *self.slots.at_mut(slot as usize) = at_home(home, epoch + 1);
    }

    fn wait(&mut self, swept: Swept)
        requires same { swept.origin ≡ self.old.origin }
        requires known { swept.slot < length self.old.places }
        requires out { place_at self.old.places swept.slot ≡ out_at swept.epoch }
        requires partner { has_partner (length self.old.places) swept.slot swept.epoch ≡ true }
        requires unmet { met self.old.places swept.slot swept.epoch ≡ false }
        ensures { self.new ≡ placed self.old (slice_set self.old.places swept.slot (arrived_at swept.epoch)) }
    {
        let Swept { slot, epoch, home } = swept;
        let at = SlotEpoch { slot, epoch };
        put_records(&mut self.records, &home.page, &self.origin, at);
        *self.slots.at_mut(slot as usize) = at_home(home, epoch);
    }

    fn settle_pair(&mut self, plan: &Plan, swept: Swept, other: u32)
        requires plan { plan.now ≡ arc_value self.old.origin.plan }
        requires same { swept.origin ≡ self.old.origin }
        requires known { swept.slot < length self.old.places }
        requires out { place_at self.old.places swept.slot ≡ out_at swept.epoch }
        requires partner { has_partner (length self.old.places) swept.slot swept.epoch ≡ true }
        requires other { other ≡ partner swept.slot swept.epoch }
        requires met { place_at self.old.places other ≡ arrived_at swept.epoch }
        ensures { self.new ≡ placed self.old (slice_set (slice_set self.old.places other (ready_at (swept.epoch + 1))) swept.slot (ready_at (swept.epoch + 1))) }
    {
        let Swept {
            slot,
            epoch,
            mut home,
        } = swept;
        let at = SlotEpoch { slot, epoch };
        put_records(&mut self.records, &home.page, &self.origin, at);
        let is_low = has_turn(slot, epoch);
        let pair = colder(slot, other, is_low);
        let wheels = self.pairs.at_mut(pair as usize);
        let mate = self.slots.at_mut(other as usize);
        let side = Side {
            pair: PlanPair { plan, number: pair },
            is_low,
        };
        meet(mate, &mut home, wheels, &side);
        *self.slots.at_mut(slot as usize) = at_home(home, epoch + 1);
    }
}
