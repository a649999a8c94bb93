//! The board, and its hand-outs.

ghost use Rattle.std.specs.Prelude.{◌≡◌, ◌↔◌, ◌+◌, ◌*◌, ◌<◌, ◌≤◌, true, false, length, IfSome, IfNone, IfOk, IfErr, OnErr, slice_set};
ghost use Rattle.spin_model.specs.Limits.{most_slots};
ghost use Rattle.scalar_rule.specs.Epoch.{has_partner, partner, pair_of};
ghost use Rattle.exchange_board.specs.Views.{place_at, out_at, placed, progress};
ghost use Rattle.exchange_board.specs.BoardKeeps.{phase_of};
ghost use Rattle.exchange_board.specs.Content.{slots_in, row_total, taken_before, KeepsRows};
ghost use Rattle.exchange_board.specs.Machine.{taken, IsReady, NoneReady, NoneReadyBetween, NoneOut, AllEnded, IsPhased, numbers};

use crate::arrival::partner_among;
use crate::home::Home;
use crate::job::Job;
use crate::origin::Origin;
use crate::pair::PairJob;
use crate::room::Room;
use plain_list::Items;
use plane_sweep::{Duo, PairWheels, Place};
use scalar_rule::{Record, has_turn};
use std::alloc::Global;
use std::marker::Model;
use std::sync::Arc;

/// A slot's epoch, and its content unless it is in work.
#[derive(Drop)]
pub(crate) struct Slot {
    pub(crate) epoch: u64,
    pub(crate) home: Option<Box<Home, Global>>,
}

/// The slots of a run at their places, the generators of the pairs, the records, and the room that the
/// end needs. Contracts see the origin and the places.
#[derive(Drop)]
pub struct Board {
    pub(crate) origin: Arc<Origin, Global>,
    pub(crate) slots: Items<Slot>,
    pub(crate) pairs: Items<PairWheels>,
    pub(crate) records: Items<Record>,
    pub(crate) left: u64,
    pub(crate) duos: Items<Duo>,
    pub(crate) pending: Room<Record>,
    pub(crate) places: Items<Place>,
}

impl Model for Board {
    ghost use Rattle.exchange_board.specs.Views.{BoardView};

    ghost Value = { BoardView };

    ghost use Rattle.exchange_board.specs.BoardKeeps.{board_view, KeepsBoard};

    ghost view = { board_view };

    ghost invariant = { KeepsBoard };
}

/// What a board answers when it is asked for a slot, in this order of rank: finished, stopped, nothing,
/// a slot.
pub enum Next {
    /// A slot, now in work.
    Job(Job),
    /// No slot is at rest below until; some slot is in work.
    Nothing,
    /// Every slot is at rest at until.
    Finished,
    /// All hand-outs of the window are made; some slot has not ended.
    Stopped,
}

impl Board {
    ghost use Rattle.exchange_board.specs.Answers.{Nexts};

    /// How many slots it has, at most 32.
    pub fn slots(&self) -> u32
        ensures count { result ≡ length self.now.places }
        ensures few { result ≤ most_slots }
    {
        self.slots.len() as u32
    }

    /// The progress number of a slot: four times its epoch, and its phase, 0 at rest, 1 in work and 2
    /// waiting for its partner.
    pub fn progress(&self, slot: u32) -> u64
        requires { slot < length self.now.places }
        ensures value { result ≡ progress (place_at self.now.places slot) }
        ensures phase { (place_at self.now.places slot).phase < 3 }
        ensures slots { length self.now.places ≡ slots_in self.now.origin }
    {
        let place = self.slots.at(slot as usize);
        4 * place.epoch + phase(&place.home)
    }

    /// The records of the recorded epochs from the starting state's least completed epoch to until, in
    /// order of epoch, sample and slot; those of epochs that a slot has not recorded are zeros.
    pub fn records(&self) -> &[Record]
        ensures rows { KeepsRows self.now.origin (numbers self.now.places) result.now }
        ensures sized { length result.now ≡ row_total self.now.origin }
    {
        self.records.as_slice()
    }

    // Of the slots that may be handed out one of least rank. A worker who takes partners gets one of its share
    // where one goes with its partner or has none, whose spins it had last; the others' slots, which other
    // processors change, are then not even read.
    fn ready_slot(&self, share: Option<Share>) -> Option<u32>
        ensures some { IfSome result (λ t. (t < length self.now.places) × IsReady self.now.origin.window.until self.now.places t) }
        ensures none { IfNone result (NoneReady self.now.origin.window.until self.now.places) }
        ensures lively { IfNone result (NoneOut self.now.places → AllEnded self.now.origin.window.until self.now.places) }
        ensures phased { IsPhased self.now.places }
    {
        let slots = self.slots.len() as u32;
        if let Some(own) = self.own_slot(share) {
            return Some(own);
        }
        self.ready_between(0, slots, share.is_some())
    }

    // A slot of least rank of those of a share that go with their partner or have none.
    fn own_slot(&self, share: Option<Share>) -> Option<u32>
        ensures some { IfSome result (λ t. (t < length self.now.places) × IsReady self.now.origin.window.until self.now.places t) }
    {
        let (first, end) = share?.bounds(self.slots.len() as u32);
        let own = self.ready_between(first, end, true)?;
        if self.has_mate(own, self.progress(own)) {
            Some(own)
        } else {
            None
        }
    }

    // A slot of least rank of those from one on to before another.
    fn ready_between(&self, first: u32, end: u32, takes_partners: bool) -> Option<u32>
        requires { end ≤ length self.now.places }
        ensures some { IfSome result (λ t. (t < length self.now.places) × IsReady self.now.origin.window.until self.now.places t) }
        ensures none { IfNone result (NoneReadyBetween first end self.now.origin.window.until self.now.places) }
    {
        let until = 4 * self.origin.window.until;
        let mut least = 2 * until;
        let mut found = None;
        'slots: for t in first..end {
            let number = self.progress(t);
            if number % 4 == 0 && number < until {
                let rank = self.rank(t, number, takes_partners);
                if rank < least {
                    least = rank;
                    found = Some(t);
                }
            }
        }
        found
    }

    // How far behind others a slot at rest with this progress number stands. One of least epoch comes first, so
    // that the others keep partners to meet. For a worker who takes partners those come before that go with
    // their partner or have none, since a slot that goes before its partner is exchanged under the lock, while
    // others wait.
    fn rank(&self, slot: u32, number: u64, takes_partners: bool) -> u64
        requires known { slot < length self.now.places }
        requires few { number ≤ 4 * self.now.origin.window.until }
        ensures { result ≤ number + 4 * self.now.origin.window.until }
    {
        if takes_partners && !self.has_mate(slot, number) {
            number + 4 * self.origin.window.until
        } else {
            number
        }
    }

    // Whether the partner of a slot at rest with this progress number is at rest beside it, or there is none.
    fn has_mate(&self, slot: u32, number: u64) -> bool
        requires { slot < length self.now.places }
    {
        match partner_among(self.slots.len() as u32, slot, number / 4) {
            Some(other) => self.progress(other) == number,
            None => true,
        }
    }

    // Whether every slot is at rest at until.
    pub(crate) fn is_ended(&self) -> bool
        ensures { (result ≡ true) ↔ AllEnded self.now.origin.window.until self.now.places }
    {
        let until = self.origin.window.until;
        for t in 0..self.slots.len() as u32 {
            if self.progress(t) != 4 * until {
                return false;
            }
        }
        true
    }

    // Whether all hand-outs are made.
    fn is_spent(&self) -> bool
        ensures spent { result ≡ true → taken self.now.places ≡ taken_before self.now.origin + self.now.origin.window.takes }
        ensures left { result ≡ false → taken self.now.places < taken_before self.now.origin + self.now.origin.window.takes }
    {
        self.left == 0
    }

    fn take(&mut self, slot: u32) -> Job
        requires known { slot < length self.old.places }
        requires ready { IsReady self.old.origin.window.until self.old.places slot }
        requires left { taken self.old.places < taken_before self.old.origin + self.old.origin.window.takes }
        ensures job { result ≡ record { origin = self.old.origin; slot = slot; epoch = (place_at self.old.places slot).epoch } }
        ensures moved { self.new ≡ placed self.old (slice_set self.old.places slot (out_at (place_at self.old.places slot).epoch)) }
    {
        self.left -= 1;
        let place = self.slots.at_mut(slot as usize);
        match place.home.take() {
            Some(home) => Job {
                slot,
                epoch: place.epoch,
                home,
            },
            None => unreachable!(),
        }
    }

    /// A slot at rest below until, which is then in work, where there is one and hand-outs are left;
    /// which of several is not promised. Takes no memory, and time by the number of slots.
    pub fn next(&mut self) -> Next
        ensures next { Nexts self.old self.new result }
        ensures phased { IsPhased self.old.places }
    {
        self.next_of(None)
    }

    // What `next` answers to a worker who takes partners where a share is given, which it prefers.
    fn next_of(&mut self, share: Option<Share>) -> Next
        ensures next { Nexts self.old self.new result }
        ensures phased { IsPhased self.old.places }
    {
        match self.ready_slot(share) {
            Some(slot) => {
                if self.is_spent() {
                    return Next::Stopped;
                }
                Next::Job(self.take(slot))
            }
            None => {
                if self.is_ended() {
                    return Next::Finished;
                }
                if self.is_spent() {
                    return Next::Stopped;
                }
                Next::Nothing
            }
        }
    }
}

/// The slots that a worker prefers: so many from one on. Which they are changes nothing but the time.
#[derive(Clone, Copy, Debug, PartialEq, Eq)]
pub struct Share {
    pub first: usize,
    pub count: usize,
}

impl Share {
    // From which to before which of so many slots they are.
    fn bounds(self, slots: u32) -> (u32, u32)
        ensures { result.1 ≤ slots }
    {
        let all = slots as usize;
        let first = self.first.min(all);
        (first as u32, (first + self.count.min(all - first)) as u32)
    }
}

/// What a board answers when it is asked for two partners.
pub enum NextPair {
    /// Two partners, now in work.
    Pair(PairJob),
    /// What `next` answers: a slot whose partner can't go with it, or none.
    Single(Next),
}

impl Board {
    ghost use Rattle.exchange_board.specs.Answers.{NextPairs, GoesAlone};
    ghost use Rattle.exchange_board.specs.PairKeeps.{TakesPartner};

    /// As `next`, but both slots of a pair are then in work where the partner is at rest at the same epoch
    /// and a hand-out is left for it. Which of several slots is not promised. Takes no memory, and time by the
    /// number of slots.
    pub fn next_pair(&mut self, share: Share) -> NextPair
        ensures next { NextPairs self.old self.new result }
        ensures phased { IsPhased self.old.places }
    {
        match self.next_of(Some(share)) {
            Next::Job(job) => match self.take_partner(job) {
                Ok(pair) => NextPair::Pair(pair),
                Err(job) => NextPair::Single(Next::Job(job)),
            },
            Next::Nothing => NextPair::Single(Next::Nothing),
            Next::Finished => NextPair::Single(Next::Finished),
            Next::Stopped => NextPair::Single(Next::Stopped),
        }
    }

    // The partner of a slot in work too, where it is at rest at the slot's epoch and a hand-out is left.
    fn take_partner(&mut self, job: Job) -> Result<PairJob, Job>
        requires same { job.origin ≡ self.old.origin }
        requires known { job.slot < length self.old.places }
        requires out { place_at self.old.places job.slot ≡ out_at job.epoch }
        ensures pair { IfOk result (TakesPartner self.old self.new job) }
        ensures single { IfErr result (λ back. back ≡ job) }
        ensures alone { OnErr result (GoesAlone self.old job) }
        ensures kept { OnErr result (self.new ≡ self.old) }
    {
        let _ = &self.origin;
        let (slot, epoch) = (job.slot(), job.epoch());
        let Some(other) = self.partner_of(slot, epoch) else {
            return Err(job);
        };
        if self.is_spent() || self.progress(other) != 4 * epoch {
            return Err(job);
        }
        let mate = self.take(other);
        Ok(self.paired(job, mate))
    }

    // Two slots in work that are partners, with the generators of their pair.
    fn paired(&self, job: Job, mate: Job) -> PairJob
        requires same { (job.origin ≡ self.now.origin) × (mate.origin ≡ self.now.origin) }
        requires has { has_partner (length self.now.places) job.slot job.epoch ≡ true }
        requires mate { (mate.slot ≡ partner job.slot job.epoch) × (mate.epoch ≡ job.epoch) }
        requires own_out { place_at self.now.places job.slot ≡ out_at job.epoch }
        requires mate_out { place_at self.now.places mate.slot ≡ out_at job.epoch }
        requires known { (job.slot < length self.now.places) × (mate.slot < length self.now.places) }
        ensures { result ≡ record { origin = self.now.origin; slot = pair_of job.slot job.epoch; epoch = job.epoch } }
    {
        let (low, high) = if has_turn(job.slot(), job.epoch()) {
            (job, mate)
        } else {
            (mate, job)
        };
        let Job {
            slot,
            epoch,
            home: mut low,
        } = low;
        let Job {
            slot: _,
            epoch: _,
            home: high,
        } = high;
        low.wheels = self.pairs.at(slot as usize).copy();
        PairJob {
            slot,
            epoch,
            low,
            high,
        }
    }
}

/// The phase of a slot.
pub(crate) fn phase(home: &Option<Box<Home, Global>>) -> u64
    ensures value { result ≡ phase_of home.now }
    ensures small { result < 3 }
{
    match home {
        None => 1,
        Some(home) => { if home.totals.is_some() { 2 } else { 0 } }
    }
}
