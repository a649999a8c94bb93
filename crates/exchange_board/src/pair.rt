//! Two partners in work, which are swept and exchanged away from the board.

ghost use Rattle.std.specs.Prelude.{◌≡◌, ◌+◌, ◌≤◌};
ghost use Rattle.std.specs.Arc.{arc_value};

use crate::home::Home;
use crate::rows::SlotEpoch;
use crate::trading::exchange_homes;
use scalar_rule::Plan;
use slot_steps::PlanPair;
use std::alloc::Global;
use std::marker::Model;
use std::thread::Threads;

/// Two slots that are partners at an epoch and were handed out at rest there, with the generators of
/// their pair. It must be spent.
pub struct PairJob {
    pub(crate) slot: u32,
    pub(crate) epoch: u64,
    pub(crate) low: Box<Home, Global>,
    pub(crate) high: Box<Home, Global>,
}

/// Two partners after the sweeps of their epoch and the exchange, with the records from before it. It must be spent.
pub struct PairSwept {
    pub(crate) slot: u32,
    pub(crate) epoch: u64,
    pub(crate) low: Box<Home, Global>,
    pub(crate) high: Box<Home, Global>,
}

impl Model for PairJob {
    ghost use Rattle.exchange_board.specs.Views.{JobView};

    ghost Value = { JobView };

    ghost use Rattle.exchange_board.specs.PairKeeps.{pair_view, KeepsPair};

    ghost view = { pair_view };

    ghost invariant = { KeepsPair };
}

impl Model for PairSwept {
    ghost use Rattle.exchange_board.specs.Views.{JobView};

    ghost Value = { JobView };

    ghost use Rattle.exchange_board.specs.PairKeeps.{swept_pair_view, KeepsSweptPair};

    ghost view = { swept_pair_view };

    ghost invariant = { KeepsSweptPair };
}

impl PairJob {
    /// The colder of its slots, which is the pair's number.
    pub fn slot(&self) -> u32
        ensures { result ≡ self.now.slot }
    {
        self.slot
    }

    /// The warmer one, which is the next.
    pub fn mate(&self) -> u32
        ensures { result ≡ self.now.slot + 1 }
    {
        self.slot + 1
    }

    /// Its epoch.
    pub fn epoch(&self) -> u64
        ensures { result ≡ self.now.epoch }
    {
        self.epoch
    }

    /// The sweeps of its epoch in both slots, the records that it asks for, and the exchange of the pair.
    /// The planes of a colour are cut into at most as many runs as there are `pieces`, 1 to 16, as
    /// `plane_sweep::sweep` cuts them. Takes no memory.
    pub fn sweep<R: Threads + Sync>(self, rt: &R, plan: &Plan, pieces: u32) -> PairSwept
        requires plan { plan.now ≡ arc_value self.origin.plan }
        requires some_pieces { 1 ≤ pieces }
        requires few_pieces { pieces ≤ 16 }
        ensures { result ≡ self }
    {
        let PairJob {
            slot,
            epoch,
            mut low,
            mut high,
        } = self;
        low.sweep(rt, plan, SlotEpoch { slot, epoch }, pieces);
        let next = SlotEpoch {
            slot: slot + 1,
            epoch,
        };
        high.sweep(rt, plan, next, pieces);
        exchange_homes(&mut low, &mut high, &PlanPair { plan, number: slot });
        PairSwept {
            slot,
            epoch,
            low,
            high,
        }
    }
}

impl PairSwept {
    /// The colder of its slots.
    pub fn slot(&self) -> u32
        ensures { result ≡ self.now.slot }
    {
        self.slot
    }
}
