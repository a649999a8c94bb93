//! A slot's content, wherever the slot is.

ghost use Rattle.std.specs.Prelude.{◌≡◌, ◌≤◌};
ghost use Rattle.std.specs.Arc.{arc_value};

use crate::origin::Origin;
use crate::rows::{SlotEpoch, fill_page};
use plane_sweep::{Duo, PairWheels};
use scalar_rule::{Plan, Record, has_partner, is_recorded};
use slot_steps::{Totals, sweep_and_total, sweep_slot};
use std::alloc::Global;
use std::sync::Arc;
use std::thread::Threads;

/// A slot's content. It stays where it is from a board's opening to its end: what goes to a worker and back is
/// the box around it, so that nothing is copied while other workers wait.
#[derive(Drop)]
pub(crate) struct Home {
    pub(crate) share: Arc<Origin, Global>,
    pub(crate) duo: Duo,
    /// The slot's sums, from its sweeps to its exchange.
    pub(crate) totals: Option<Totals>,
    /// Room for the slot's records of one epoch.
    pub(crate) page: [Record; 64],
    /// Room for the generators of a pair while it is in work whose colder slot this is.
    pub(crate) wheels: PairWheels,
}

impl Home {
    ghost use Rattle.exchange_board.specs.JobKeeps.{RestsAt, IsSweptAt};

    /// The sweeps of an epoch in both replicas, and after them the slot's records, where the epoch is recorded,
    /// and its sums, where it has a partner.
    pub(crate) fn sweep<R: Threads + Sync>(
        &mut self,
        rt: &R,
        plan: &Plan,
        at: SlotEpoch,
        pieces: u32,
    )
        requires plan { plan.now ≡ arc_value (arc_value self.old.share).plan }
        requires rests { RestsAt at.slot at.epoch self.old }
        requires some_pieces { 1 ≤ pieces }
        requires few_pieces { pieces ≤ 16 }
        ensures same { self.new.share ≡ self.old.share }
        ensures wheels { self.new.wheels ≡ self.old.wheels }
        ensures swept { IsSweptAt at.slot at.epoch self.new }
    {
        let is_recorded = is_recorded(self.share.window.every, at.epoch);
        if is_recorded || has_partner(plan.slots(), at.slot, at.epoch) {
            self.totals = Some(sweep_and_total(rt, &mut self.duo, plan, at.slot, pieces));
            if let Some(totals) = &self.totals {
                fill_page(&mut self.page, &self.duo, totals, plan, is_recorded);
            }
        } else {
            sweep_slot(rt, &mut self.duo, plan, at.slot, pieces);
        }
    }
}
