//! The packed state of a run that stopped with its slots at different epochs.

ghost use Rattle.std.specs.Prelude.{◌≡◌, ℕ, ◌<◌, ◌≤◌, false, length, replicate, IfOk};
ghost use Rattle.spin_model.specs.Limits.{last_epoch};
ghost use Rattle.plane_sweep.specs.Packed.{part, StandFits};
ghost use Rattle.plane_sweep.specs.Uneven.{place_at, position_of, positions_of, uneven_part, level_stand, FitsRecord, RaggedStandFits};
ghost use Rattle.scalar_rule.specs.Laws.{level_start};
ghost use Rattle.scalar_rule.specs.Plan.{Plan, slots_of};
ghost use Rattle.scalar_rule.specs.Positions as model;

use crate::cells::shallowest;
use crate::copying::{copied_pairs, copied_slots};
use crate::replica::Duo;
use crate::stand::{PairWheels, Stand};
use glass_edges::NoMemory;
use plain_list::Items;
use scalar_rule::Record;
use std::alloc::Global;

/// Where a slot is: an epoch, and whether it is swept there and waits for its partner; else it is at
/// rest.
#[derive(Clone, Copy, Debug, PartialEq, Eq)]
pub struct Place {
    pub epoch: u64,
    pub arrived: bool,
}

/// The packed state of 64 disorder samples, each slot at its own place.
#[derive(Drop)]
pub struct RaggedStand {
    /// One entry per temperature slot, slot 0 the coldest.
    pub places: Items<Place>,
    /// One entry per temperature slot.
    pub slots: Items<Duo>,
    /// One entry per pair: pair k is slots k and k + 1.
    pub pairs: Items<PairWheels>,
    /// The records that are kept ahead of the least completed epoch, in order of epoch, sample, slot.
    pub pending: Items<Record>,
}

impl Place {
    /// How many epochs a slot has completed there, counted from epoch 0: also that in which it waits.
    pub fn done(&self) -> u64
        requires { self.now.epoch ≤ last_epoch }
        ensures { result ≡ model.done (position_of self.now) }
    {
        self.epoch + if self.arrived { 1 } else { 0 }
    }
}

impl RaggedStand {
    /// A state at one epoch, with every slot at rest there.
    ///
    /// # Errors
    ///
    /// Refuses only for lack of memory; the state is then dropped.
    pub fn level(alloc: Global, stand: Stand) -> Result<RaggedStand, NoMemory>
        ensures level { IfOk result (λ ragged. ragged ≡ level_stand stand) }
        ensures part { IfOk result (λ ragged. (plan : Plan) (b : ℕ) → length stand.slots ≡ slots_of plan
            → uneven_part plan.size b ragged ≡ level_start plan (part plan.size b stand)) }
        ensures fits { IfOk result (λ ragged. (plan : Plan) (samples every : ℕ) → StandFits plan stand
            → 1 ≤ samples → samples ≤ 64 → 1 ≤ every → RaggedStandFits plan samples every ragged) }
    {
        let places = level_places(alloc, stand.epoch, stand.slots.len())?;
        Ok(RaggedStand {
            places,
            slots: stand.slots,
            pairs: stand.pairs,
            pending: Items::of(Vec::new(alloc)),
        })
    }

    /// The least completed epoch: how many epochs every slot has completed, counted from epoch 0.
    pub fn floor(&self) -> u64
        requires some { 0 < length self.now.places }
        requires short { (t : ℕ) → t < length self.now.places → (place_at self.now.places t).epoch ≤ last_epoch }
        ensures { result ≡ model.floor_of (positions_of self.now) }
    {
        shallowest(&self.places)
    }

    /// An equal state.
    ///
    /// # Errors
    ///
    /// Refuses only for lack of memory.
    pub fn copy(&self, alloc: Global) -> Result<RaggedStand, NoMemory>
        ensures { IfOk result (λ ragged. ragged ≡ self.now) }
    {
        Ok(RaggedStand {
            places: Items::of(self.places.as_slice().to_vec(alloc)?),
            slots: copied_slots(alloc, &self.slots)?,
            pairs: copied_pairs(alloc, &self.pairs)?,
            pending: Items::of(self.pending.as_slice().to_vec(alloc)?),
        })
    }
}

/// The record itself: each record of the program is within the ranges in which it is stored.
pub fn record_in_range(values: Record) -> Record
    ensures same { result ≡ values }
    ensures fits { FitsRecord result }
{
    values
}

// So many places at rest at an epoch.
fn level_places(alloc: Global, epoch: u64, count: usize) -> Result<Items<Place>, NoMemory>
    ensures { IfOk result (λ places. places ≡ replicate count (record { epoch = epoch; arrived = false })) }
{
    let mut places = Vec::with_capacity(alloc, count)?;
    'places: for t in 0..count {
        places.push(Place {
            epoch,
            arrived: false,
        })?;
    }
    Ok(Items::of(places))
}
