//! The table of epochs, samples and slots: which of its places have a record ahead of the least
//! completed epoch.

ghost use Rattle.std.specs.Prelude.{◌≡◌, ℕ, ◌^◌, ◌<◌, ◌≤◌, min, max, map, length};
ghost use Rattle.spin_model.specs.Limits.{last_epoch};
ghost use Rattle.plane_sweep.specs.Cells as table;
ghost use Rattle.plane_sweep.specs.Uneven as uneven;
ghost use Rattle.scalar_rule.specs.Positions as model;

use crate::uneven::Place;
use plain_list::Items;
use scalar_rule::is_recorded;

/// A place of the table.
#[derive(Clone, Copy, Debug, PartialEq, Eq)]
pub struct Cell {
    pub epoch: u64,
    pub sample: u32,
    pub slot: u32,
}

/// Place `index` of the table that begins at an epoch: epoch by epoch, in each sample by sample, in
/// each slot by slot.
pub fn cell_at(index: usize, from: u64, samples: u32, slots: u32) -> Cell
    requires some_samples { 0 < samples }
    requires some_slots { 0 < slots }
    requires index { index < 2 ^ 50 }
    requires from { from ≤ last_epoch }
    ensures { table.IsCell from samples slots index result }
{
    let slots = slots as usize;
    let samples = samples as usize;
    Cell {
        epoch: from + (index / slots / samples) as u64,
        sample: (index / slots % samples) as u32,
        slot: (index % slots) as u32,
    }
}

/// Whether a place has a record: its epoch is the last of each `every`, and its slot has completed it.
pub fn has_record(cell: &Cell, places: &Items<Place>, every: u64) -> bool
    requires slot { cell.now.slot < length places.now }
    requires every { 1 ≤ every }
    requires short { (t : ℕ) → t < length places.now → (uneven.place_at places.now t).epoch ≤ last_epoch }
    ensures { (c samples i : ℕ) → table.IsCell c samples (length (map uneven.position_of places.now)) i cell.now
        → result ≡ table.is_kept places.now c samples every i }
{
    is_recorded(every, cell.epoch) && cell.epoch < places.at(cell.slot as usize).done()
}

/// The greatest number of epochs that a slot has completed, counted from epoch 0.
pub fn deepest(places: &Items<Place>) -> u64
    requires some { 0 < length places.now }
    requires short { (t : ℕ) → t < length places.now → (uneven.place_at places.now t).epoch ≤ last_epoch }
    ensures { result ≡ model.deepest_of (map uneven.position_of places.now) }
{
    let mut deepest = places.at(0).done();
    'places: for t in 0..places.len() {
        deepest = greater(deepest, places.at(t).done());
    }
    deepest
}

/// The least number of epochs that a slot has completed, counted from epoch 0: the least completed
/// epoch.
pub fn shallowest(places: &Items<Place>) -> u64
    requires some { 0 < length places.now }
    requires short { (t : ℕ) → t < length places.now → (uneven.place_at places.now t).epoch ≤ last_epoch }
    ensures { result ≡ model.floor_of (map uneven.position_of places.now) }
{
    let mut shallowest = places.at(0).done();
    'places: for t in 0..places.len() {
        shallowest = lesser(shallowest, places.at(t).done());
    }
    shallowest
}

fn greater(a: u64, b: u64) -> u64
    ensures { result ≡ max a b }
{
    if a < b { b } else { a }
}

fn lesser(a: u64, b: u64) -> u64
    ensures { result ≡ min a b }
{
    if a < b { a } else { b }
}
