//! Equal copies of the parts of a packed state.

ghost use Rattle.std.specs.Prelude.{◌≡◌, IfOk};

use crate::replica::{Duo, Plane};
use crate::stand::PairWheels;
use glass_edges::NoMemory;
use plain_list::Items;
use std::alloc::Global;

/// All slots.
pub(crate) fn copied_slots(alloc: Global, slots: &Items<Duo>) -> Result<Items<Duo>, NoMemory>
    ensures { IfOk result (λ copies. copies ≡ slots.now) }
{
    let mut copies = Vec::with_capacity(alloc, slots.len())?;
    'slots: for t in 0..slots.len() {
        copies.push(copied_slot(alloc, slots.at(t))?)?;
    }
    Ok(Items::of(copies))
}

/// All pairs.
pub(crate) fn copied_pairs(
    alloc: Global,
    pairs: &Items<PairWheels>,
) -> Result<Items<PairWheels>, NoMemory>
    ensures { IfOk result (λ copies. copies ≡ pairs.now) }
{
    let mut copies = Vec::with_capacity(alloc, pairs.len())?;
    'pairs: for k in 0..pairs.len() {
        copies.push(pairs.at(k).copy())?;
    }
    Ok(Items::of(copies))
}

fn copied_slot(alloc: Global, slot: &Duo) -> Result<Duo, NoMemory>
    ensures { IfOk result (λ copy. copy ≡ slot.now) }
{
    Ok(Duo {
        first: slot.first.copy(alloc)?,
        second: slot.second.copy(alloc)?,
    })
}

/// All planes of a replica.
pub(crate) fn copied_planes(alloc: Global, planes: &Items<Plane>) -> Result<Items<Plane>, NoMemory>
    ensures { IfOk result (λ copies. copies ≡ planes.now) }
{
    let mut copies = Vec::with_capacity(alloc, planes.len())?;
    'planes: for k in 0..planes.len() {
        copies.push(copied_plane(alloc, planes.at(k))?)?;
    }
    Ok(Items::of(copies))
}

fn copied_plane(alloc: Global, plane: &Plane) -> Result<Plane, NoMemory>
    ensures { IfOk result (λ copy. copy ≡ plane.now) }
{
    Ok(Plane {
        words: Items::of(plane.words.as_slice().to_vec(alloc)?),
        wheel: plane.wheel.copy(),
    })
}
