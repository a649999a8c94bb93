//! The sums of each two copies of the slots of two states, in 64 samples.

ghost use Rattle.std.specs.Prelude.{◌≡◌, ◌+◌, ◌*◌, ◌<◌, ◌≤◌, ℕ, IfOk, length};
ghost use Rattle.copies_report.specs.Held.{held_at, HoldCopies, HoldSlot};
ghost use Rattle.copies_report.specs.States.{HasSlots};
ghost use Rattle.plane_sweep.specs.Packed.{FitsDuo};

use crate::pairs::{PAIRS, pair_at, replica_among};
use glass_edges::NoMemory;
use lattice_geometry::Lattice;
use plain_list::Items;
use plane_sums::{FieldRoom, FieldSums, measure_field};
use plane_sweep::{Duo, Stand};
use std::alloc::Global;
use std::marker::Model;

/// Room in which the copies of two states are measured, 0.2 MB for each slot and 1.7 MB. Contracts see the
/// sums, those of each two copies of a slot behind those of the slot before.
#[derive(Drop)]
pub struct CopiesRoom {
    field: FieldRoom,
    sums: Items<FieldSums>,
}

impl Model for CopiesRoom {
    ghost use Rattle.std.specs.Prelude.{List};
    ghost use Rattle.plane_sums.specs.declared.fields.FieldSums.{FieldSums};

    ghost Value = { List FieldSums };

    ghost view = { λ room. room.sums };
}

impl CopiesRoom {
    /// Room for so many slots.
    ///
    /// # Errors
    ///
    /// Refuses only for lack of memory.
    pub fn none(alloc: Global, slots: u32) -> Result<CopiesRoom, NoMemory>
        requires { slots ≤ 32 }
        ensures { IfOk result (λ room. length room ≡ 6 * slots) }
    {
        Ok(CopiesRoom {
            field: FieldRoom::none(alloc)?,
            sums: empty_sums(alloc, PAIRS * slots as usize)?,
        })
    }

    /// Measures each two copies of each slot. Takes no memory.
    pub(crate) fn measure(&mut self, first: &Stand, second: &Stand, lattice: Lattice, slots: u32)
        requires few { slots ≤ 32 }
        requires first { HasSlots lattice slots first.now }
        requires second { HasSlots lattice slots second.now }
        requires room { 6 * slots ≤ length self.old }
        ensures held { HoldCopies lattice first.now.slots second.now.slots self.new slots }
        ensures long { length self.new ≡ length self.old }
    {
        let sums = &mut self.sums;
        measure_slots(sums, first, second, lattice, slots, &mut self.field);
    }

    /// The sums of two copies of a slot.
    pub(crate) fn sums_at(&self, slot: usize, pair: usize) -> &FieldSums
        requires slot { slot < 32 }
        requires pair { pair < PAIRS }
        requires within { 6 * slot + pair < length self.now }
        ensures { result.now ≡ held_at self.now slot pair }
    {
        self.sums.at(PAIRS * slot + pair)
    }
}

// As many sums, all of them 0.
fn empty_sums(alloc: Global, count: usize) -> Result<Items<FieldSums>, NoMemory>
    requires { count ≤ 192 }
    ensures { IfOk result (λ sums. length sums ≡ count) }
{
    let mut sums = Vec::with_capacity(alloc, count)?;
    'sums: for made in 0..count {
        sums.push(FieldSums::none())?;
    }
    Ok(Items::of(sums))
}

// Measures each two copies of each slot.
fn measure_slots(
    sums: &mut Items<FieldSums>,
    first: &Stand,
    second: &Stand,
    lattice: Lattice,
    slots: u32,
    room: &mut FieldRoom,
)
    requires few { slots ≤ 32 }
    requires first { HasSlots lattice slots first.now }
    requires second { HasSlots lattice slots second.now }
    requires room { 6 * slots ≤ length sums.old }
    ensures held { HoldCopies lattice first.now.slots second.now.slots sums.new slots }
    ensures long { length sums.new ≡ length sums.old }
{
    'slots: for t in 0..slots as usize {
        let copies = SlotCopies {
            first: first.slots.at(t),
            second: second.slots.at(t),
        };
        measure_slot(sums, copies, lattice, t, room);
    }
}

// A slot of the first state and of the second.
#[derive(Clone, Copy)]
struct SlotCopies<'a> {
    first: &'a Duo,
    second: &'a Duo,
}

// Measures each two copies of a slot.
fn measure_slot(
    sums: &mut Items<FieldSums>,
    copies: SlotCopies,
    lattice: Lattice,
    slot: usize,
    room: &mut FieldRoom,
)
    requires first { FitsDuo lattice copies.first.now }
    requires second { FitsDuo lattice copies.second.now }
    requires slot { slot < 32 }
    requires room { 6 * slot + 6 ≤ length sums.old }
    ensures held { HoldSlot lattice copies.entry.first.now copies.entry.second.now sums.new slot 6 }
    ensures before { (k : ℕ) (p : ℕ) → k < slot → p < 6 → held_at sums.new k p ≡ held_at sums.old k p }
    ensures long { length sums.new ≡ length sums.old }
{
    'pairs: for p in 0..PAIRS {
        let pair = pair_at(p);
        let one = replica_among(copies.first, copies.second, pair.one);
        let other = replica_among(copies.first, copies.second, pair.other);
        measure_field(sums.at_mut(PAIRS * slot + p), one, other, lattice, room);
    }
}
