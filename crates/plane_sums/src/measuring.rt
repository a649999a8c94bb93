//! What is measured of a slot behind the sweeps of an epoch.

ghost use Rattle.std.specs.Prelude.{◌≡◌};
ghost use Rattle.plane_sums.specs.Measured.{IsWithin, Tells};
ghost use Rattle.plane_sums.specs.Slots.{seen_in, IsSwept};

use crate::fields::{FieldRoom, FieldSums, measure_field, write_excesses};
use crate::measured::Measured;
use glass_edges::NoMemory;
use multispin_word::Planes;
use plane_sweep::Duo;
use scalar_rule::Plan;
use std::alloc::Global;
use std::marker::Model;

/// A slot behind the sweeps of an epoch: its replicas in 64 samples, and as twenty bit planes the
/// unsatisfied bonds of each, 0 to 3V for V sites.
#[derive(Clone, Copy)]
pub struct SweptSlot<'a> {
    pub plan: &'a Plan,
    pub duo: &'a Duo,
    pub first: &'a Planes<20>,
    pub second: &'a Planes<20>,
}

/// Room in which slots are measured, one after the other, 1.7 MB. Contracts see what was measured last.
#[derive(Drop)]
pub struct MeasuringRoom {
    field: FieldRoom,
    seen: Box<Measured, Global>,
}

impl Model for MeasuringRoom {
    ghost use Rattle.plane_sums.specs.declared.measured.Measured.{Measured};

    ghost Value = { Measured };

    ghost view = { λ room. room.seen.value };
}

impl MeasuringRoom {
    /// Room for any lattice.
    ///
    /// # Errors
    ///
    /// Refuses only for lack of memory.
    pub fn none(alloc: Global) -> Result<MeasuringRoom, NoMemory> {
        Ok(MeasuringRoom {
            field: FieldRoom::none(alloc)?,
            seen: Box::new(alloc, nothing())?,
        })
    }

    /// Measures a slot: in each sample both energies, the link sum, the overlap, and the correlations up
    /// to half the side. Takes no memory.
    pub fn measure(&mut self, slot: &SweptSlot)
        requires { IsSwept slot.now }
        ensures tells { Tells slot.now.plan.now.size self.new (seen_in slot.now) }
        ensures within { IsWithin slot.now.plan.now.size self.new }
    {
        measure_into(&mut self.seen, slot, &mut self.field);
    }

    /// What was measured last.
    pub fn seen(&self) -> &Measured
        ensures { result.now ≡ self.now }
    {
        &self.seen
    }
}

// All numbers 0.
fn nothing() -> Measured {
    Measured {
        first_energies: [0i32; 64],
        second_energies: [0i32; 64],
        field: FieldSums::none(),
    }
}

// Measures a slot by the sums over its planes.
fn measure_into(seen: &mut Measured, slot: &SweptSlot, room: &mut FieldRoom)
    requires { IsSwept slot.now }
    ensures tells { Tells slot.now.plan.now.size seen.new (seen_in slot.now) }
    ensures within { IsWithin slot.now.plan.now.size seen.new }
{
    let lattice = slot.plan.lattice();
    let duo = slot.duo;
    let bonds = 3 * lattice.sites();
    write_excesses(&mut seen.first_energies, slot.first, bonds);
    write_excesses(&mut seen.second_energies, slot.second, bonds);
    measure_field(&mut seen.field, &duo.first, &duo.second, lattice, room);
}
