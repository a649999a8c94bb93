//! What is measured of a slot in an epoch.

ghost use Rattle.plane_sums.specs.Measured.{MeasuredIsWithin};

use crate::fields::FieldSums;

/// The numbers of 64 samples.
#[derive(Drop)]
pub struct Measured {
    /// The energies of the first replica.
    pub first_energies: [i32; 64],
    /// The energies of the second replica.
    pub second_energies: [i32; 64],
    /// The sums of the field of both.
    pub field: FieldSums,
}

/// What is measured of a run is never too great to be added. A law: the body is empty.
pub fn measured_is_within()
    ensures { MeasuredIsWithin }
{}
