//! The sums of the overlap over planes of the lattice, in 64 disorder samples.
#![tactic(auto)]

mod adding;
mod agreement;
mod classes;
mod counts;
mod distance_sums;
mod epoch_bins;
mod families;
mod fields;
mod measured;
mod measuring;
mod moments;
mod numbers;
mod overlaps;
mod products;
mod projections;
mod room;
mod slot_sums;
mod totals;

pub use adding::{add_slot, runs_have_room};
pub use epoch_bins::BinSums;
pub use fields::{FieldRoom, FieldSums, measure_field};
pub use measured::{Measured, measured_is_within};
pub use measuring::{MeasuringRoom, SweptSlot};
pub use numbers::{plane_numbers, plane_numbers_between};
pub use products::correlations;
pub use room::Planes3;
pub use slot_sums::SlotSums;
