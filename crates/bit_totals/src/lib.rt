//! The energy and the overlap of 64 disorder samples: their unsatisfied bonds and agreeing sites.
#![tactic(auto)]

pub use duo_sweep::sweep_duo_and_count;
pub use energy::{unsatisfied, unsatisfied_duo};
pub use overlap::{agreeing, words_of};
pub use tally::Tally;

mod bonds;
mod counted_rows;
mod duo_sweep;
mod energy;
mod lanes;
mod overlap;
mod tally;
