//! The four-state Potts glass for 64 disorder samples at once, on the words, counts and generators
//! of the spin glass.
#![tactic(auto)]

mod beside;
mod energy;
mod fours;
mod potts;
mod report;
mod start;
mod surroundings;
mod sweeping;
mod update;

pub use potts::Potts;
pub use report::write_potts;
pub use start::PottsStart;
pub use update::{PottsRow, potts_update};
