//! Link overlaps and correlation lines of the two replicas of a temperature slot, in 64 disorder samples
//! at once.
#![tactic(auto)]

pub use counting::{agreeing_bonds, agreeing_bonds_between, agreeing_line};
pub use printing::write_lines;

mod counting;
mod printing;
mod shifting;
mod slots;
mod turning;
