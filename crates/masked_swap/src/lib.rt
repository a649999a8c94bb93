//! The replica exchange of a pair of temperature slots in 64 disorder samples: which samples swap,
//! and the swap.
#![tactic(auto)]

pub use decision::decide;
pub use trade::exchange;

mod decision;
mod trade;
