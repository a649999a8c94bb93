//! What a quench prints of a state, and of a state and an earlier one, in 64 disorder samples.
#![tactic(auto)]

mod excesses;
mod fields;
mod pair;
mod state;

pub use pair::PairSums;
pub use state::StateSums;
