//! The kept states of a quench: banks of 64 disorder samples at epochs that rise, by sweeps without exchange.
#![tactic(auto)]

mod banks;
mod quench;
mod slots;
mod states;

pub use quench::Quench;
pub use states::{begin, go_on};
