//! The steps of an epoch for the packed slots of 64 disorder samples: the sweeps of a slot, which count its
//! unsatisfied bonds as they end, and the exchange of two slots by these.
#![tactic(auto)]

mod totals;
mod trading;

pub use totals::{Totals, count_totals, sweep_and_total, sweep_slot};
pub use trading::{PlanPair, exchange_slots};
