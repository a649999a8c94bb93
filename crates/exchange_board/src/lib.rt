//! The exchange schedule of a run: the slots of 64 disorder samples, each handed out for the sweeps of
//! its epoch and handed back, with the exchange of a pair when the second of two partners is back, or
//! by the worker that has both.
#![tactic(auto)]

mod arrival;
mod board;
mod ended;
mod ending;
mod home;
mod job;
mod kept;
mod laws;
mod measured;
mod opening;
mod origin;
mod pair;
mod room;
mod rows;
mod trading;

pub use arrival::Arrival;
pub use board::{Board, Next, NextPair, Share};
pub use ended::{Ended, RaggedEnded};
pub use job::{Job, Swept};
pub use laws::{resumed_records_go_on, resumed_state_goes_on};
pub use origin::{Origin, Window};
pub use pair::{PairJob, PairSwept};
