//! A run that sums up what is measured of each slot behind the sweeps of the measured epochs: banks of 64
//! disorder samples, from their states at one epoch to another, by the serial dynamics.
#![tactic(auto)]

mod bank;
mod cell;
mod course;
mod driven;
mod driving;
mod exchanging;
mod opening;
mod opening_bank;
mod room;
mod run;
mod saving;
mod step;
mod sweeping;
mod text;
mod workers;

pub use driving::drive;
pub use opening::open;
pub use run::{Done, Run};
pub use saving::save;
pub use text::{Title, write_text};
