//! The serial dynamics of one disorder sample, one spin at a time.
#![tactic(auto)]

mod bonds;
mod epoch;
mod exchange;
mod laws;
mod neighbours;
mod opening;
mod plain;
mod plain_copy;
mod plan;
mod planes;
mod sample;
mod spin_rule;
mod sums;
mod sweeps;
mod turns;

pub use laws::{
    completed_slots_rest, energies_have_one_parity, level_end_is_serial,
    level_generators_are_serial, level_records_are_serial, level_start_is_serial,
    level_start_waits, pending_records_are_few, reached_end_is_same, reached_generators_go_on,
    reached_records_go_on, reached_state_goes_on, reached_state_waits, recorded_epochs_are_counted,
    records_go_on, resuming_goes_on, steps_are_short, words_stay_same,
};
pub use plain::{PlainOut, plain_run};
pub use plain_copy::PlainCopy;
pub use plan::Plan;
pub use sample::{Beginning, PlainPair, PlainSlot, Record, Sample, Start};
pub use sums::{agreeing, excess, unsatisfied};
pub use sweeps::{half_sweep, sweep};
pub use turns::{has_partner, has_turn, is_recorded, recorded_epochs};
