//! The definitions of the model, which the crates above cite, their laws, and the program's limits
//! and kinds of label.
#![tactic(auto)]

mod labels;
mod laws;
mod limits;

pub use labels::{
    COUPLINGS_LABEL, EXCHANGES_LABEL, POTTS_STARTS_LABEL, POTTS_SWEEPS_LABEL, STARTS_LABEL,
    SWEEPS_LABEL,
};
pub use laws::{
    advancing_adds_up, draws_of_advanced, neighbours_have_other_colour, state_is_window,
    stream_is_recurrence,
};
pub use limits::{
    BANK_SAMPLES, CERTAIN, EVERY_TAKE, GREATEST_DEMO, GREATEST_HALF_PLANE, LAST_EPOCH, MOST_ROWS,
    MOST_SAMPLES, MOST_SLOTS, MOST_SWEEPS, is_lawful_size,
};
