//! The laws on what runs print and save: lawful reports, checkpoints that are read again, and runs that add up.
#![tactic(auto)]

mod laws;

pub use laws::{
    accepted_banks_are_encodings, accepted_checkpoints_are_encodings, banks_reports_are_lawful,
    changed_bytes_are_refused, encoded_states_are_read, ended_reports_are_lawful,
    lawful_runs_go_on, orders_dont_reach_checkpoints, other_plans_are_refused,
    packing_changes_nothing, parts_are_accepted, read_states_are_encoded, run_reports_are_lawful,
    runs_of_banks_add_up, samples_are_of_their_banks, samples_below_64_are_of_one_bank,
    saved_banks_are_read, saved_banks_go_on, saved_checkpoints_are_short, saved_runs_are_read,
    saved_runs_go_on, saved_stops_are_read, stopped_reports_are_lawful, stopped_runs_add_up,
    stops_of_runs_add_up, sums_save_as_runs,
};
