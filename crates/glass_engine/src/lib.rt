//! The engine of a run: it is opened with all its memory, driven to its end, and reported.
#![tactic(auto)]

mod bank_opening;
mod done;
mod driving;
mod laws;
mod opening;
mod placing;
mod report;
mod rows;
mod run;
mod saving;
mod summary;
mod workers;

pub use bank_opening::open_banks;
pub use done::Done;
pub use driving::drive;
pub use laws::{
    banks_checkpoint_is_serial, banks_report_is_serial, level_checkpoint_is_serial,
    level_report_is_serial, level_run_is_serial, samples_below_64_are_of_bank_0,
    unstopped_run_is_whole, whole_checkpoint_is_the_rules,
};
pub use opening::open;
pub use placing::save;
pub use report::print_report;
pub use run::{Run, SaveKind};
pub use summary::write_summary;
