//! The words of the command line: the command that they ask for, or none.
#![tactic(auto)]

mod age_words;
mod average_words;
mod command_line;
mod correlation_words;
mod cross_words;
mod measure_words;
mod potts_words;
mod run_words;
mod words;

pub use age_words::AgeOrder;
pub use average_words::AverageOrder;
pub use command_line::{Command, PlainOrder, read_words};
pub use correlation_words::LinesOrder;
pub use cross_words::CrossOrder;
pub use measure_words::MeasureOrder;
pub use potts_words::{PottsCouplings, PottsOrder};
pub use run_words::RunOrder;
