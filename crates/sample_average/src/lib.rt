//! Sums over the rows of a report, from which a jackknife gives error bars. A report is read and
//! tested line by line; of each temperature slot the sums are taken over all its rows, and over all
//! but those of each block of samples.
#![tactic(auto)]

mod averages;
mod digits;
mod header;
mod header_line;
mod laws;
mod next_line;
mod place;
mod reading;
mod refused;
mod row;
mod row_line;
mod scan;
mod sums;
mod tally;
mod text;

pub use averages::Averages;
pub use header::{Header, Rule};
pub use laws::averages_are_of_the_report;
pub use reading::{MOST_REPORT_BYTES, read_report};
pub use refused::ReportRefused;
pub use row::Row;
pub use sums::Sums;
pub use text::write_averages;
