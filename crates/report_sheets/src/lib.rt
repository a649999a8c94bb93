//! The rows of a report on their way to an output: straight, or part by part through sheets, whose texts
//! threads make side by side.
#![tactic(auto)]

mod round;
mod sheet;
mod sheets;
mod source;
mod turn;
mod writer;

pub use sheets::Sheets;
pub use source::RowSource;
pub use writer::{put_rows, put_rows_by};
