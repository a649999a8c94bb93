//! The lines of a report. Each goes to the output through a fixed buffer, and takes no memory.
#![tactic(auto)]

mod digits;
mod lines;
mod spin_line;
mod summary_lines;

pub use digits::spin_digit;
pub use lines::{add_row, end, header, kind_word, row};
pub use spin_line::spins;
pub use summary_lines::{slot_line, summary_header};
