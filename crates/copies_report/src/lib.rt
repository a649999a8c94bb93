//! The text of the overlaps of four copies.
#![tactic(auto)]

mod head;
mod lines;
mod measuring;
mod numbers;
mod pairs;
mod writer;

pub use head::CopiesHead;
pub use measuring::CopiesRoom;
pub use writer::write_copies;
