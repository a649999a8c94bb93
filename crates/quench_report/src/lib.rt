//! The text of a quench.
#![tactic(auto)]

mod head;
mod lines;
mod measuring;
mod pairs;
mod writer;

pub use head::QuenchHead;
pub use measuring::QuenchRoom;
pub use writer::{text_is_the_samples, write_quench};
