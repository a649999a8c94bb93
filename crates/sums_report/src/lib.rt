//! The text of the sums over a run.
#![tactic(auto)]

mod head;
mod lines;
mod numbers;
mod writer;

pub use head::SumsHead;
pub use writer::{runs_have_bins, text_is_the_samples, write_sums};
