//! A lock over one word, whose value has progress words that every seat understands.
//!
//! Word 0 of a table of words says whether the lock is held. The words after it are the progress
//! words of the value. A worker's seat knows what it has seen of them, and which items it has in work.
#![tactic(auto)]

mod cell;
mod closing;
mod kept;
mod laws;
mod opening;
mod pass;
mod progress;
mod steps;
mod turns;
mod view;

pub use cell::TurnCell;
pub use kept::Kept;
pub use laws::{
    each_item_in_work_has_one_seat, each_number_has_one_seat, known_words_are_not_below_seen_words,
};
pub use pass::{Pass, Tried};
