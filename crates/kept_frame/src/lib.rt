//! The bytes of kept states: a frame around the checkpoints of one quench, written and tested.
#![tactic(auto)]

mod frame;
mod places;
mod refused;
mod room;

pub use frame::frame_refusal;
pub use places::{are_kept, kept_count, state_bytes};
pub use refused::KeptRefused;
pub use room::{KeptRoom, LONGEST_KEPT, kept_length};

#[cfg(test)]
mod tests;
