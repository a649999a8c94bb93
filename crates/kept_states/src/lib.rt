//! The states that a quench keeps, as bytes: read from them, and written as them.
#![tactic(auto)]

mod kept_reading;
mod level_reading;
mod level_room;
mod refused;
mod save_room;

pub use kept_reading::decode_kept;
pub use level_reading::{decode_level, level_length};
pub use refused::KeptStatesRefused;
pub use save_room::SaveRoom;
