//! Checkpoints: the state of a run as bytes that end with their digest, written and read exactly.
#![tactic(auto)]

mod bank_decoding;
mod checks;
mod decoding;
mod encoding;
mod kinds;
mod labels;
mod laws;
mod lengths;
mod places;
mod reading;
mod refused;
mod room;
mod uneven_checks;
mod uneven_decoding;
mod unfilled;

pub use bank_decoding::decode_banks;
pub use decoding::decode;
pub use encoding::{begin_banks, encode, end_banks};
pub use kinds::Kind;
pub use laws::{banks_encoding_is_one, encoding_is_one, uneven_encoding_is_one};
pub use lengths::{LONGEST_CHECKPOINT, length, length_ragged};
pub use refused::CheckpointRefused;
pub use room::Room;
pub use uneven_decoding::decode_any;
