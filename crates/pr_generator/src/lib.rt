//! The random number generator: the shift register of Parisi and Rapuano, seeded by SHA-256.
#![tactic(auto)]

mod hashing;
mod rows;
mod seeding;
mod wheel;

pub use hashing::{add_u32, add_u64};
pub use wheel::Wheel;
