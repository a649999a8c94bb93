//! Aging after a quench: the overlaps of a replica's spins with those that it had after a waiting
//! time.
#![tactic(auto)]

mod aging;
mod keeping;
mod laws;
mod lines;
mod writing;

pub use aging::{Aging, open_aging};
pub use laws::text_is_of_the_states;
pub use writing::write_aging;
