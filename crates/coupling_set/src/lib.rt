//! The couplings of 64 disorder samples: the ferromagnet, random ones, and those of a file.
#![tactic(auto)]

mod bond_words;
mod couplings;
mod couplings_file;
mod drawing;
mod file_checks;
mod file_reading;
mod file_writing;
mod refused;

pub use couplings::Couplings;
pub use couplings_file::couplings_are_their_bonds;
pub use refused::CouplingsRefused;
