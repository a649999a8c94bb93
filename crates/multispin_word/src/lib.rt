//! Words of 64 disorder samples, one bit a sample (bit 0, the low end, is sample 0), and small
//! numbers of 64 samples in bit planes.
#![tactic(auto)]

pub use planes::Planes;
pub use word::{below, bit, broadcast, choose, joined, only, swap_masked, with_bit};

mod planes;
mod word;
