//! The periodic cubic lattice: sites, coordinates, neighbours, checkerboard colours and the compact
//! order of the sites.
#![tactic(auto)]

mod lattice;

pub use lattice::{Lattice, SizeRefused};
