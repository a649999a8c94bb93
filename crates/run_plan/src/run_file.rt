//! What a run file says.

use crate::texts::NameText;
use lattice_geometry::Lattice;
use scalar_rule::Start;
use threshold_table::RuleKind;

/// Where the couplings of a run come from.
#[derive(Debug, Drop)]
pub enum CouplingSource {
    /// Every J is +1, the ferromagnet.
    Plus,
    /// Each J is +1 or -1 with equal probability, by the generators of the seed.
    Random,
    /// The couplings file of this name.
    File(NameText),
}

/// How long a run is, what it prints and how its spins begin. No part of the physics, and of the
/// plan's digest, is among the orders.
#[derive(Clone, Copy, Debug, PartialEq, Eq)]
pub struct Orders {
    /// How many disorder samples are printed, 1 to 256.
    pub samples: u32,
    /// The epoch at which the run ends, at most 1000000000.
    pub epochs: u64,
    /// Each so many-th epoch is printed, from 1 to 1000000000.
    pub every: u64,
    /// How the spins begin.
    pub start: Start,
    /// Whether the last spins are printed.
    pub spins: bool,
}

/// What a run file says.
#[derive(Drop)]
pub struct RunFile {
    pub lattice: Lattice,
    /// The dynamics that the rule table is for.
    pub kind: RuleKind,
    /// The name of the rule table.
    pub rules: NameText,
    /// The name of the swap table.
    pub swaps: NameText,
    pub couplings: CouplingSource,
    /// The sweeps of an epoch, 1 to 1000000.
    pub sweeps: u32,
    /// The seed, at most 2^63 - 1.
    pub seed: u64,
    pub orders: Orders,
}
