//! What a board is opened with.

use plane_sweep::RaggedStand;
use scalar_rule::Plan;
use std::alloc::Global;
use std::sync::Arc;

/// The window of a run: how far it goes, and what it records.
#[derive(Clone, Copy, Debug, PartialEq, Eq)]
pub struct Window {
    /// The epoch at which every slot ends, at most 1000000000.
    pub until: u64,
    /// Of each so many epochs the last is recorded: f where `f % every == every - 1`. 1 to
    /// 1000000000.
    pub every: u64,
    /// How many samples are recorded, from sample 0 on: 1 to 64.
    pub samples: u32,
    /// How many times slots are handed out at most, all together; at most `EVERY_TAKE`.
    pub takes: u64,
}

/// The provenance of a board: its plan, the state that it starts from, and its window.
#[derive(Drop)]
pub struct Origin {
    /// Lattice, couplings, tables and sweeps.
    pub plan: Arc<Plan, Global>,
    /// Each slot's position and content at the start, and the records that were kept.
    pub base: RaggedStand,
    pub window: Window,
}
