//! A run and a state of it.

use crate::planned::Planned;
use plane_sweep::Stand;

/// What the files of a run say, and the state of 64 samples that a checkpoint of it holds.
#[derive(Drop)]
pub struct SavedState {
    pub planned: Planned,
    pub base: Stand,
}
