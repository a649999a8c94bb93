//! Why the states from which a quench goes on were refused.

use glass_edges::NoMemory;
use kept_frame::KeptRefused;
use run_checkpoint::CheckpointRefused;
use std::alloc::{AllocError, AllocFailed};
use thiserror::Error;

/// Why bytes are no states from which a quench goes on. The frame is tested first, then the checkpoint of each
/// state, and then their times.
#[derive(Clone, Copy, Debug, PartialEq, Eq, Drop, Error)]
pub enum KeptStatesRefused {
    /// The frame, or the time of a state.
    #[error(transparent)]
    Kept(KeptRefused),
    /// The checkpoint of a state.
    #[error(transparent)]
    State(CheckpointRefused),
    /// There was not enough memory.
    #[error("no memory")]
    NoMemory,
}

impl From<AllocError> for KeptStatesRefused {
    ghost use Rattle.std.specs.Prelude.{◌≡◌};
    ghost use Rattle.kept_states.specs.declared.refused.KeptStatesRefused.TheVariants as refused;

    ghost from_gives = { λ _ e. e ≡ refused.NoMemory };

    fn from(_: AllocError) -> Self {
        KeptStatesRefused::NoMemory
    }
}

impl<T: Drop> From<AllocFailed<T>> for KeptStatesRefused {
    ghost use Rattle.std.specs.Prelude.{◌≡◌};
    ghost use Rattle.kept_states.specs.declared.refused.KeptStatesRefused.TheVariants as refused;

    ghost from_gives = { λ _ e. e ≡ refused.NoMemory };

    fn from(_: AllocFailed<T>) -> Self {
        KeptStatesRefused::NoMemory
    }
}
