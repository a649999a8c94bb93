//! Why a couplings file could not be read.

use glass_edges::NoMemory;
use std::alloc::{AllocError, AllocFailed};
use thiserror::Error;

/// Why bytes are no couplings file of a lattice. The tests are made in the order of the variants.
#[derive(Clone, Copy, Debug, PartialEq, Eq, Drop, Error)]
pub enum CouplingsRefused {
    /// There are fewer than 48 bytes.
    #[error("the couplings are too short: {len} bytes")]
    Short {
        len: u64,
    },
    /// The bytes don't begin with `GLASSCJ1`.
    #[error("the couplings are of another kind")]
    Magic,
    /// The couplings are of a lattice with another side.
    #[error("the couplings have size {found}")]
    Size {
        found: u32,
    },
    /// The number of samples is 0 or above 256.
    #[error("the couplings have {found} samples")]
    Samples {
        found: u32,
    },
    /// So many samples take `wanted` bytes.
    #[error("the couplings have {found} bytes, not {wanted}")]
    Length {
        found: u64,
        wanted: u64,
    },
    /// The last 32 bytes aren't SHA-256 of all bytes before.
    #[error("the couplings are damaged")]
    Digest {
        stored: [u8; 32],
        computed: [u8; 32],
    },
    /// There was not enough memory.
    #[error("no memory")]
    NoMemory,
}

impl From<NoMemory> for CouplingsRefused {
    ghost use Rattle.std.specs.Prelude.{◌≡◌};
    ghost use Rattle.coupling_set.specs.declared.refused.CouplingsRefused.TheVariants as refused;

    ghost from_gives = { λ _ e. e ≡ refused.NoMemory };

    fn from(_: NoMemory) -> Self {
        CouplingsRefused::NoMemory
    }
}

impl From<AllocError> for CouplingsRefused {
    ghost use Rattle.std.specs.Prelude.{◌≡◌};
    ghost use Rattle.coupling_set.specs.declared.refused.CouplingsRefused.TheVariants as refused;

    ghost from_gives = { λ _ e. e ≡ refused.NoMemory };

    fn from(_: AllocError) -> Self {
        CouplingsRefused::NoMemory
    }
}

impl<T: Drop> From<AllocFailed<T>> for CouplingsRefused {
    ghost use Rattle.std.specs.Prelude.{◌≡◌};
    ghost use Rattle.coupling_set.specs.declared.refused.CouplingsRefused.TheVariants as refused;

    ghost from_gives = { λ _ e. e ≡ refused.NoMemory };

    fn from(_: AllocFailed<T>) -> Self {
        CouplingsRefused::NoMemory
    }
}
