//! Why a run file or a run was refused.

use crate::key::Key;
use crate::texts::KeyText;
use glass_edges::NoMemory;
use thiserror::Error;

/// Why a run file was refused, or what it orders.
#[derive(Debug, Drop, Error)]
pub enum PlanRefused {
    /// The bytes are no TOML document.
    #[error("the run file is not TOML")]
    Toml,
    /// The key isn't there.
    #[error("key {key} is missing")]
    Missing { key: Key },
    /// The key's value is of another kind than its row asks for.
    #[error("key {key} has the wrong kind")]
    Kind { key: Key },
    /// The key's integer isn't lawful.
    #[error("key {key} is out of range: {value}")]
    Range { key: Key, value: i64 },
    /// The key's text isn't lawful.
    #[error("key {key} has an unknown word")]
    Word { key: Key },
    /// A key that a run file doesn't have, the first in the order of bytes.
    #[error("unknown key {key}")]
    Unknown { key: KeyText },
    /// The run would have more rows than are allowed.
    #[error("too many rows: {count}")]
    Rows { count: u64 },
    /// The run would print more spins than are allowed.
    #[error("too many spin bits: {bits}")]
    Spins { bits: u64 },
    /// There was not enough memory.
    #[error("no memory")]
    NoMemory,
    /// The command runs one bank of samples, and there are more.
    #[error("this command needs at most 64 samples, not {samples}")]
    Banks { samples: u32 },
}

impl From<NoMemory> for PlanRefused {
    ghost use Rattle.std.specs.Prelude.{◌≡◌};
    ghost use Rattle.run_plan.specs.declared.refused.PlanRefused.TheVariants as refused;

    ghost from_gives = { λ _ e. e ≡ refused.NoMemory };

    fn from(_: NoMemory) -> Self {
        PlanRefused::NoMemory
    }
}
