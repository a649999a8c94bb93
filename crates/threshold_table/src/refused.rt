//! Why a table could not be read.

use glass_edges::NoMemory;
use std::alloc::{AllocError, AllocFailed};
use thiserror::Error;

/// Why the text of a table was refused. Records and the fields of a record are counted from 0.
#[derive(Clone, Copy, Debug, PartialEq, Eq, Drop, Error)]
pub enum TableRefused {
    /// Some byte may not stand in a table, as a double quote, a tab or one above 126.
    #[error("the text is not CSV")]
    Csv,
    /// Record `at` has `found` fields, and `wanted` is the number that it should have or, in a swap
    /// table, the greatest that it may have.
    #[error("record {at} has {found} fields, not {wanted}")]
    Fields { at: u64, found: u64, wanted: u64 },
    /// What is left of the field without the spaces round it is not one to ten decimal digits.
    #[error("record {at}, field {field} is not a number")]
    Number { at: u64, field: u64 },
    /// The field's value is above 4294967296.
    #[error("record {at}, field {field} is too great: {value}")]
    TooGreat { at: u64, field: u64, value: u64 },
    /// All records are lawful, and their number is not.
    #[error("there are {found} records, not {wanted}")]
    Records { found: u64, wanted: u64 },
    /// There was not enough memory.
    #[error("no memory")]
    NoMemory,
}

impl From<NoMemory> for TableRefused {
    ghost use Rattle.std.specs.Prelude.{◌≡◌};
    ghost use Rattle.threshold_table.specs.declared.refused.TableRefused.TheVariants as refused;

    ghost from_gives = { λ _ e. e ≡ refused.NoMemory };

    fn from(_: NoMemory) -> Self {
        TableRefused::NoMemory
    }
}

impl From<AllocError> for TableRefused {
    ghost use Rattle.std.specs.Prelude.{◌≡◌};
    ghost use Rattle.threshold_table.specs.declared.refused.TableRefused.TheVariants as refused;

    ghost from_gives = { λ _ e. e ≡ refused.NoMemory };

    fn from(_: AllocError) -> Self {
        TableRefused::NoMemory
    }
}

impl<T: Drop> From<AllocFailed<T>> for TableRefused {
    ghost use Rattle.std.specs.Prelude.{◌≡◌};
    ghost use Rattle.threshold_table.specs.declared.refused.TableRefused.TheVariants as refused;

    ghost from_gives = { λ _ e. e ≡ refused.NoMemory };

    fn from(_: AllocFailed<T>) -> Self {
        TableRefused::NoMemory
    }
}
