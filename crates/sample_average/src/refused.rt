//! Why a report could not be read.

use std::alloc::{AllocError, AllocFailed};
use thiserror::Error;

/// Why the text of a report was refused. Lines are counted from 0.
#[derive(Clone, Copy, Debug, PartialEq, Eq, Drop, Error)]
pub enum ReportRefused {
    /// The first line for which it and those before it are the first lines of no lawful report;
    /// where there is none the text ends too soon, and this is its number of lines.
    #[error("the report is wrong at line {line}")]
    Line { line: u64 },
    /// The report is lawful, and has fewer samples than there are to be blocks.
    #[error("the report has {samples} samples, too few for {blocks} blocks")]
    Blocks { blocks: u32, samples: u32 },
    /// There was not enough memory.
    #[error("no memory")]
    NoMemory,
}

impl From<AllocError> for ReportRefused {
    ghost use Rattle.std.specs.Prelude.{◌≡◌};
    ghost use Rattle.sample_average.specs.declared.refused.ReportRefused.TheVariants as refused;

    ghost from_gives = { λ _ e. e ≡ refused.NoMemory };

    fn from(_: AllocError) -> Self {
        ReportRefused::NoMemory
    }
}

impl<T: Drop> From<AllocFailed<T>> for ReportRefused {
    ghost use Rattle.std.specs.Prelude.{◌≡◌};
    ghost use Rattle.sample_average.specs.declared.refused.ReportRefused.TheVariants as refused;

    ghost from_gives = { λ _ e. e ≡ refused.NoMemory };

    fn from(_: AllocFailed<T>) -> Self {
        ReportRefused::NoMemory
    }
}
