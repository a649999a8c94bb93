//! Where a report stands after some of its lines.

use crate::row::Row;

/// The place of a report's next line, behind its header.
#[derive(Clone, Copy, Debug, PartialEq, Eq)]
pub(crate) enum Place {
    /// Before a group of rows, whose epoch is at least this one, or before the end.
    Between { least: u64 },
    /// In the group of this epoch, before the row of this pair of a sample and a slot.
    Inside { epoch: u64, pair: u32 },
    /// Behind the end, before the spins of this replica.
    Spins { replica: u32 },
}

/// What one line changes: the place behind it, and the row that it is, if it is one.
#[derive(Clone, Copy, Debug, PartialEq, Eq)]
pub(crate) struct Step {
    pub(crate) place: Place,
    pub(crate) row: Option<Row>,
}
