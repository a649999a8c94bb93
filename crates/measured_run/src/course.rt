//! The way of a run.

/// The epoch from which a run goes, of how many epochs the last is measured, and the epoch to which it goes.
#[derive(Clone, Copy)]
pub(crate) struct Course {
    pub(crate) from: u64,
    pub(crate) every: u64,
    pub(crate) until: u64,
}
