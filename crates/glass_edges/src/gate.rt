//! The hook at the start of an epoch's work.

/// A hook that a worker calls between taking a temperature slot and sweeping it. It promises
/// nothing; a test can make workers wait for one another in it.
pub trait Gate {
    /// Called by the worker that has taken the slot for the epoch; no clause counts the calls.
    fn enter(&self, slot: u32, epoch: u64);
}

/// The hook that returns at once.
#[derive(Clone, Copy, Debug, PartialEq, Eq)]
pub struct OpenGate;

impl Gate for OpenGate {
    fn enter(&self, _slot: u32, _epoch: u64) {}
}
