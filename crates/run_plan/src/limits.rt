//! The limits of what a run file asks for.

/// The most spins that one run prints.
pub(crate) const MOST_SPIN_BITS: u64 = 268435456;
