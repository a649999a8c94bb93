//! What the first line of a report says of the run.

/// The dynamics by which spins were updated.
#[derive(Clone, Copy, Debug, PartialEq, Eq)]
pub enum Rule {
    Heat,
    Metropolis,
}

/// The numbers of a report's first line.
#[derive(Clone, Copy, Debug, PartialEq, Eq)]
pub struct Header {
    /// The number of sites along an edge of the lattice, L.
    pub size: u32,
    /// The number of temperature slots.
    pub slots: u32,
    /// The number of disorder samples.
    pub samples: u32,
    /// The dynamics.
    pub rule: Rule,
    /// The epoch at which the run started.
    pub from: u64,
    /// The epoch at which it ended.
    pub to: u64,
}
