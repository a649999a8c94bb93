//! The kinds of label that generators have. A label has three parts besides its kind.

/// The sweeps of a colour in a plane: the slot, twice the replica and the colour, the plane.
pub const SWEEPS_LABEL: u32 = 1;

/// The exchanges of a temperature pair: the pair, the replica, the bank of 64 samples.
pub const EXCHANGES_LABEL: u32 = 2;

/// The couplings of a sample: its number, 0, 0.
pub const COUPLINGS_LABEL: u32 = 3;

/// The random start: the slot, the replica, the bank of 64 samples.
pub const STARTS_LABEL: u32 = 4;

/// The sweeps of a colour in a plane of the Potts glass: the colour, the plane, 0.
pub const POTTS_SWEEPS_LABEL: u32 = 5;

/// The random start of the Potts glass: 0, 0, 0.
pub const POTTS_STARTS_LABEL: u32 = 6;
