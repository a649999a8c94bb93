//! The kinds of checkpoint, and what each begins with.

/// Which checkpoint of a bank is written.
#[derive(Clone, Copy, Drop)]
pub enum Kind {
    /// Of a state whose slots are all at one epoch.
    Level,
    /// Of a state whose slots may be at different epochs, of so many printed samples and of the last of each
    /// `every` epochs.
    Uneven { samples: u32, every: u64 },
}

/// That of a bank whose slots are all at one epoch.
pub(crate) const LEVEL_KIND: &[u8; 8] = b"GLASSCK1";

/// That of a bank whose slots may be at different epochs.
pub(crate) const UNEVEN_KIND: &[u8; 8] = b"GLASSCK2";

/// That of several banks.
pub(crate) const BANKS_KIND: &[u8; 8] = b"GLASSCK3";
