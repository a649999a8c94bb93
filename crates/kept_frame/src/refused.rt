//! Why the bytes of kept states were refused.

use thiserror::Error;

/// Why the bytes of kept states were refused: the frame, and then the time of a state. The causes are tested
/// in this order.
#[derive(Clone, Copy, Debug, PartialEq, Eq, Drop, Error)]
pub enum KeptRefused {
    /// There are too few bytes for a header and a digest.
    #[error("the checkpoint is too short: {len} bytes")]
    Short {
        len: u64,
    },
    /// There is no state, or there are more than the times.
    #[error("the checkpoint has {states} states, not 1 to {most}")]
    States {
        states: u32,
        most: u32,
    },
    /// The number of bytes isn't what the states ask for.
    #[error("the checkpoint has {found} bytes, not {wanted}")]
    Length {
        found: u64,
        wanted: u64,
    },
    /// The last 32 bytes aren't the digest of those before.
    #[error("the checkpoint is damaged")]
    Digest {
        stored: [u8; 32],
        computed: [u8; 32],
    },
    /// A state isn't at its time.
    #[error("the checkpoint has state {state} at epoch {epoch}, not {time}")]
    Times {
        state: u32,
        epoch: u64,
        time: u64,
    },
}
