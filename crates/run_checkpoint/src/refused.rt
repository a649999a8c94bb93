//! Why a checkpoint was refused.

use glass_edges::NoMemory;
use thiserror::Error;

/// Why the bytes of a checkpoint were refused. The causes are tested in the order that
/// docs/specification/checkpoint.md states.
#[derive(Clone, Copy, Debug, PartialEq, Eq, Drop, Error)]
pub enum CheckpointRefused {
    /// There are too few bytes for a header and a digest.
    #[error("the checkpoint is too short: {len} bytes")]
    Short {
        len: u64,
    },
    /// The first eight bytes are those of no kind that is read here.
    #[error("the checkpoint is of another kind")]
    Magic,
    /// The size or the number of slots isn't the plan's; both as stored.
    #[error("the checkpoint has size {size} and {slots} slots")]
    Shape {
        size: u32,
        slots: u32,
    },
    /// The number of bytes isn't what the shape asks for.
    #[error("the checkpoint has {found} bytes, not {wanted}")]
    Length {
        found: u64,
        wanted: u64,
    },
    /// The last 32 bytes aren't the digest of those before.
    #[error("the checkpoint is damaged")]
    Digest {
        stored: [u8; 32],
        computed: [u8; 32],
    },
    /// The stored digest of the plan isn't the plan's.
    #[error("the checkpoint is of another plan")]
    OtherPlan {
        stored: [u8; 32],
        mine: [u8; 32],
    },
    /// A replica label is no slot's number, or that of an earlier slot in its replica and sample.
    #[error("the checkpoint has a wrong replica at slot {slot}, copy {copy}, sample {sample}")]
    Replicas {
        slot: u32,
        copy: u32,
        sample: u32,
    },
    /// The epoch is past the last one wanted.
    #[error("the checkpoint is at epoch {epoch}, past {until}")]
    Late {
        epoch: u64,
        until: u64,
    },
    /// There was not enough memory.
    #[error("no memory")]
    NoMemory,
    /// The first slot whose position isn't in step with the others.
    #[error("the checkpoint has a wrong place at slot {slot}")]
    Places {
        slot: u32,
    },
    /// The stored samples and recorded epochs aren't those that were asked for.
    #[error("the checkpoint is of samples={samples} every={every}")]
    Orders {
        samples: u32,
        every: u64,
    },
    /// The number of records that are kept ahead isn't what the positions ask for.
    #[error("the checkpoint has {found} pending records, not {wanted}")]
    Pending {
        found: u64,
        wanted: u64,
    },
    /// The stored number of banks isn't that of the plans.
    #[error("the checkpoint has {found} banks, not {wanted}")]
    BankCount {
        found: u32,
        wanted: u32,
    },
    /// A bank is at another epoch than the first one.
    #[error("the checkpoint has bank {bank} at epoch {epoch}, not {first}")]
    BankEpoch {
        bank: u32,
        epoch: u64,
        first: u64,
    },
}

impl From<NoMemory> for CheckpointRefused {
    ghost use Rattle.std.specs.Prelude.{◌≡◌};
    ghost use Rattle.run_checkpoint.specs.declared.refused.CheckpointRefused.TheVariants as refused;

    ghost from_gives = { λ _ e. e ≡ refused.NoMemory };

    fn from(_: NoMemory) -> Self {
        CheckpointRefused::NoMemory
    }
}
