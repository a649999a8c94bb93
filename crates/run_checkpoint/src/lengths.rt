//! How long checkpoints are.

ghost use Rattle.std.specs.Prelude.{◌≡◌, ◌+◌, ◌*◌, ◌<◌, ◌≤◌};
ghost use Rattle.spin_model.specs.Limits.{most_slots};
ghost use Rattle.spin_model.specs.Lattice.{IsLawfulSize};
ghost use Rattle.run_checkpoint.specs.Lengths as lengths;

/// The most bytes of a checkpoint: one of four banks of the most slots on the greatest lattice.
pub const LONGEST_CHECKPOINT: u64 = 544943596;

/// The number of bytes of a checkpoint of so many slots on the lattice of this size.
#[tactic(auto, unfolding(crate::specs::Lengths::encoding_len))]
pub fn length(size: u32, slots: u32) -> u64
    requires size { IsLawfulSize size }
    requires some { 1 ≤ slots }
    requires few { slots ≤ most_slots }
    ensures value { result ≡ lengths.encoding_len size slots }
    ensures least { 88 ≤ result }
    ensures bound { result ≤ lengths.longest_encoding }
{
    56 + contents_len(size, slots) + 32
}

/// The number of bytes of a checkpoint whose slots may be at different epochs, with so many records.
pub fn length_ragged(size: u32, slots: u32, pending: u64) -> u64
    requires size { IsLawfulSize size }
    requires some { 1 ≤ slots }
    requires few { slots ≤ most_slots }
    requires pending { pending ≤ 65536 }
    ensures value { result ≡ lengths.uneven_len size slots pending }
    ensures bound { result ≤ 137153688 }
{
    uneven_len(size, slots, pending)
}

// The number of bytes for any number of records that four bytes hold.
#[tactic(auto, unfolding(crate::specs::Lengths::uneven_len))]
pub(crate) fn uneven_len(size: u32, slots: u32, pending: u64) -> u64
    requires size { size ≤ 64 }
    requires some { 1 ≤ slots }
    requires few { slots ≤ most_slots }
    requires pending { pending < 4294967296 }
    ensures value { result ≡ lengths.uneven_len size slots pending }
    ensures bound { result ≤ 136236184 + 14 * pending }
{
    64 + 9 * slots as u64 + contents_len(size, slots) + 14 * pending + 32
}

// The bytes of the slots and of the pairs.
#[tactic(auto, unfolding(crate::specs::Lengths::contents_len))]
pub(crate) fn contents_len(size: u32, slots: u32) -> u64
    requires size { size ≤ 64 }
    requires some { 1 ≤ slots }
    requires few { slots ≤ most_slots }
    ensures value { result ≡ lengths.contents_len size slots }
    ensures bound { result ≤ 136235800 }
{
    slot_len(size) * slots as u64 + 488 * (slots as u64 - 1)
}

// The bytes of a slot.
#[tactic(auto, unfolding(crate::specs::Lengths::slot_len))]
pub(crate) fn slot_len(size: u32) -> u64
    requires { size ≤ 64 }
    ensures value { result ≡ lengths.slot_len size }
    ensures bound { result ≤ 4256896 }
{
    2 * replica_len(size)
}

// The bytes of a replica.
#[tactic(auto, unfolding(crate::specs::Lengths::replica_len))]
pub(crate) fn replica_len(size: u32) -> u64
    requires { size ≤ 64 }
    ensures value { result ≡ lengths.replica_len size }
    ensures bound { result ≤ 2128448 }
{
    64 + plane_len(size) * (2 * size as u64)
}

// The bytes of a plane.
#[tactic(auto, unfolding(crate::specs::Lengths::plane_len))]
pub(crate) fn plane_len(size: u32) -> u64
    requires { size ≤ 64 }
    ensures value { result ≡ lengths.plane_len size }
    ensures bound { result ≤ 16628 }
{
    244 + 8 * (size as u64 * (size as u64 / 2))
}
