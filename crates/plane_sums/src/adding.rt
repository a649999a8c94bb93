//! The sums of a slot, an epoch on.

ghost use Rattle.std.specs.Prelude.{◌≡◌, ℕ, ◌+◌, ◌<◌, ◌≤◌, length};
ghost use Rattle.measured_sums.specs.EpochBins.{bin_of};
ghost use Rattle.measured_sums.specs.RunningSums.{behind_epoch, RunningSums};
ghost use Rattle.plane_sums.specs.Bins.{bin_at};
ghost use Rattle.plane_sums.specs.Slots.{seen_in, HaveSums, IsSwept, RunsHaveRoom};
ghost use Rattle.spin_model.specs.Limits.{last_epoch};

use crate::measuring::{MeasuringRoom, SweptSlot};
use crate::slot_sums::SlotSums;
use scalar_rule::is_recorded;

/// Measures a slot behind the sweeps of an epoch, where the epoch is the last of each `every`, and adds
/// what it has to the slot's sums. Takes no memory.
pub fn add_slot(
    sums: &mut SlotSums,
    slot: &SweptSlot,
    every: u64,
    epoch: u64,
    room: &mut MeasuringRoom,
)
    requires every { 0 < every }
    requires epoch { epoch ≤ last_epoch }
    requires slot { IsSwept slot.now }
    requires from { sums.old.first ≤ bin_of epoch }
    requires to { bin_of epoch < sums.old.first + length sums.old.bins }
    requires few { (bin_at sums.old (bin_of epoch)).epochs < last_epoch }
    ensures added { (before : ℕ → RunningSums) → HaveSums slot.now.plan.now.size before sums.old
        → HaveSums slot.now.plan.now.size
        (λ b. behind_epoch every slot.now.plan.now.size epoch (seen_in slot.now b) (before b)) sums.new }
    ensures first { sums.new.first ≡ sums.old.first }
    ensures bins { length sums.new.bins ≡ length sums.old.bins }
{
    if is_recorded(every, epoch) {
        room.measure(slot);
        sums.add(epoch, room.seen(), slot.plan.lattice());
    }
}

/// Behind so many epochs of a run no bin is full. A law: the body is empty.
pub fn runs_have_room()
    ensures { RunsHaveRoom }
{}
