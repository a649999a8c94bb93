//! The test of the replica labels. It takes no memory: each label is compared with those of the
//! earlier slots.

ghost use Rattle.std.specs.Prelude.{◌≡◌, ◌*◌, ◌<◌, ◌≤◌, ◌==◌, if◌then◌else◌, length};
ghost use Rattle.spin_model.specs.Limits.{most_slots};
ghost use Rattle.run_checkpoint.specs.Lengths as lengths;
ghost use Rattle.run_checkpoint.specs.Reading.{parts_in};
ghost use Rattle.run_checkpoint.specs.Tests as tests;

use crate::lengths::{replica_len, slot_len};
use crate::refused::CheckpointRefused;

// Where a label stands.
#[derive(Clone, Copy)]
struct LabelPlace {
    slot: usize,
    copy: usize,
    sample: usize,
}

// The first wrong label in the bytes of so many slots, in order of slot, replica and sample.
#[tactic(auto, unfolding(crate::specs::Tests::wrong_label))]
pub(crate) fn wrong_label(bytes: &[u8], size: u32, slots: usize) -> Option<CheckpointRefused>
    requires size { size ≤ 64 }
    requires slots { slots ≤ most_slots }
    requires len { lengths.slot_len size * slots ≤ length bytes.now }
    ensures { result ≡ tests.wrong_label slots (parts_in size slots bytes.now) }
{
    'places: for place in 0..128 * slots {
        if let Some(refused) = wrong_at(bytes, size, slots, place) {
            return Some(refused);
        }
    }
    None
}

#[tactic(auto, unfolding(crate::specs::Tests::wrong_at))]
fn wrong_at(bytes: &[u8], size: u32, slots: usize, place: usize) -> Option<CheckpointRefused>
    requires size { size ≤ 64 }
    requires slots { slots ≤ most_slots }
    requires len { lengths.slot_len size * slots ≤ length bytes.now }
    requires place { place < 128 * slots }
    ensures { result ≡ tests.wrong_at slots (parts_in size slots bytes.now) place }
{
    let place = LabelPlace {
        slot: place / 128,
        copy: place / 64 % 2,
        sample: place % 64,
    };
    if is_wrong(bytes, size, slots, place) {
        return Some(CheckpointRefused::Replicas {
            slot: place.slot as u32,
            copy: place.copy as u32,
            sample: place.sample as u32,
        });
    }
    None
}

// Whether the label is no slot's number, or an earlier slot's in its replica and sample.
fn is_wrong(bytes: &[u8], size: u32, slots: usize, place: LabelPlace) -> bool
    requires size { size ≤ 64 }
    requires slots { slots ≤ most_slots }
    requires len { lengths.slot_len size * slots ≤ length bytes.now }
    requires slot { place.slot < slots }
    requires sample { place.sample < 64 }
    ensures { result ≡ tests.is_wrong slots (parts_in size slots bytes.now) place.slot place.copy place.sample }
{
    let own = label(bytes, size, slots, place);
    if own as usize >= slots {
        return true;
    }
    'slots: for earlier in 0..place.slot {
        let other = LabelPlace {
            slot: earlier,
            copy: place.copy,
            sample: place.sample,
        };
        if label(bytes, size, slots, other) == own {
            return true;
        }
    }
    false
}

// The label at its place.
fn label(bytes: &[u8], size: u32, slots: usize, place: LabelPlace) -> u8
    requires size { size ≤ 64 }
    requires slots { slots ≤ most_slots }
    requires len { lengths.slot_len size * slots ≤ length bytes.now }
    requires slot { place.slot < slots }
    requires sample { place.sample < 64 }
    ensures { result ≡ tests.label (parts_in size slots bytes.now) place.slot place.copy place.sample }
{
    let replica = replica_place(size, place.copy);
    bytes[slot_len(size) as usize * place.slot + replica + place.sample]
}

// Where a replica begins in the bytes of its slot.
fn replica_place(size: u32, copy: usize) -> usize
    requires { size ≤ 64 }
    ensures value { result ≡ (if copy == 0 then 0 else lengths.replica_len size) }
    ensures bound { result ≤ 2128448 }
{
    if copy == 0 {
        0
    } else {
        replica_len(size) as usize
    }
}
