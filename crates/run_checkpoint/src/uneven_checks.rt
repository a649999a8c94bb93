//! The tests of positions, orders and records.

ghost use Rattle.std.specs.Prelude.{◌≡◌, ◌*◌, ◌<◌, ◌≤◌, min, max, length, map, IfNone};
ghost use Rattle.spin_model.specs.Limits.{most_slots};
ghost use Rattle.plane_sweep.specs.Uneven.{position_of};
ghost use Rattle.run_checkpoint.specs.UnevenDecoding as model;
ghost use Rattle.spin_model.specs.Words.{one_if};
ghost use Rattle.scalar_rule.specs.Positions.{turns, done, position_in, floor_of, deepest_of, pending_count, is_pending};

use crate::places::u64_at;
use crate::refused::CheckpointRefused;
use glass_edges::u32_at;
use scalar_rule::{has_partner, has_turn, is_recorded};
use spin_model::LAST_EPOCH;

// The first slot with a wrong place, in the bytes of the positions.
#[tactic(auto, unfolding(crate::specs::UnevenDecoding::wrong_place))]
pub(crate) fn wrong_place(bytes: &[u8], slots: usize) -> Option<CheckpointRefused>
    requires slots { slots ≤ most_slots }
    requires len { 9 * slots ≤ length bytes.now }
    ensures value { result ≡ model.wrong_place slots bytes.now }
    ensures right { IfNone result (model.HasRightPlaces slots bytes.now) }
{
    'slots: for slot in 0..slots {
        if let Some(refused) = wrong_place_at(bytes, slots, slot) {
            return Some(refused);
        }
    }
    None
}

#[tactic(auto, unfolding(crate::specs::UnevenDecoding::wrong_place_at))]
fn wrong_place_at(bytes: &[u8], slots: usize, slot: usize) -> Option<CheckpointRefused>
    requires slots { slots ≤ most_slots }
    requires len { 9 * slots ≤ length bytes.now }
    requires slot { slot < slots }
    ensures { result ≡ model.wrong_place_at slots (model.epoch_in bytes.now) (model.phase_in bytes.now) slot }
{
    if is_wrong_place(bytes, slots, slot) {
        return Some(CheckpointRefused::Places { slot: slot as u32 });
    }
    None
}

#[tactic(auto, unfolding(crate::specs::UnevenDecoding::is_wrong_place))]
fn is_wrong_place(bytes: &[u8], slots: usize, slot: usize) -> bool
    requires slots { slots ≤ most_slots }
    requires len { 9 * slots ≤ length bytes.now }
    requires slot { slot < slots }
    ensures { result ≡ model.is_wrong_place slots (model.epoch_in bytes.now) (model.phase_in bytes.now) slot }
{
    let epoch = u64_at(bytes, 9 * slot);
    let phase = bytes[9 * slot + 8];
    if !(phase == 0 || phase == 2) || epoch > LAST_EPOCH {
        return true;
    }
    if phase == 2 && !has_partner(slots as u32, slot as u32, epoch) {
        return true;
    }
    if slot == 0 {
        return false;
    }
    let pair = slot - 1;
    let colder = u64_at(bytes, 9 * pair);
    turns(pair, colder) != turns(pair, epoch)
        || (bytes[9 * pair + 8] == 2
            && (phase == 2 && (colder == epoch && has_turn(pair as u32, epoch))))
}

// How many of the epochs below one are turns of the pair; no epoch is too great.
fn turns(pair: usize, epoch: u64) -> u64
    requires { pair ≤ most_slots }
    ensures { result ≡ turns pair epoch }
{
    epoch / 2 + (epoch % 2 + (pair as u64 + 1) % 2) / 2
}

// Other printed samples or recorded epochs than those asked for.
#[tactic(auto, unfolding(crate::specs::UnevenDecoding::other_orders))]
pub(crate) fn other_orders(bytes: &[u8], samples: u32, every: u64) -> Option<CheckpointRefused>
    requires { 64 ≤ length bytes.now }
    ensures { result ≡ model.other_orders samples every bytes.now }
{
    let stored_samples = u32_at(bytes, 48);
    let stored_every = u64_at(bytes, 52);
    if stored_samples == samples && stored_every == every {
        None
    } else {
        Some(CheckpointRefused::Orders {
            samples: stored_samples,
            every: stored_every,
        })
    }
}

// Another number of records than the positions ask for.
#[tactic(auto, unfolding(crate::specs::UnevenDecoding::other_count))]
pub(crate) fn other_count(
    bytes: &[u8],
    slots: usize,
    samples: u32,
    every: u64,
    count: u32,
) -> Option<CheckpointRefused>
    requires some { 1 ≤ slots }
    requires slots { slots ≤ most_slots }
    requires len { 9 * slots ≤ length bytes.now }
    requires right { model.HasRightPlaces slots bytes.now }
    requires some_samples { 1 ≤ samples }
    requires few_samples { samples ≤ 64 }
    requires every { 1 ≤ every }
    ensures { result ≡ model.other_count samples every count (model.places_in slots bytes.now) }
{
    let found = count as u64;
    let wanted = pending_count(bytes, slots, samples as usize, every);
    if found == wanted {
        None
    } else {
        Some(CheckpointRefused::Pending { found, wanted })
    }
}

// The number of records that the positions ask for. They are at most as many epochs apart as there
// are slots, however great their epochs are.
fn pending_count(bytes: &[u8], slots: usize, samples: usize, every: u64) -> u64
    requires some { 1 ≤ slots }
    requires slots { slots ≤ most_slots }
    requires len { 9 * slots ≤ length bytes.now }
    requires right { model.HasRightPlaces slots bytes.now }
    requires some_samples { 1 ≤ samples }
    requires few_samples { samples ≤ 64 }
    requires every { 1 ≤ every }
    ensures { result ≡ pending_count samples every (map position_of (model.places_in slots bytes.now)) }
{
    let floor = least_done(bytes, slots);
    let epochs = (greatest_done(bytes, slots) - floor) as usize;
    let mut count = 0u64;
    'cells: for cell in 0..epochs * samples * slots {
        count += one_if(is_pending(bytes, slots, samples, every, floor, cell));
    }
    count
}

// Whether a place in the table of epochs, samples and slots has a record.
fn is_pending(
    bytes: &[u8],
    slots: usize,
    samples: usize,
    every: u64,
    floor: u64,
    cell: usize,
) -> bool
    requires some { 1 ≤ slots }
    requires slots { slots ≤ most_slots }
    requires len { 9 * slots ≤ length bytes.now }
    requires right { model.HasRightPlaces slots bytes.now }
    requires some_samples { 1 ≤ samples }
    requires every { 1 ≤ every }
    requires floor { floor ≤ 1000000001 }
    requires cell { cell ≤ 65536 }
    ensures { result ≡ is_pending (λ t. done (position_in (map position_of (model.places_in slots bytes.now)) t)) floor samples every slots cell }
{
    let epoch = floor + (cell / slots / samples) as u64;
    is_recorded(every, epoch) && epoch < done_at(bytes, slots, cell % slots)
}

// The least number of epochs that a slot has completed.
fn least_done(bytes: &[u8], slots: usize) -> u64
    requires some { 1 ≤ slots }
    requires slots { slots ≤ most_slots }
    requires len { 9 * slots ≤ length bytes.now }
    requires right { model.HasRightPlaces slots bytes.now }
    ensures { result ≡ floor_of (map position_of (model.places_in slots bytes.now)) }
{
    let mut least = done_at(bytes, slots, 0);
    'slots: for slot in 0..slots {
        least = lesser(least, done_at(bytes, slots, slot));
    }
    least
}

// The greatest number of epochs that a slot has completed.
pub(crate) fn greatest_done(bytes: &[u8], slots: usize) -> u64
    requires some { 1 ≤ slots }
    requires slots { slots ≤ most_slots }
    requires len { 9 * slots ≤ length bytes.now }
    requires right { model.HasRightPlaces slots bytes.now }
    ensures { result ≡ deepest_of (map position_of (model.places_in slots bytes.now)) }
{
    let mut greatest = done_at(bytes, slots, 0);
    'slots: for slot in 0..slots {
        greatest = greater(greatest, done_at(bytes, slots, slot));
    }
    greatest
}

// How many epochs a slot has completed.
fn done_at(bytes: &[u8], slots: usize, slot: usize) -> u64
    requires slots { slots ≤ most_slots }
    requires len { 9 * slots ≤ length bytes.now }
    requires right { model.HasRightPlaces slots bytes.now }
    requires slot { slot < slots }
    ensures value { result ≡ done (position_in (map position_of (model.places_in slots bytes.now)) slot) }
    ensures bound { result ≤ 1000000001 }
{
    u64_at(bytes, 9 * slot) + one_if(bytes[9 * slot + 8] == 2)
}

fn one_if(test: bool) -> u64
    ensures value { result ≡ one_if test }
    ensures bound { result ≤ 1 }
{
    if test { 1 } else { 0 }
}

fn lesser(a: u64, b: u64) -> u64
    ensures { result ≡ min a b }
{
    if a < b { a } else { b }
}

fn greater(a: u64, b: u64) -> u64
    ensures { result ≡ max a b }
{
    if a < b { b } else { a }
}
