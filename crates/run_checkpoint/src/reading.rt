//! A packed state is filled with what bytes say that passed the tests. No memory is taken.

ghost use Rattle.std.specs.Prelude.{◌≡◌, ◌+◌, ◌-◌, ◌*◌, ◌<◌, ◌≤◌, All, length, take};
ghost use Rattle.spin_model.specs.Limits.{most_slots};
ghost use Rattle.run_checkpoint.specs.Lengths as lengths;
ghost use Rattle.run_checkpoint.specs.UnevenDecoding as uneven;
ghost use Rattle.run_checkpoint.specs.Unfilled.{HasWords, HasPlanes, HasReplicas};
ghost use Rattle.run_checkpoint.specs.Reading.{words_at, items_at, plane_in, replica_in, slot_in, pair_in, slots_in, pairs_in};

use crate::lengths::{plane_len, replica_len, slot_len};
use crate::places::{behind, i32_at, piece, u64_at};
use byteorder::{BigEndian, ByteOrder};
use plain_list::Items;
use plane_sweep::{Duo, PairWheels, Place, Plane, Replica};
use pr_generator::Wheel;
use scalar_rule::Record;

// Fills a state of so many slots with what bytes say that passed the tests.
pub(crate) fn fill_contents(
    slots: &mut Items<Duo>,
    pairs: &mut Items<PairWheels>,
    size: u32,
    count: u32,
    bytes: &[u8],
)
    requires size { size ≤ 64 }
    requires some { 1 ≤ count }
    requires few { count ≤ most_slots }
    requires count { length slots.old ≡ count }
    requires rooms { All (HasReplicas size) slots.old }
    requires pairs { length pairs.old ≡ count - 1 }
    requires len { lengths.slot_len size * count + 488 * (count - 1) ≤ length bytes.now }
    ensures slots { slots.new ≡ slots_in size count bytes.now }
    ensures pairs { pairs.new ≡ pairs_in size count bytes.now }
{
    fill_slots(slots, size, count, bytes);
    fill_pairs(pairs, size, count, bytes);
}

#[tactic(auto, unfolding(crate::specs::Reading::slots_in))]
fn fill_slots(slots: &mut Items<Duo>, size: u32, count: u32, bytes: &[u8])
    requires size { size ≤ 64 }
    requires few { count ≤ most_slots }
    requires count { length slots.old ≡ count }
    requires rooms { All (HasReplicas size) slots.old }
    requires len { lengths.slot_len size * count ≤ length bytes.now }
    ensures { slots.new ≡ slots_in size count bytes.now }
{
    let len = slot_len(size) as usize;
    'slots: for t in 0..count as usize {
        fill_slot(slots.at_mut(t), size, behind(bytes, len * t));
    }
}

// The pairs behind that many slots.
#[tactic(auto, unfolding(crate::specs::Reading::pairs_in))]
fn fill_pairs(pairs: &mut Items<PairWheels>, size: u32, count: u32, bytes: &[u8])
    requires size { size ≤ 64 }
    requires some { 1 ≤ count }
    requires few { count ≤ most_slots }
    requires count { length pairs.old ≡ count - 1 }
    requires len { lengths.slot_len size * count + 488 * (count - 1) ≤ length bytes.now }
    ensures { pairs.new ≡ pairs_in size count bytes.now }
{
    let rest = behind(bytes, slot_len(size) as usize * count as usize);
    'pairs: for k in 0..count as usize - 1 {
        *pairs.at_mut(k) = pair_of(behind(rest, 488 * k));
    }
}

#[tactic(auto, unfolding(crate::specs::Reading::pair_in))]
fn pair_of(bytes: &[u8]) -> PairWheels
    requires { 488 ≤ length bytes.now }
    ensures { result ≡ pair_in bytes.now }
{
    PairWheels {
        first: generator_of(piece(bytes, 0, 244)),
        second: generator_of(piece(bytes, 244, 244)),
    }
}

#[tactic(auto, unfolding(crate::specs::Reading::slot_in, crate::specs::Lengths::slot_len))]
fn fill_slot(slot: &mut Duo, size: u32, bytes: &[u8])
    requires size { size ≤ 64 }
    requires room { HasReplicas size slot.old }
    requires len { lengths.slot_len size ≤ length bytes.now }
    ensures { slot.new ≡ slot_in size bytes.now }
{
    fill_replica(&mut slot.first, size, bytes);
    fill_replica(
        &mut slot.second,
        size,
        behind(bytes, replica_len(size) as usize),
    );
}

#[tactic(auto, unfolding(crate::specs::Reading::replica_in, crate::specs::Lengths::replica_len))]
fn fill_replica(replica: &mut Replica, size: u32, bytes: &[u8])
    requires size { size ≤ 64 }
    requires room { HasPlanes size replica.old }
    requires len { lengths.replica_len size ≤ length bytes.now }
    ensures { replica.new ≡ replica_in size bytes.now }
{
    fill_planes(&mut replica.planes, size, behind(bytes, 64));
    replica.labels = labels_of(bytes);
}

fn labels_of(bytes: &[u8]) -> [u8; 64]
    requires { 64 ≤ length bytes.now }
    ensures { result ≡ take 64 bytes.now }
{
    let mut labels = [0u8; 64];
    labels.copy_from_slice(&bytes[..64]);
    labels
}

fn fill_planes(planes: &mut Items<Plane>, size: u32, bytes: &[u8])
    requires size { size ≤ 64 }
    requires count { length planes.old ≡ 2 * size }
    requires rooms { All (HasWords size) planes.old }
    requires len { lengths.plane_len size * (2 * size) ≤ length bytes.now }
    ensures { planes.new ≡ items_at (plane_in size) (lengths.plane_len size) (2 * size) bytes.now }
{
    let len = plane_len(size) as usize;
    'planes: for k in 0..2 * size as usize {
        fill_plane(planes.at_mut(k), size, behind(bytes, len * k));
    }
}

#[tactic(auto, unfolding(crate::specs::Reading::plane_in, crate::specs::Lengths::plane_len))]
fn fill_plane(plane: &mut Plane, size: u32, bytes: &[u8])
    requires size { size ≤ 64 }
    requires room { HasWords size plane.old }
    requires len { lengths.plane_len size ≤ length bytes.now }
    ensures { plane.new ≡ plane_in size bytes.now }
{
    let sites = size as usize * (size as usize / 2);
    fill_words(&mut plane.words, sites, piece(bytes, 244, 8 * sites));
    plane.wheel = generator_of(piece(bytes, 0, 244));
}

fn fill_words(words: &mut Items<u64>, count: usize, bytes: &[u8])
    requires count { length words.old ≡ count }
    requires len { length bytes.now ≡ 8 * count }
    ensures { words.new ≡ words_at 8 count bytes.now }
{
    BigEndian::read_u64_into(bytes, words.as_mut_slice());
}

fn generator_of(bytes: &[u8]) -> Wheel
    requires { length bytes.now ≡ 244 }
    ensures { result ≡ words_at 4 61 bytes.now }
{
    let mut words = [0u32; 61];
    BigEndian::read_u32_into(bytes, &mut words);
    Wheel::from_words(&words)
}

// The positions of the slots.
#[tactic(auto, unfolding(crate::specs::UnevenDecoding::places_in))]
pub(crate) fn fill_places(places: &mut Items<Place>, count: usize, bytes: &[u8])
    requires few { count ≤ most_slots }
    requires count { length places.old ≡ count }
    requires len { 9 * count ≤ length bytes.now }
    ensures { places.new ≡ uneven.places_in count bytes.now }
{
    'places: for t in 0..count {
        *places.at_mut(t) = place_of(behind(bytes, 9 * t));
    }
}

#[tactic(auto, unfolding(crate::specs::UnevenDecoding::place_in))]
fn place_of(bytes: &[u8]) -> Place
    requires { 9 ≤ length bytes.now }
    ensures { result ≡ uneven.place_in bytes.now }
{
    Place {
        epoch: u64_at(bytes, 0),
        arrived: bytes[8] == 2,
    }
}

// The records.
#[tactic(auto, unfolding(crate::specs::UnevenDecoding::records_in))]
pub(crate) fn fill_records(records: &mut Items<Record>, count: usize, bytes: &[u8])
    requires few { count < 4294967296 }
    requires count { length records.old ≡ count }
    requires len { 14 * count ≤ length bytes.now }
    ensures { records.new ≡ uneven.records_in count bytes.now }
{
    'records: for i in 0..count {
        *records.at_mut(i) = record_of(behind(bytes, 14 * i));
    }
}

#[tactic(auto, unfolding(crate::specs::UnevenDecoding::record_in))]
fn record_of(bytes: &[u8]) -> Record
    requires { 14 ≤ length bytes.now }
    ensures { result ≡ uneven.record_in bytes.now }
{
    Record {
        first_energy: i32_at(bytes, 0),
        second_energy: i32_at(bytes, 4),
        overlap: i32_at(bytes, 8),
        first_replica: bytes[12],
        second_replica: bytes[13],
    }
}
