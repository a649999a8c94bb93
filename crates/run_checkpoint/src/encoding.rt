//! Writing of a checkpoint into a reserved buffer. Takes no memory.

ghost use Rattle.std.specs.Prelude.{◌≡◌, ◌+◌, ◌*◌, ◌<◌, ◌≤◌, [], ◌++◌, All, length, map};
ghost use Rattle.std.specs.List.{flat_map};
ghost use Rattle.plane_sweep.specs.Uneven.{position_of, FitsRecord};
ghost use Rattle.run_checkpoint.specs.BankEncoding.{banks_header};
ghost use Rattle.run_checkpoint.specs.Kinds as model;
ghost use Rattle.run_checkpoint.specs.Lengths.{standing_len};
ghost use Rattle.run_checkpoint.specs.PackedBytes as packed;
ghost use Rattle.run_checkpoint.specs.Rooms.{Puts};
ghost use Rattle.run_checkpoint.specs.Encoding.{standing_of, bank_of, FitsKind};
ghost use Rattle.scalar_rule.specs.Plan.{slots_of};
ghost use Rattle.spin_model.specs.Words.{words_32};

use crate::kinds::{BANKS_KIND, Kind, LEVEL_KIND, UNEVEN_KIND};
use crate::room::Room;
use plain_list::Items;
use plane_sweep::{Duo, PairWheels, Place, Plane, RaggedStand, Replica};
use pr_generator::Wheel;
use run_plan::digest;
use scalar_rule::{Plan, Record};

/// Writes the checkpoint of a bank, of the states that a packed state stands for, behind the bytes of a
/// buffer. Takes no memory.
pub fn encode(kind: &Kind, stand: &RaggedStand, plan: &Plan, room: &mut Room)
    requires fits { FitsKind kind.now plan.now stand.now }
    requires spare { standing_len plan.now (standing_of kind.now stand.now) ≤ room.old.spare }
    ensures bytes { room.new.bytes ≡ room.old.bytes ++ model.bank_encoding plan.now (bank_of kind.now plan.now stand.now) }
    ensures spare { room.new.spare + standing_len plan.now (standing_of kind.now stand.now) ≡ room.old.spare }
{
    // A plan has a slot, and its size is that of a lattice.
    let _ = plan.lattice();
    let start = room.bytes().len();
    put_header(kind, stand, plan, room);
    put_contents(&stand.slots, &stand.pairs, room);
    // A state at one epoch keeps none.
    put_records(stand.pending.as_slice(), room);
    room.seal(start);
}

/// Begins the checkpoint of so many banks in an empty buffer; the checkpoint of each bank follows.
/// Takes no memory.
#[tactic(auto, unfolding(crate::specs::BankEncoding::banks_header))]
pub fn begin_banks(count: u32, room: &mut Room)
    requires several { 2 ≤ count }
    requires few { count ≤ 4 }
    requires empty { room.old.bytes ≡ [] }
    requires spare { 12 ≤ room.old.spare }
    ensures bytes { room.new.bytes ≡ banks_header count }
    ensures spare { room.new.spare + 12 ≡ room.old.spare }
{
    room.put(BANKS_KIND);
    room.put_u32(count);
}

/// Ends the checkpoint with the digest of all bytes. Takes no memory.
#[tactic(auto, unfolding(crate::specs::Kinds::sealed))]
pub fn end_banks(room: &mut Room)
    requires { 32 ≤ room.old.spare }
    ensures bytes { room.new.bytes ≡ model.sealed room.old.bytes }
    ensures spare { room.new.spare + 32 ≡ room.old.spare }
{
    room.seal(0);
}

// Puts the letters, the plan's digest, and what stands in front of the slots.
#[tactic(auto, unfolding(crate::specs::Kinds::header))]
fn put_header(kind: &Kind, stand: &RaggedStand, plan: &Plan, room: &mut Room)
    requires some { 0 < length stand.now.places }
    requires few { length stand.now.pending ≤ 65536 }
    requires spare { 64 + 9 * length stand.now.places ≤ room.old.spare }
    ensures { Puts room.old room.new (model.header plan.now (standing_of kind.now stand.now)) }
{
    match kind {
        Kind::Level => {
            room.put(LEVEL_KIND);
            room.put(&digest(plan));
            room.put_u64(stand.places.at(0).epoch);
            put_shape(plan, room);
        }
        Kind::Uneven { samples, every } => {
            room.put(UNEVEN_KIND);
            room.put(&digest(plan));
            put_shape(plan, room);
            room.put_u32(*samples);
            room.put_u64(*every);
            room.put_u32(stand.pending.len() as u32);
            put_positions(stand.places.as_slice(), room);
        }
    }
}

// Puts the size and the number of slots.
#[tactic(auto, unfolding(crate::specs::Kinds::shape))]
fn put_shape(plan: &Plan, room: &mut Room)
    requires { 8 ≤ room.old.spare }
    ensures puts { Puts room.old room.new (model.shape plan.now) }
    ensures spare { room.new.spare + 8 ≡ room.old.spare }
{
    room.put_u32(plan.lattice().size());
    room.put_u32(plan.slots());
}

fn put_positions(places: &[Place], room: &mut Room)
    requires { 9 * length places.now ≤ room.old.spare }
    ensures { Puts room.old room.new (flat_map model.position_bytes (map position_of places.now)) }
{
    'places: for place in places {
        put_position(place, room);
    }
}

#[tactic(auto, unfolding(crate::specs::Kinds::position_bytes))]
fn put_position(place: &Place, room: &mut Room)
    requires { 9 ≤ room.old.spare }
    ensures { Puts room.old room.new (model.position_bytes (position_of place.now)) }
{
    room.put_u64(place.epoch);
    room.put(&[if place.arrived { 2 } else { 0 }]);
}

fn put_records(records: &[Record], room: &mut Room)
    requires fit { All FitsRecord records.now }
    requires spare { 14 * length records.now ≤ room.old.spare }
    ensures { Puts room.old room.new (flat_map model.record_bytes records.now) }
{
    'records: for kept in records {
        put_record(kept, room);
    }
}

#[tactic(auto, unfolding(crate::specs::Kinds::record_bytes))]
fn put_record(kept: &Record, room: &mut Room)
    requires fits { FitsRecord kept.now }
    requires spare { 14 ≤ room.old.spare }
    ensures { Puts room.old room.new (model.record_bytes kept.now) }
{
    room.put_i32(kept.first_energy);
    room.put_i32(kept.second_energy);
    room.put_i32(kept.overlap);
    room.put(&[kept.first_replica, kept.second_replica]);
}

// Puts the slots and then the pairs.
#[tactic(auto, unfolding(crate::specs::PackedBytes::packed_contents))]
fn put_contents(slots: &Items<Duo>, pairs: &Items<PairWheels>, room: &mut Room)
    requires planes { All packed.HasShortPlanes slots.now }
    requires spare { length (packed.packed_contents slots.now pairs.now) ≤ room.old.spare }
    ensures { Puts room.old room.new (packed.packed_contents slots.now pairs.now) }
{
    put_slots(slots.as_slice(), room);
    put_pairs(pairs.as_slice(), room);
}

fn put_slots(slots: &[Duo], room: &mut Room)
    requires planes { All packed.HasShortPlanes slots.now }
    requires spare { length (flat_map packed.packed_slot slots.now) ≤ room.old.spare }
    ensures { Puts room.old room.new (flat_map packed.packed_slot slots.now) }
{
    'slots: for slot in slots {
        put_slot(slot, room);
    }
}

fn put_pairs(pairs: &[PairWheels], room: &mut Room)
    requires { length (flat_map packed.packed_pair pairs.now) ≤ room.old.spare }
    ensures { Puts room.old room.new (flat_map packed.packed_pair pairs.now) }
{
    'pairs: for pair in pairs {
        put_pair(pair, room);
    }
}

#[tactic(auto, unfolding(crate::specs::PackedBytes::packed_pair))]
fn put_pair(pair: &PairWheels, room: &mut Room)
    requires { length (packed.packed_pair pair.now) ≤ room.old.spare }
    ensures { Puts room.old room.new (packed.packed_pair pair.now) }
{
    put_generator(&pair.first, room);
    put_generator(&pair.second, room);
}

#[tactic(auto, unfolding(crate::specs::PackedBytes::packed_slot))]
fn put_slot(slot: &Duo, room: &mut Room)
    requires planes { packed.HasShortPlanes slot.now }
    requires spare { length (packed.packed_slot slot.now) ≤ room.old.spare }
    ensures { Puts room.old room.new (packed.packed_slot slot.now) }
{
    put_replica(&slot.first, room);
    put_replica(&slot.second, room);
}

#[tactic(auto, unfolding(crate::specs::PackedBytes::packed_replica))]
fn put_replica(replica: &Replica, room: &mut Room)
    requires planes { All packed.IsShort replica.now.planes }
    requires spare { length (packed.packed_replica replica.now) ≤ room.old.spare }
    ensures { Puts room.old room.new (packed.packed_replica replica.now) }
{
    room.put(&replica.labels);
    put_planes(replica.planes.as_slice(), room);
}

fn put_planes(planes: &[Plane], room: &mut Room)
    requires planes { All packed.IsShort planes.now }
    requires spare { length (flat_map packed.packed_plane planes.now) ≤ room.old.spare }
    ensures { Puts room.old room.new (flat_map packed.packed_plane planes.now) }
{
    'planes: for plane in planes {
        put_plane(plane, room);
    }
}

#[tactic(auto, unfolding(crate::specs::PackedBytes::packed_plane))]
fn put_plane(plane: &Plane, room: &mut Room)
    requires short { packed.IsShort plane.now }
    requires spare { length (packed.packed_plane plane.now) ≤ room.old.spare }
    ensures { Puts room.old room.new (packed.packed_plane plane.now) }
{
    put_generator(&plane.wheel, room);
    room.put_spins(plane.words.as_slice());
}

fn put_generator(generator: &Wheel, room: &mut Room)
    requires { length (words_32 generator.now) ≤ room.old.spare }
    ensures { Puts room.old room.new (words_32 generator.now) }
{
    let mut words = [0u32; 61];
    generator.words(&mut words);
    room.put_generator(&words);
}
