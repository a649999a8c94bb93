//! Room for the checkpoint of a state at one epoch.

ghost use Rattle.std.specs.Arc.{arc_value};
ghost use Rattle.std.specs.Prelude.{◌≡◌, ◌+◌, ◌≤◌, false, [], ◌++◌, map, length, replicate, IfOk};
ghost use Rattle.kept_states.specs.Levels.{level_len, banks_spare, stands_encoding, AreLevel};
ghost use Rattle.kept_states.specs.Rooms.{HaveSlots, HoldsLevel};
ghost use Rattle.plane_sweep.specs.Packed.{part, StandFits};
ghost use Rattle.run_checkpoint.specs.BankEncoding.{banks_bytes, banks_parts, HaveOneShape};
ghost use Rattle.run_checkpoint.specs.Encoding.{encoding};
ghost use Rattle.run_checkpoint.specs.Lengths.{encoding_len};
ghost use Rattle.scalar_rule.specs.Plan.{slots_of};

use crate::level_reading::level_length;
use glass_edges::NoMemory;
use plain_list::Items;
use plane_sweep::{Place, RaggedStand, Stand};
use run_checkpoint::{Kind, Room, begin_banks, encode, end_banks};
use scalar_rule::Plan;
use std::alloc::Global;
use std::marker::Model;
use std::sync::Arc;

/// A buffer for the checkpoint of a state, and the bank that is written, with a place for each slot. Contracts see
/// the bytes, the most of them, and the number of slots.
#[derive(Drop)]
pub(crate) struct LevelRoom {
    bytes: Room,
    bank: RaggedStand,
}

impl Model for LevelRoom {
    ghost use Rattle.kept_states.specs.Rooms.{LevelRoomView};

    ghost Value = { LevelRoomView };

    ghost use Rattle.kept_states.specs.LevelRooms.{level_view};

    ghost view = { level_view };

    ghost use Rattle.std.specs.Prelude.{◌≡◌, []};

    ghost invariant = { λ room. room.bank.pending ≡ [] };
}

impl LevelRoom {
    /// An empty buffer for the checkpoint of a state of these plans, one for each bank.
    ///
    /// # Errors
    ///
    /// Refuses only for lack of memory.
    pub(crate) fn reserve(alloc: Global, plans: &[Arc<Plan, Global>]) -> Result<LevelRoom, NoMemory>
        requires some { 1 ≤ length plans.now }
        requires few { length plans.now ≤ 4 }
        requires shape { HaveOneShape (map arc_value plans.now) }
        ensures { IfOk result (λ room. HoldsLevel (map arc_value plans.now) room.limit room.slots) }
    {
        Ok(LevelRoom {
            bytes: Room::reserve(alloc, level_length(plans))?,
            bank: empty_bank(alloc, plans[0].slots())?,
        })
    }

    /// What was written.
    pub(crate) fn bytes(&self) -> &[u8]
        ensures { result.now ≡ self.now.bytes }
    {
        self.bytes.bytes()
    }

    /// Writes the checkpoint of a state instead of what was written, bank by bank. Takes no memory.
    pub(crate) fn write(&mut self, plans: &[Arc<Plan, Global>], stands: Items<Stand>)
        requires some { 1 ≤ length plans.now }
        requires few { length plans.now ≤ 4 }
        requires shape { HaveOneShape (map arc_value plans.now) }
        requires room { HoldsLevel (map arc_value plans.now) self.old.limit self.old.slots }
        requires fit { AreLevel (map arc_value plans.now) stands }
        ensures bytes { self.new.bytes ≡ stands_encoding (map arc_value plans.now) stands }
        ensures len { length self.new.bytes ≡ level_len (map arc_value plans.now) }
        ensures limit { self.new.limit ≡ self.old.limit }
        ensures slots { self.new.slots ≡ self.old.slots }
    {
        self.bytes.clear();
        if plans.len() == 1 {
            put_banks(&mut self.bytes, &mut self.bank, plans, stands);
        } else {
            begin_banks(plans.len() as u32, &mut self.bytes);
            put_banks(&mut self.bytes, &mut self.bank, plans, stands);
            end_banks(&mut self.bytes);
        }
    }
}

// Puts the checkpoints of the banks, one behind the other.
fn put_banks(
    bytes: &mut Room,
    bank: &mut RaggedStand,
    plans: &[Arc<Plan, Global>],
    stands: Items<Stand>,
)
    requires few { length plans.now ≤ 4 }
    requires slots { HaveSlots (length bank.old.places) (map arc_value plans.now) }
    requires pending { bank.old.pending ≡ [] }
    requires fit { AreLevel (map arc_value plans.now) stands }
    requires spare { banks_spare (map arc_value plans.now) ≤ bytes.old.spare }
    ensures bytes { bytes.new.bytes ≡ bytes.old.bytes ++ banks_bytes (map arc_value plans.now) (banks_parts (map arc_value plans.now) stands) }
    ensures len { length bytes.new.bytes ≡ length bytes.old.bytes + banks_spare (map arc_value plans.now) }
    ensures spare { bytes.new.spare + banks_spare (map arc_value plans.now) ≡ bytes.old.spare }
    ensures slots { length bank.new.places ≡ length bank.old.places }
    ensures pending { bank.new.pending ≡ [] }
{
    let mut g = 0;
    'banks: for stand in stands.into_vec() {
        put_bank(bytes, bank, &plans[g], stand);
        g += 1;
    }
}

// Puts that of one bank.
fn put_bank(bytes: &mut Room, bank: &mut RaggedStand, plan: &Plan, stand: Stand)
    requires slots { slots_of plan.now ≡ length bank.old.places }
    requires pending { bank.old.pending ≡ [] }
    requires fits { StandFits plan.now stand }
    requires spare { encoding_len plan.now.size (slots_of plan.now) ≤ bytes.old.spare }
    ensures bytes { bytes.new.bytes ≡ bytes.old.bytes ++ encoding plan.now (λ b. part plan.now.size b stand) }
    ensures len { length bytes.new.bytes ≡ length bytes.old.bytes + encoding_len plan.now.size (slots_of plan.now) }
    ensures spare { bytes.new.spare + encoding_len plan.now.size (slots_of plan.now) ≡ bytes.old.spare }
    ensures slots { length bank.new.places ≡ length bank.old.places }
    ensures pending { bank.new.pending ≡ [] }
{
    // A plan has a slot.
    let _ = plan.lattice();
    rest_at(&mut bank.places, stand.epoch);
    bank.slots = stand.slots;
    bank.pairs = stand.pairs;
    encode(&Kind::Level, bank, plan, bytes);
}

// A place for each of so many slots.
fn empty_bank(alloc: Global, slots: u32) -> Result<RaggedStand, NoMemory>
    ensures places { IfOk result (λ bank. length bank.places ≡ slots) }
    ensures pending { IfOk result (λ bank. bank.pending ≡ []) }
{
    let place = Place {
        epoch: 0,
        arrived: false,
    };
    Ok(RaggedStand {
        places: Items::of(vec![in alloc; place; slots as usize]?),
        slots: Items::of(Vec::new(alloc)),
        pairs: Items::of(Vec::new(alloc)),
        pending: Items::of(Vec::new(alloc)),
    })
}

// All slots at rest at an epoch.
fn rest_at(places: &mut Items<Place>, epoch: u64)
    ensures { places.new ≡ replicate (length places.old) (record { epoch = epoch; arrived = false }) }
{
    places.as_mut_slice().fill(Place {
        epoch,
        arrived: false,
    });
}
