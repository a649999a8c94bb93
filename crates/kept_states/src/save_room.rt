//! Writing of the states that a quench keeps.

ghost use Rattle.std.specs.Arc.{arc_value};
ghost use Rattle.std.specs.Prelude.{◌≡◌, ℕ, ◌+◌, ◌*◌, ◌<◌, ◌≤◌, [], ◌++◌, map, flat_map, length, slice_index_or, IfOk};
ghost use Rattle.kept_states.specs.KeptReading.{stands_kept};
ghost use Rattle.kept_states.specs.Levels.{level_len, stands_encoding, AreLevel};
ghost use Rattle.kept_states.specs.Rooms.{HoldsLevel, HoldsStates};
ghost use Rattle.quenched_states.specs.KeptBytes.{kept_length, longest_kept};
ghost use Rattle.run_checkpoint.specs.BankEncoding.{HaveOneShape};

use crate::level_reading::level_length;
use crate::level_room::LevelRoom;
use glass_edges::NoMemory;
use kept_frame::{KeptRoom, kept_length};
use plain_list::Items;
use plane_sweep::Stand;
use scalar_rule::Plan;
use std::alloc::Global;
use std::marker::Model;
use std::sync::Arc;

/// The memory in which kept states are written, reserved before a quench. Contracts see the bytes, how many more
/// fit, and how long the checkpoint of a state may be, with how many slots.
#[derive(Drop)]
pub struct SaveRoom {
    kept: KeptRoom,
    level: LevelRoom,
}

impl Model for SaveRoom {
    ghost use Rattle.kept_states.specs.Rooms.{SaveRoomView};

    ghost Value = { SaveRoomView };

    ghost use Rattle.kept_states.specs.SaveRooms.{save_view};

    ghost view = { save_view };
}

impl SaveRoom {
    /// An empty buffer for so many states of these plans, one for each bank, of at most
    /// [`kept_frame::LONGEST_KEPT`] bytes.
    ///
    /// # Errors
    ///
    /// Refuses only for lack of memory.
    pub fn reserve(
        alloc: Global,
        plans: &[Arc<Plan, Global>],
        states: u32,
    ) -> Result<SaveRoom, NoMemory>
        requires some { 1 ≤ length plans.now }
        requires few { length plans.now ≤ 4 }
        requires shape { HaveOneShape (map arc_value plans.now) }
        requires amount { kept_length states (level_len (map arc_value plans.now)) ≤ longest_kept }
        ensures { IfOk result (HoldsStates (map arc_value plans.now) states) }
    {
        let level = LevelRoom::reserve(alloc, plans)?;
        let kept = KeptRoom::reserve(alloc, kept_length(states, level_length(plans)))?;
        Ok(SaveRoom { kept, level })
    }

    /// What was written.
    pub fn bytes(&self) -> &[u8]
        ensures { result.now ≡ self.now.bytes }
    {
        self.kept.bytes()
    }

    /// Writes kept states, of each those of its banks at one epoch. Takes no memory.
    pub fn write(&mut self, plans: &[Arc<Plan, Global>], states: Items<Items<Stand>>)
        requires some { 1 ≤ length plans.now }
        requires few { length plans.now ≤ 4 }
        requires shape { HaveOneShape (map arc_value plans.now) }
        requires count { length states < 4294967296 }
        requires room { HoldsStates (map arc_value plans.now) (length states) self.old }
        requires fit { (j : ℕ) → j < length states → AreLevel (map arc_value plans.now) (slice_index_or states j []) }
        ensures { self.new.bytes ≡ stands_kept (map arc_value plans.now) states }
    {
        self.kept.begin(states.len() as u32);
        put_states(&mut self.kept, &mut self.level, plans, states);
        self.kept.end();
    }
}

// Puts the checkpoints of the states, one behind the other.
fn put_states(
    kept: &mut KeptRoom,
    level: &mut LevelRoom,
    plans: &[Arc<Plan, Global>],
    states: Items<Items<Stand>>,
)
    requires some { 1 ≤ length plans.now }
    requires few { length plans.now ≤ 4 }
    requires shape { HaveOneShape (map arc_value plans.now) }
    requires level { HoldsLevel (map arc_value plans.now) level.old.limit level.old.slots }
    requires spare { length states * level_len (map arc_value plans.now) ≤ kept.old.spare }
    requires fit { (j : ℕ) → j < length states → AreLevel (map arc_value plans.now) (slice_index_or states j []) }
    ensures bytes { kept.new.bytes ≡ kept.old.bytes ++ flat_map (stands_encoding (map arc_value plans.now)) states }
    ensures spare { kept.new.spare + length states * level_len (map arc_value plans.now) ≡ kept.old.spare }
{
    'states: for banks in states.into_vec() {
        level.write(plans, banks);
        kept.put(level.bytes());
    }
}
