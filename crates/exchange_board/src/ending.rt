//! Taking a board apart. No memory is taken: the room was made at the opening.

ghost use Rattle.std.specs.Prelude.{◌≡◌, ℕ, ◌+◌, ◌*◌, ◌/◌, ◌%◌, ◌^◌, ◌<◌, ◌==◌, true, false, [], ◌∷◌, ◌++◌, length, map, is_some, slice_index_or, All, IfOk, OnErr, IfErr};
ghost use Rattle.exchange_board.specs.Answers.{stages_of};
ghost use Rattle.exchange_board.specs.BoardKeeps.{place_of};
ghost use Rattle.plane_sweep.specs.Cells.{is_kept};
ghost use Rattle.plane_sweep.specs.Uneven.{position_of, FitsRecord};
ghost use Rattle.scalar_rule.specs.Positions.{floor_of, cell_epoch};
ghost use Rattle.exchange_board.specs.Content.{slots_in, row_total, rule_record, IsLawfulOrigin};
ghost use Rattle.exchange_board.specs.Machine.{AllEnded, NoneOut};
ghost use Rattle.exchange_board.specs.Stops.{AreMoved, AreStops, IsAhead, HasAhead, KeepsAhead, IsEnd, IsStop};

use crate::board::{Board, Slot, phase};
use crate::ended::{Ended, RaggedEnded};
use crate::origin::Origin;
use crate::room::Room;
use crate::rows::rows_of;
use plain_list::Items;
use plane_sweep::{
    Duo, Place, RaggedStand, Stand, cell_at, deepest, has_record, record_in_range, shallowest,
};
use scalar_rule::Record;

// The contents of slots that are all at home; they are moved.
fn emptied(slots: Items<Slot>, duos: Items<Duo>) -> Items<Duo>
    requires long { length duos ≡ length slots }
    requires home { (t : ℕ) (d : Slot) → t < length slots → is_some (slice_index_or slots t d).home ≡ true }
    ensures { AreMoved slots result }
{
    let mut slots = slots;
    let mut duos = duos;
    'moves: for t in 0..slots.len() {
        match slots.at_mut(t).home.take() {
            Some(home) => *duos.at_mut(t) = Box::into_inner(home).duo,
            None => unreachable!(),
        }
    }
    duos
}

impl Board {
    /// The state and the records, where every slot is at rest at until; else the board. Takes no memory.
    pub fn into_stand(self) -> Result<Ended, Board>
        ensures ended { IfOk result (λ d. AllEnded self.origin.window.until self.places × IsEnd self.origin d) }
        ensures back { OnErr result (AllEnded self.origin.window.until self.places → ⊥) }
        ensures same { IfErr result (λ b. b ≡ self) }
    {
        if self.is_ended() {
            Ok(self.ended())
        } else {
            Err(self)
        }
    }

    fn ended(self) -> Ended
        requires { AllEnded self.origin.window.until self.places }
        ensures { IsEnd self.origin result }
    {
        let Board {
            origin,
            slots,
            pairs,
            records,
            left: _,
            duos,
            pending: _,
            places: _,
        } = self;
        let epoch = origin.window.until;
        let stand = Stand {
            epoch,
            slots: emptied(slots, duos),
            pairs,
        };
        Ended {
            origin,
            stand,
            records,
        }
    }
}

// The place of a slot that is at home.
fn stop_of(slot: &Slot) -> Place
    ensures epoch { result.epoch ≡ (place_of slot.now).epoch }
    ensures arrived { result.arrived ≡ ((place_of slot.now).phase == 2) }
{
    Place {
        epoch: slot.epoch,
        arrived: phase(&slot.home) == 2,
    }
}

// The places of slots that are all at home, written over others.
fn stops(slots: &Items<Slot>, places: Items<Place>) -> Items<Place>
    requires { length places ≡ length slots.now }
    ensures { AreStops (map place_of slots.now) result }
{
    let mut places = places;
    'stops: for t in 0..slots.len() {
        *places.at_mut(t) = stop_of(slots.at(t));
    }
    places
}

// One place of the table: where it has a record that is to be kept, that record is put down.
fn keep_cell(
    room: &mut Room<Record>,
    records: &Items<Record>,
    places: &Items<Place>,
    origin: &Origin,
    floor: u64,
    index: usize,
)
    requires lawful { IsLawfulOrigin origin.now }
    requires ahead { IsAhead origin.now (map position_of places.now) }
    requires floor { floor ≡ floor_of (map position_of places.now) }
    requires index { index < 2 ^ 50 }
    requires sized { length records.now ≡ row_total origin.now }
    requires rows { HasAhead origin.now (map position_of places.now) records.now }
    requires spare { 0 < room.old.spare }
    ensures kept { is_kept places.now floor origin.now.window.samples origin.now.window.every index ≡ true
        → room.new.items ≡ room.old.items ++ rule_record origin.now (cell_epoch floor origin.now.window.samples (length places.now) index)
        (index / length places.now % origin.now.window.samples) (index % length places.now) ∷ [] }
    ensures spent { is_kept places.now floor origin.now.window.samples origin.now.window.every index ≡ true → room.new.spare + 1 ≡ room.old.spare }
    ensures passed { is_kept places.now floor origin.now.window.samples origin.now.window.every index ≡ false → room.new ≡ room.old }
    ensures fits { All FitsRecord room.old.items → All FitsRecord room.new.items }
{
    let window = origin.window;
    let cell = cell_at(index, floor, window.samples, places.len() as u32);
    if has_record(&cell, places, window.every) {
        let rows = rows_of(origin, cell.slot, cell.epoch);
        let row = *records.at(rows.place(cell.sample));
        room.put(record_in_range(row));
    }
}

// The records ahead of the least completed epoch, in order.
fn kept_records(
    records: &Items<Record>,
    places: &Items<Place>,
    origin: &Origin,
    room: Room<Record>,
) -> Items<Record>
    requires lawful { IsLawfulOrigin origin.now }
    requires ahead { IsAhead origin.now (map position_of places.now) }
    requires sized { length records.now ≡ row_total origin.now }
    requires rows { HasAhead origin.now (map position_of places.now) records.now }
    requires room { room ≡ record { items = []; spare = origin.now.window.samples * slots_in origin.now * slots_in origin.now } }
    ensures kept { KeepsAhead origin.now (map position_of places.now) result }
    ensures fits { All FitsRecord result }
{
    let mut room = room;
    let floor = shallowest(places);
    let ahead = deepest(places) - floor;
    let cells = ahead as usize * origin.window.samples as usize * places.len();
    'cells: for index in 0..cells {
        keep_cell(&mut room, records, places, origin, floor, index);
    }
    Items::of(room.into_vec())
}

impl Board {
    // Whether a slot is in work.
    fn has_out(&self) -> bool
        ensures none { result ≡ false → NoneOut self.now.places }
        ensures some { result ≡ true → NoneOut self.now.places → ⊥ }
    {
        for t in 0..self.slots.len() as u32 {
            if self.progress(t) % 4 == 1 {
                return true;
            }
        }
        false
    }

    /// The state where the board stopped, each slot at its position, and the records, where no slot is in
    /// work; else the board. Takes no memory.
    pub fn into_ragged(self) -> Result<RaggedEnded, Board>
        ensures home { IfOk result (λ d. NoneOut self.places) }
        ensures places { IfOk result (λ d. stages_of d.stand ≡ self.places) }
        ensures stopped { IfOk result (λ d. IsStop self.origin d) }
        ensures back { OnErr result (NoneOut self.places → ⊥) }
        ensures same { IfErr result (λ b. b ≡ self) }
    {
        if self.has_out() {
            Err(self)
        } else {
            Ok(self.stopped())
        }
    }

    fn stopped(self) -> RaggedEnded
        requires { NoneOut self.places }
        ensures places { stages_of result.stand ≡ self.places }
        ensures stop { IsStop self.origin result }
    {
        let Board {
            origin,
            slots,
            pairs,
            records,
            left: _,
            duos,
            pending,
            places,
        } = self;
        let places = stops(&slots, places);
        let pending = kept_records(&records, &places, &origin, pending);
        let stand = RaggedStand {
            places,
            slots: emptied(slots, duos),
            pairs,
            pending,
        };
        RaggedEnded {
            origin,
            stand,
            records,
        }
    }
}
