//! A value of two progress words under a lock, on one thread and on many.
ghost use Rattle.std.specs.Prelude.{◌≡◌, true, slice_set};
ghost use Rattle.turn_cell.specs.AtomicSteps.{IsLawfulStore, IsStored};
ghost use Rattle.turn_cell.specs.Seats.{cell_id, seat_view, IsSeatOf};

mod script;
mod threads;

use turn_cell::{Kept, Pass, TurnCell};

// Two progress words, under a name.
#[derive(Drop)]
struct Words {
    name: u32,
    words: [u64; 2],
}

impl Kept for Words {
    type Origin = u32;

    ghost origin = { λ w. w.name };

    ghost marks = { λ w. w.words };
}

// Stores a word in the table and in the value.
fn stored(
    cell: &TurnCell<Words>,
    pass: &mut Pass<Words>,
    value: Words,
    place: u32,
    word: u64,
) -> Words
    requires own { IsSeatOf (cell_id cell.now) pass.old }
    requires held { (seat_view pass.old).holding ≡ true }
    requires known { value.words ≡ (seat_view pass.old).known }
    requires lawful { IsLawfulStore (seat_view pass.old) place word }
    ensures own { IsSeatOf (cell_id cell.now) pass.new }
    ensures stored { IsStored (seat_view pass.old) place word (seat_view pass.new) }
    ensures words { result.words ≡ slice_set value.words place word }
    ensures name { result.name ≡ value.name }
{
    let Words { name, mut words } = value;
    words[place as usize] = word;
    cell.store_mark(pass, place, word);
    Words { name, words }
}
