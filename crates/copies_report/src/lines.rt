//! The lines of two copies.

ghost use Rattle.std.specs.Prelude.{◌≡◌, ℕ, ◌+◌, ◌*◌, ◌%◌, ◌≤◌, [], ◌∷◌, ◌++◌, length, codes, flat_map};
ghost use Rattle.std.specs.Fmt.{signed_decimal};
ghost use Rattle.copies_report.specs.States.{copies_at};
ghost use Rattle.glass_edges.specs.Contents.{line_room};
ghost use Rattle.glass_edges.specs.Writes.{WritesFront};
ghost use Rattle.measured_sums.specs.OverlapField.{Field};
ghost use Rattle.plane_sums.specs.Fields.{TellsField};
ghost use Rattle.quenched_states.specs.CrossText.{copies_line, pair_lines};

use crate::numbers::{column_of, totals_of};
use crate::pairs::Pair;
use glass_edges::{Fault, Line, Sink};
use lattice_geometry::Lattice;
use plane_sums::FieldSums;

/// The bytes that a line has at most: a word of four letters, four numbers of 20 digits, and 33 of 20
/// characters, each behind a comma.
const NUMBERS_ROOM: usize = 782;

/// The bytes that three lines have at most.
const THREE_LINES: usize = 3 * NUMBERS_ROOM;

/// Whose sums a line has.
#[derive(Clone, Copy)]
pub(crate) struct CopiesPlace {
    pub(crate) sample: u32,
    pub(crate) slot: u32,
    pub(crate) pair: Pair,
}

/// Adds the three lines of two copies behind a text that is still to be put.
pub(crate) fn add_pair_lines<O: Sink>(
    out: &mut O,
    line: &mut Line,
    sums: &FieldSums,
    lattice: Lattice,
    place: CopiesPlace,
) -> Result<(), Fault>
    ensures { (field : ℕ → Field) → TellsField lattice sums.now field
        → WritesFront O.Sink out.old out.new
        (line.old ++ pair_lines lattice place.sample place.slot (copies_at place.pair) (field (place.sample % 64))) line.new result }
{
    line.make_room(out, THREE_LINES)?;
    fill_pair(line, sums, lattice, place);
    Ok(())
}

// Adds them.
fn fill_pair(line: &mut Line, sums: &FieldSums, lattice: Lattice, place: CopiesPlace)
    requires { length line.old + THREE_LINES ≤ line_room }
    ensures { (field : ℕ → Field) → TellsField lattice sums.now field
        → line.new ≡ line.old ++ pair_lines lattice place.sample place.slot (copies_at place.pair) (field (place.sample % 64)) }
{
    let b = (place.sample % 64) as usize;
    let count = (lattice.size() / 2 + 1) as usize;
    fill_numbers(line, b"pair", place, &totals_of(sums, b));
    fill_numbers(line, b"axis", place, &column_of(&sums.axis, b)[..count]);
    fill_numbers(line, b"face", place, &column_of(&sums.face, b)[..count]);
}

// Adds a line of numbers.
#[tactic(auto, unfolding(quenched_states::specs::CrossText::copies_line))]
fn fill_numbers(line: &mut Line, kind: &[u8], place: CopiesPlace, numbers: &[i64])
    requires room { length line.old + NUMBERS_ROOM ≤ line_room }
    requires kind { length kind.now ≤ 4 }
    requires numbers { length numbers.now ≤ 33 }
    ensures value { line.new ≡ line.old ++ copies_line kind.now place.sample place.slot (copies_at place.pair) numbers.now }
    ensures short { length line.new ≤ length line.old + NUMBERS_ROOM }
{
    line.add(kind);
    line.add(b",");
    line.number(place.sample as u64);
    line.add(b",");
    line.number(place.slot as u64);
    line.add(b",");
    line.number(place.pair.one as u64);
    line.add(b",");
    line.number(place.pair.other as u64);
    fill_values(line, numbers);
    line.add(b"\n");
}

// Adds numbers, each behind a comma.
fn fill_values(line: &mut Line, numbers: &[i64])
    requires { length line.old + 21 * length numbers.now ≤ line_room }
    ensures value { line.new ≡ line.old ++ flat_map (λ number. codes "," ++ signed_decimal number) numbers.now }
    ensures short { length line.new ≤ length line.old + 21 * length numbers.now }
{
    'numbers: for number in numbers {
        add_value(line, *number);
    }
}

// Adds a number behind a comma.
fn add_value(line: &mut Line, number: i64)
    requires { length line.old + 21 ≤ line_room }
    ensures value { line.new ≡ line.old ++ (codes "," ++ signed_decimal number) }
    ensures short { length line.new ≤ length line.old + 21 }
{
    line.add(b",");
    line.signed(number);
}
