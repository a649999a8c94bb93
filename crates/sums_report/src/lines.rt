//! The lines of a bin.

ghost use Rattle.std.specs.Prelude.{◌≡◌, ◌+◌, ◌*◌, ◌%◌, ◌≤◌, ◌++◌, length, codes, flat_map, map};
ghost use Rattle.std.specs.Fmt.{signed_decimal};
ghost use Rattle.glass_edges.specs.Contents.{line_room};
ghost use Rattle.glass_edges.specs.Writes.{WritesFront};
ghost use Rattle.measured_sums.specs.SumsText.{bin_lines, numbers_line};
ghost use Rattle.measured_sums.specs.MeasuredSums.{axis_distances, classes, face_distances, moments};
ghost use Rattle.plane_sums.specs.Bins.{sum_in};

use crate::numbers::{classes_of, column_of, moments_of};
use glass_edges::{Fault, Line, Sink};
use plane_sums::BinSums;

/// The bytes that a line has at most: a word of four letters, three numbers of 20 digits, and 33 of 40
/// characters, each behind a comma.
const NUMBERS_ROOM: usize = 1421;

/// The bytes that two lines have at most.
const TWO_LINES: usize = 2 * NUMBERS_ROOM;

/// Whose sums a line has.
#[derive(Clone, Copy)]
pub(crate) struct SumsPlace {
    pub(crate) sample: u32,
    pub(crate) slot: u32,
    pub(crate) bin: u32,
}

/// Adds the four lines of a bin behind a text that is still to be put.
pub(crate) fn add_bin_lines<O: Sink>(
    out: &mut O,
    line: &mut Line,
    bin: &BinSums,
    size: u32,
    place: SumsPlace,
) -> Result<(), Fault>
    requires { size ≤ 64 }
    ensures { WritesFront O.Sink out.old out.new
        (line.old ++ bin_lines size place.sample place.slot place.bin (sum_in bin.now (place.sample % 64))) line.new result }
{
    line.make_room(out, TWO_LINES)?;
    fill_moments(line, bin, place);
    line.make_room(out, TWO_LINES)?;
    fill_correlations(line, bin, size, place);
    Ok(())
}

// Adds the lines of the sums of energies, links and overlaps, and of the classes.
fn fill_moments(line: &mut Line, bin: &BinSums, place: SumsPlace)
    requires { length line.old + TWO_LINES ≤ line_room }
    ensures { line.new ≡ line.old
        ++ numbers_line (codes "sum") place.sample place.slot place.bin (map (sum_in bin.now (place.sample % 64)) moments)
        ++ numbers_line (codes "hist") place.sample place.slot place.bin (map (sum_in bin.now (place.sample % 64)) classes) }
{
    let b = (place.sample % 64) as usize;
    fill_numbers(line, b"sum", place, &moments_of(bin, b));
    fill_numbers(line, b"hist", place, &classes_of(bin, b));
}

// Adds the lines of the correlations across the axes, and across the diagonals of the faces.
fn fill_correlations(line: &mut Line, bin: &BinSums, size: u32, place: SumsPlace)
    requires size { size ≤ 64 }
    requires room { length line.old + TWO_LINES ≤ line_room }
    ensures { line.new ≡ line.old
        ++ numbers_line (codes "axis") place.sample place.slot place.bin (map (sum_in bin.now (place.sample % 64)) (axis_distances size))
        ++ numbers_line (codes "face") place.sample place.slot place.bin (map (sum_in bin.now (place.sample % 64)) (face_distances size)) }
{
    let b = (place.sample % 64) as usize;
    let count = (size / 2 + 1) as usize;
    fill_numbers(line, b"axis", place, &column_of(&bin.axis, b)[..count]);
    fill_numbers(line, b"face", place, &column_of(&bin.face, b)[..count]);
}

// Adds it at the end.
#[tactic(auto, unfolding(measured_sums::specs::SumsText::numbers_line))]
fn fill_numbers(line: &mut Line, kind: &[u8], place: SumsPlace, numbers: &[i128])
    requires room { length line.old + NUMBERS_ROOM ≤ line_room }
    requires kind { length kind.now ≤ 4 }
    requires numbers { length numbers.now ≤ 33 }
    ensures value { line.new ≡ line.old ++ numbers_line kind.now place.sample place.slot place.bin numbers.now }
    ensures short { length line.new ≤ length line.old + NUMBERS_ROOM }
{
    line.add(kind);
    line.add(b",");
    line.number(place.sample as u64);
    line.add(b",");
    line.number(place.slot as u64);
    line.add(b",");
    line.number(place.bin as u64);
    fill_values(line, numbers);
    line.add(b"\n");
}

// Adds numbers, each behind a comma.
fn fill_values(line: &mut Line, numbers: &[i128])
    requires { length line.old + 41 * length numbers.now ≤ line_room }
    ensures value { line.new ≡ line.old ++ flat_map (λ number. codes "," ++ signed_decimal number) numbers.now }
    ensures short { length line.new ≤ length line.old + 41 * length numbers.now }
{
    'numbers: for number in numbers {
        add_value(line, *number);
    }
}

// Adds a number behind a comma.
fn add_value(line: &mut Line, number: i128)
    requires { length line.old + 41 ≤ line_room }
    ensures value { line.new ≡ line.old ++ (codes "," ++ signed_decimal number) }
    ensures short { length line.new ≤ length line.old + 41 }
{
    let mut buffer = itoa::Buffer::new();
    line.add(b",");
    line.add(buffer.format(number).as_bytes());
}
