//! The lines of a kept state, and of it with an earlier one.

ghost use Rattle.std.specs.Prelude.{◌≡◌, ℕ, ◌+◌, ◌*◌, ◌%◌, ◌<◌, ◌≤◌, [], ◌++◌, length, codes, flat_map, slice_index_or};
ghost use Rattle.std.specs.Fmt.{signed_decimal};
ghost use Rattle.glass_edges.specs.Contents.{line_room};
ghost use Rattle.glass_edges.specs.Writes.{WritesFront};
ghost use Rattle.measured_sums.specs.MeasuredSums.{Observed};
ghost use Rattle.measured_sums.specs.OverlapField.{Field};
ghost use Rattle.plane_sums.specs.Correlations.{signed_at};
ghost use Rattle.quenched_states.specs.QuenchText.{pair_line, state_line};
ghost use Rattle.quenched_sums.specs.Told.{TellsPair, TellsState};
ghost use Rattle.quench_report.specs.Numbers.{pair_numbers, state_numbers};
ghost use Rattle.spin_model.specs.Steps.{table};

use glass_edges::{Fault, Line, Sink};
use lattice_geometry::Lattice;
use quenched_sums::{PairSums, StateSums};

/// The bytes that the line of a state has at most: a word of five letters, three numbers of 20 digits, and 35
/// of 20 characters, each behind a comma.
const STATE_ROOM: usize = 804;

/// Those of a line of two states: a word of four letters, four numbers of 20 digits, and four of 20
/// characters, each behind a comma.
const PAIR_ROOM: usize = 173;

/// Whose numbers a line has: the epoch of the state, the sample, and the slot.
#[derive(Clone, Copy)]
pub(crate) struct LinePlace {
    pub(crate) time: u64,
    pub(crate) sample: u32,
    pub(crate) slot: u32,
}

/// Adds the line of a state behind a text that is still to be put.
pub(crate) fn add_state_line<O: Sink>(
    out: &mut O,
    line: &mut Line,
    sums: &StateSums,
    lattice: Lattice,
    place: LinePlace,
) -> Result<(), Fault>
    ensures { (seen : ℕ → Observed) → TellsState lattice sums.now seen
        → WritesFront O.Sink out.old out.new
        (line.old ++ state_line lattice place.time place.sample place.slot (seen (place.sample % 64))) line.new result }
{
    line.make_room(out, STATE_ROOM)?;
    fill_state(line, sums, lattice, place);
    Ok(())
}

/// Adds the line of it and an earlier state.
pub(crate) fn add_pair_line<O: Sink>(
    out: &mut O,
    line: &mut Line,
    sums: &PairSums,
    waited: u64,
    place: LinePlace,
) -> Result<(), Fault>
    ensures { (l : ℕ) (field : ℕ → ℕ → Field) → TellsPair l sums.now field
        → WritesFront O.Sink out.old out.new
        (line.old ++ pair_line l waited place.time place.sample place.slot (field (place.sample % 64))) line.new result }
{
    line.make_room(out, PAIR_ROOM)?;
    fill_pair(line, sums, waited, place);
    Ok(())
}

// Adds the line of a state.
#[tactic(auto, unfolding(crate::specs::Numbers::state_numbers))]
fn fill_state(line: &mut Line, sums: &StateSums, lattice: Lattice, place: LinePlace)
    requires { length line.old + STATE_ROOM ≤ line_room }
    ensures { line.new ≡ line.old ++ state_numbers lattice place sums.now }
{
    let b = (place.sample % 64) as usize;
    line.add(b"state,");
    line.number(place.time);
    line.add(b",");
    line.number(place.sample as u64);
    line.add(b",");
    line.number(place.slot as u64);
    add_number(line, &sums.first_energies, b);
    add_number(line, &sums.second_energies, b);
    add_number(line, &sums.overlaps, b);
    fill_distances(line, &sums.distances, b, lattice.size() / 2);
    line.add(b"\n");
}

// Adds the sums at the first distances, each behind a comma.
fn fill_distances(line: &mut Line, sums: &[[i32; 64]; 32], b: usize, count: u32)
    requires sample { b < 64 }
    requires count { count ≤ 32 }
    requires room { length line.old + 21 * count ≤ line_room }
    ensures value { line.new ≡ line.old
        ++ flat_map (λ k. codes "," ++ signed_decimal (signed_at (slice_index_or sums.now k []) b)) (table (λ k. k) count) }
    ensures short { length line.new ≤ length line.old + 21 * count }
{
    'distances: for k in 0..count as usize {
        add_number(line, &sums[k], b);
    }
}

// Adds a sample's number behind a comma.
fn add_number(line: &mut Line, numbers: &[i32; 64], b: usize)
    requires sample { b < 64 }
    requires room { length line.old + 21 ≤ line_room }
    ensures value { line.new ≡ line.old ++ (codes "," ++ signed_decimal (signed_at numbers.now b)) }
    ensures short { length line.new ≤ length line.old + 21 }
{
    line.add(b",");
    line.signed(number_at(numbers, b));
}

#[inline(always)]
fn number_at(numbers: &[i32; 64], b: usize) -> i64
    requires { b < 64 }
    ensures { result ≡ signed_at numbers.now b }
{
    numbers[b] as i64
}

// Adds the line of two states.
#[tactic(auto, unfolding(crate::specs::Numbers::pair_numbers))]
fn fill_pair(line: &mut Line, sums: &PairSums, waited: u64, place: LinePlace)
    requires { length line.old + PAIR_ROOM ≤ line_room }
    ensures { line.new ≡ line.old ++ pair_numbers waited place sums.now }
{
    let b = (place.sample % 64) as usize;
    line.add(b"pair,");
    line.number(waited);
    line.add(b",");
    line.number(place.time);
    line.add(b",");
    line.number(place.sample as u64);
    line.add(b",");
    line.number(place.slot as u64);
    add_number(line, &sums.first_overlaps, b);
    add_number(line, &sums.second_overlaps, b);
    add_number(line, &sums.first_links, b);
    add_number(line, &sums.second_links, b);
    line.add(b"\n");
}
