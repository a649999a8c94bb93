//! The short lines: header, row and end.

ghost use Rattle.std.specs.Fmt.{signed_decimal};
ghost use Rattle.std.specs.Prelude.{◌≡◌, ◌+◌, ◌≤◌, [], ◌++◌, length, codes, decimal};
ghost use Rattle.glass_edges.specs.Contents.{line_room};
ghost use Rattle.glass_edges.specs.Writes.{Writes, WritesFront};
ghost use Rattle.report_text.specs.Lines.{end_line, header_line, kind_text, row_line};

use glass_edges::{Fault, Line, Sink};
use scalar_rule::{Plan, Record};
use threshold_table::RuleKind;

/// The bytes that a row has at most: eight numbers of 20 characters, and the twelve around them.
const ROW_ROOM: usize = 172;

/// Puts the first line of a report, of a run from epoch `from` to epoch `to`.
///
/// # Errors
///
/// Where the output failed; it has then taken a prefix of the line.
pub fn header<O: Sink>(
    out: &mut O,
    plan: &Plan,
    samples: u32,
    from: u64,
    to: u64,
) -> Result<(), Fault>
    ensures { Writes O.Sink out.old out.new (header_line plan.now samples from to) result }
{
    let mut line = Line::new();
    add_header(&mut line, plan, samples, from, to);
    line.put(out)
}

// Adds the first line.
#[tactic(auto, unfolding(crate::specs::Lines::header_line))]
fn add_header(line: &mut Line, plan: &Plan, samples: u32, from: u64, to: u64)
    requires { line.old ≡ [] }
    ensures { line.new ≡ header_line plan.now samples from to }
{
    line.add(b"glass 1 size=");
    line.number(plan.lattice().size() as u64);
    line.add(b" slots=");
    line.number(plan.slots() as u64);
    line.add(b" samples=");
    line.number(samples as u64);
    line.add(b" rule=");
    line.add(kind_word(plan.rules().kind()));
    line.add(b" from=");
    line.number(from);
    line.add(b" to=");
    line.number(to);
    line.add(b"\n");
}

/// The word of the dynamics, of at most ten bytes, as run files and reports have it.
pub fn kind_word(kind: RuleKind) -> &'static [u8]
    ensures word { result.now ≡ kind_text kind }
    ensures short { length result.now ≤ 10 }
{
    match kind {
        RuleKind::Heat => b"heat",
        RuleKind::Metropolis => b"metropolis",
    }
}

/// Puts what was measured of a slot of a sample in an epoch: the energies of both replicas, their
/// overlap and their labels.
///
/// # Errors
///
/// Where the output failed; it has then taken a prefix of the line.
pub fn row<O: Sink>(
    out: &mut O,
    epoch: u64,
    sample: u32,
    slot: u32,
    values: &Record,
) -> Result<(), Fault>
    ensures { Writes O.Sink out.old out.new (row_line epoch sample slot values.now) result }
{
    let mut line = Line::new();
    fill_row(&mut line, epoch, sample, slot, values);
    line.put(out)
}

/// Adds the line of `row` behind a text that is still to be put. Where it might not fit there, the text
/// goes out first.
///
/// # Errors
///
/// Where the output failed; it has then taken a prefix of the text and the line.
pub fn add_row<O: Sink>(
    out: &mut O,
    text: &mut Line,
    epoch: u64,
    sample: u32,
    slot: u32,
    values: &Record,
) -> Result<(), Fault>
    ensures { WritesFront O.Sink out.old out.new
        (text.old ++ row_line epoch sample slot values.now) text.new result }
{
    text.make_room(out, ROW_ROOM)?;
    fill_row(text, epoch, sample, slot, values);
    Ok(())
}

// Adds a row at the end.
#[tactic(auto, unfolding(crate::specs::Lines::row_line))]
fn fill_row(line: &mut Line, epoch: u64, sample: u32, slot: u32, values: &Record)
    requires { length line.old + ROW_ROOM ≤ line_room }
    ensures { line.new ≡ line.old ++ row_line epoch sample slot values.now }
{
    add_place(line, epoch, sample, slot);
    add_value(line, values.first_energy);
    add_value(line, values.second_energy);
    add_value(line, values.overlap);
    add_label(line, values.first_replica);
    add_label(line, values.second_replica);
    line.add(b"\n");
}

// Whose row it is.
fn add_place(line: &mut Line, epoch: u64, sample: u32, slot: u32)
    requires { length line.old + ROW_ROOM ≤ line_room }
    ensures value { line.new ≡ line.old ++ (codes "row," ++ decimal epoch
        ++ codes "," ++ decimal sample ++ codes "," ++ decimal slot) }
    ensures short { length line.new ≤ length line.old + 66 }
{
    line.add(b"row,");
    line.number(epoch);
    line.add(b",");
    line.number(sample as u64);
    line.add(b",");
    line.number(slot as u64);
}

// An energy or an overlap, behind a comma.
fn add_value(line: &mut Line, value: i32)
    requires { length line.old + 21 ≤ line_room }
    ensures value { line.new ≡ line.old ++ (codes "," ++ signed_decimal value) }
    ensures short { length line.new ≤ length line.old + 21 }
{
    line.add(b",");
    line.signed(value as i64);
}

// A replica's label, behind a comma.
fn add_label(line: &mut Line, label: u8)
    requires { length line.old + 21 ≤ line_room }
    ensures value { line.new ≡ line.old ++ (codes "," ++ decimal label) }
    ensures short { length line.new ≤ length line.old + 21 }
{
    line.add(b",");
    line.number(label as u64);
}

/// Puts the line that says at which epoch a run ended.
///
/// # Errors
///
/// Where the output failed; it has then taken a prefix of the line.
#[tactic(auto, unfolding(crate::specs::Lines::end_line))]
pub fn end<O: Sink>(out: &mut O, epoch: u64) -> Result<(), Fault>
    ensures { Writes O.Sink out.old out.new (end_line epoch) result }
{
    let mut line = Line::new();
    line.add(b"end,");
    line.number(epoch);
    line.add(b"\n");
    line.put(out)
}
