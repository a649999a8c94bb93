//! The text of the link overlaps and correlation lines, which goes to the output many lines at a time.

ghost use Rattle.std.specs.Prelude.{◌≡◌, ◌+◌, ◌*◌, ◌<◌, ◌≤◌, pos, ◌-ℤ◌, [], ◌++◌, length};
ghost use Rattle.glass_edges.specs.Contents.{line_room};
ghost use Rattle.glass_edges.specs.Writes.{Writes, WritesFront};
ghost use Rattle.multispin_word.specs.Planes.{number};
ghost use Rattle.overlap_lines.specs.CountedText as counted;
ghost use Rattle.overlap_lines.specs.LineText as text;
ghost use Rattle.plane_sweep.specs.Packed.{part, StandFits};

use crate::slots::{COUNTS, SLOTS, count_slots};
use glass_edges::{Fault, Line, Sink};
use lattice_geometry::Lattice;
use multispin_word::Planes;
use plane_sweep::Stand;
use scalar_rule::Plan;

/// The bytes that the line of a link overlap has at most: three numbers of 20 characters, and the eight
/// around them.
const LINK_ROOM: usize = 68;

/// The bytes that the line of a direction and distance has at most: five such numbers, and ten bytes.
const SUM_ROOM: usize = 110;

/// Puts the link overlaps and correlation lines of both replicas of each slot, in the first samples of 64.
/// Takes no memory.
///
/// # Errors
///
/// Where the output failed; it has then taken a prefix of the text.
pub fn write_lines<O: Sink>(
    base: &Stand,
    plan: &Plan,
    samples: u32,
    out: &mut O,
) -> Result<(), Fault>
    requires fits { StandFits plan.now base.now }
    requires some { 1 ≤ samples }
    requires few { samples ≤ 64 }
    ensures { Writes O.Sink out.old out.new
        (text.lines_text plan.now samples base.now.epoch (λ b. part plan.now.size b base.now)) result }
{
    let mut counts = [[[0u64; 20]; COUNTS]; SLOTS];
    count_slots(&mut counts, base, plan);
    put_text(out, &counts, plan, samples, base.epoch)
}

// Puts the text from the counts.
#[tactic(auto, unfolding(crate::specs::CountedText::counted_text))]
fn put_text<O: Sink>(
    out: &mut O,
    counts: &[[[u64; 20]; COUNTS]; SLOTS],
    plan: &Plan,
    samples: u32,
    epoch: u64,
) -> Result<(), Fault>
    requires { samples ≤ 64 }
    ensures { Writes O.Sink out.old out.new
        (counted.counted_text plan.now counts.now samples epoch) result }
{
    let mut line = Line::new();
    add_header(&mut line, plan, samples, epoch);
    add_samples(out, &mut line, counts, plan, samples)?;
    line.extend(out, b"end\n")?;
    line.put(out)
}

// Adds the first line.
#[tactic(auto, unfolding(crate::specs::LineText::header_line))]
fn add_header(line: &mut Line, plan: &Plan, samples: u32, epoch: u64)
    requires { line.old ≡ [] }
    ensures { line.new ≡ text.header_line plan.now samples epoch }
{
    line.add(b"lines 1 size=");
    line.number(plan.lattice().size() as u64);
    line.add(b" slots=");
    line.number(plan.slots() as u64);
    line.add(b" samples=");
    line.number(samples as u64);
    line.add(b" epoch=");
    line.number(epoch);
    line.add(b"\n");
}

// Adds the lines of the first samples behind a text that is still to be put.
fn add_samples<O: Sink>(
    out: &mut O,
    line: &mut Line,
    counts: &[[[u64; 20]; COUNTS]],
    plan: &Plan,
    samples: u32,
) -> Result<(), Fault>
    requires sized { length counts.now ≡ SLOTS }
    requires few { samples ≤ 64 }
    ensures { WritesFront O.Sink out.old out.new
        (line.old ++ counted.counted_samples plan.now counts.now samples) line.new result }
{
    'samples: for b in 0..samples {
        add_sample(out, line, counts, plan, b)?;
    }
    Ok(())
}

// Adds those of one sample.
fn add_sample<O: Sink>(
    out: &mut O,
    line: &mut Line,
    counts: &[[[u64; 20]; COUNTS]],
    plan: &Plan,
    sample: u32,
) -> Result<(), Fault>
    requires sized { length counts.now ≡ SLOTS }
    requires sample { sample < 64 }
    ensures { WritesFront O.Sink out.old out.new
        (line.old ++ counted.counted_sample plan.now counts.now sample) line.new result }
{
    let lattice = plan.lattice();
    'slots: for t in 0..plan.slots() {
        let slot = SampleSlot { sample, number: t };
        add_slot(out, line, &counts[t as usize], &lattice, slot)?;
    }
    Ok(())
}

// A slot of one sample.
#[derive(Clone, Copy)]
struct SampleSlot {
    sample: u32,
    number: u32,
}

// Adds those of one slot.
fn add_slot<O: Sink>(
    out: &mut O,
    line: &mut Line,
    counts: &[[u64; 20]],
    lattice: &Lattice,
    slot: SampleSlot,
) -> Result<(), Fault>
    requires sized { length counts.now ≡ COUNTS }
    requires sample { slot.sample < 64 }
    ensures { WritesFront O.Sink out.old out.new
        (line.old ++ counted.counted_slot lattice.now slot.sample slot.number counts.now) line.new result }
{
    let sum = sum_of(&counts[0], slot.sample, 3 * lattice.sites());
    add_link(out, line, slot, sum)?;
    'directions: for d in 0..3 {
        add_direction(out, line, counts, lattice, slot, d)?;
    }
    Ok(())
}

// Adds the lines in one direction.
fn add_direction<O: Sink>(
    out: &mut O,
    line: &mut Line,
    counts: &[[u64; 20]],
    lattice: &Lattice,
    slot: SampleSlot,
    d: u32,
) -> Result<(), Fault>
    requires sized { length counts.now ≡ COUNTS }
    requires sample { slot.sample < 64 }
    requires direction { d < 3 }
    ensures { WritesFront O.Sink out.old out.new
        (line.old ++ counted.counted_direction lattice.now slot.sample slot.number counts.now d) line.new result }
{
    let sites = lattice.sites();
    'distances: for k in 0..lattice.size() / 2 {
        let sum = sum_of(&counts[(32 * d + (k + 1)) as usize], slot.sample, sites);
        add_line(out, line, slot, d, k + 1, sum)?;
    }
    Ok(())
}

// The sum of so many terms of which a sample's count are +1 and the others -1.
fn sum_of(count: &[u64; 20], sample: u32, terms: u32) -> i64
    requires { sample < 64 }
    ensures { result ≡ pos (2 * number count.now sample) -ℤ pos terms }
{
    let positive = Planes { words: *count }.number_at(sample);
    2 * positive as i64 - terms as i64
}

// Adds the line of a link overlap.
fn add_link<O: Sink>(out: &mut O, line: &mut Line, slot: SampleSlot, sum: i64) -> Result<(), Fault>
    ensures { WritesFront O.Sink out.old out.new
        (line.old ++ text.link_line slot.sample slot.number sum) line.new result }
{
    line.make_room(out, LINK_ROOM)?;
    fill_link(line, slot, sum);
    Ok(())
}

// Adds it at the end.
#[tactic(auto, unfolding(crate::specs::LineText::link_line))]
fn fill_link(line: &mut Line, slot: SampleSlot, sum: i64)
    requires { length line.old + LINK_ROOM ≤ line_room }
    ensures { line.new ≡ line.old ++ text.link_line slot.sample slot.number sum }
{
    line.add(b"link,");
    line.number(slot.sample as u64);
    line.add(b",");
    line.number(slot.number as u64);
    line.add(b",");
    line.signed(sum);
    line.add(b"\n");
}

// Adds the line of a direction and distance.
fn add_line<O: Sink>(
    out: &mut O,
    line: &mut Line,
    slot: SampleSlot,
    d: u32,
    r: u32,
    sum: i64,
) -> Result<(), Fault>
    ensures { WritesFront O.Sink out.old out.new
        (line.old ++ text.line_line slot.sample slot.number d r sum) line.new result }
{
    line.make_room(out, SUM_ROOM)?;
    fill_line(line, slot, d, r, sum);
    Ok(())
}

// Adds it at the end.
#[tactic(auto, unfolding(crate::specs::LineText::line_line))]
fn fill_line(line: &mut Line, slot: SampleSlot, d: u32, r: u32, sum: i64)
    requires { length line.old + SUM_ROOM ≤ line_room }
    ensures { line.new ≡ line.old ++ text.line_line slot.sample slot.number d r sum }
{
    line.add(b"line,");
    line.number(slot.sample as u64);
    line.add(b",");
    line.number(slot.number as u64);
    line.add(b",");
    line.number(d as u64);
    line.add(b",");
    line.number(r as u64);
    line.add(b",");
    line.signed(sum);
    line.add(b"\n");
}
