//! The lines of an aging run: its first, those of the overlaps, and its last.

ghost use Rattle.std.specs.Prelude.{◌≡◌, ◌+◌, ◌<◌, ◌≤◌, [], ◌++◌, length};
ghost use Rattle.glass_edges.specs.Contents.{line_room};
ghost use Rattle.glass_edges.specs.Writes.{Writes, WritesFront};
ghost use Rattle.aging_run.specs.Aging as lines;
ghost use Rattle.aging_run.specs.Measuring.{overlap_in};

use glass_edges::{Fault, Line, Sink, put_all};
use multispin_word::Planes;
use report_text::kind_word;
use scalar_rule::Plan;

/// The bytes that the line of an overlap has at most: five numbers of 20 characters, and the nine around
/// them.
const OVERLAP_ROOM: usize = 109;

/// Where a replica stands.
#[derive(Clone, Copy)]
pub(crate) struct ReplicaPlace {
    pub(crate) slot: u32,
    /// Which of the two replicas of its slot, 0 or 1.
    pub(crate) copy: u32,
}

/// What is measured of a replica at one time.
#[derive(Clone, Copy)]
pub(crate) struct Measured<'a> {
    pub(crate) place: ReplicaPlace,
    /// Sweeps since the spins were kept.
    pub(crate) time: u64,
    /// In each sample, how many sites have the spins that were kept.
    pub(crate) agreeing: &'a Planes<20>,
    /// The number of all sites.
    pub(crate) sites: u32,
}

/// Puts the first line, of a run whose spins are kept after `wait` sweeps.
pub(crate) fn write_header<O: Sink>(
    out: &mut O,
    plan: &Plan,
    samples: u32,
    wait: u64,
) -> Result<(), Fault>
    ensures { Writes O.Sink out.old out.new (lines.header_line plan.now samples wait) result }
{
    let mut line = Line::new();
    fill_header(&mut line, plan, samples, wait);
    line.put(out)
}

// Fills an empty line with the first.
#[tactic(auto, unfolding(crate::specs::Aging::header_line))]
fn fill_header(line: &mut Line, plan: &Plan, samples: u32, wait: u64)
    requires { line.old ≡ [] }
    ensures { line.new ≡ lines.header_line plan.now samples wait }
{
    line.add(b"age 1 size=");
    line.number(plan.lattice().size() as u64);
    line.add(b" slots=");
    line.number(plan.slots() as u64);
    line.add(b" samples=");
    line.number(samples as u64);
    line.add(b" rule=");
    line.add(kind_word(plan.rules().kind()));
    line.add(b" tw=");
    line.number(wait);
    line.add(b"\n");
}

/// Adds the line of one sample in a replica at a time, from its agreeing sites, behind a text that is
/// still to be put. Where it might not fit there, the text goes out first.
pub(crate) fn add_overlap<O: Sink>(
    out: &mut O,
    text: &mut Line,
    measured: &Measured,
    sample: u32,
) -> Result<(), Fault>
    requires { sample < 64 }
    ensures { WritesFront O.Sink out.old out.new
        (text.old ++ lines.overlap_line measured.now.place.slot measured.now.place.copy measured.now.time sample (overlap_in measured.now.agreeing.now.words measured.now.sites sample)) text.new result }
{
    text.make_room(out, OVERLAP_ROOM)?;
    fill_overlap(text, measured, sample);
    Ok(())
}

// Adds it at the end.
#[tactic(auto, unfolding(crate::specs::Aging::overlap_line))]
fn fill_overlap(line: &mut Line, measured: &Measured, sample: u32)
    requires room { length line.old + OVERLAP_ROOM ≤ line_room }
    requires sample { sample < 64 }
    ensures { line.new ≡ line.old ++ lines.overlap_line measured.now.place.slot measured.now.place.copy measured.now.time sample (overlap_in measured.now.agreeing.now.words measured.now.sites sample) }
{
    line.add(b"age,");
    line.number(measured.place.slot as u64);
    line.add(b",");
    line.number(measured.place.copy as u64);
    line.add(b",");
    line.number(measured.time);
    line.add(b",");
    line.number(sample as u64);
    line.add(b",");
    line.signed(overlap_of(measured, sample));
    line.add(b"\n");
}

// Of one sample, twice the agreeing sites less all sites.
fn overlap_of(measured: &Measured, sample: u32) -> i64
    requires { sample < 64 }
    ensures { result ≡ overlap_in measured.now.agreeing.now.words measured.now.sites sample }
{
    2 * measured.agreeing.number_at(sample) as i64 - measured.sites as i64
}

/// Puts the last line.
pub(crate) fn write_end<O: Sink>(out: &mut O) -> Result<(), Fault>
    ensures { Writes O.Sink out.old out.new lines.end_line result }
{
    put_all(out, b"end\n")
}
