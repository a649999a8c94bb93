//! The lines of the summary of a run whose plan is made from a number.

ghost use Rattle.glass_edges.specs.Writes.{Writes};
ghost use Rattle.report_text.specs.Lines as lines;

use glass_edges::{Fault, Line, Sink};
use scalar_rule::Plan;

/// Puts the first line of a summary: the number that the plan is made from, its sizes, and the epoch at
/// which the run ends.
///
/// # Errors
///
/// Where the output failed; it has then taken a prefix of the line.
#[tactic(auto, unfolding(crate::specs::Lines::summary_line))]
pub fn summary_header<O: Sink>(
    out: &mut O,
    n: u64,
    plan: &Plan,
    samples: u32,
    until: u64,
) -> Result<(), Fault>
    ensures { Writes O.Sink out.old out.new (lines.summary_line n plan.now samples until) result }
{
    let mut line = Line::new();
    line.add(b"demo 1 n=");
    line.number(n);
    line.add(b" size=");
    line.number(plan.lattice().size() as u64);
    line.add(b" slots=");
    line.number(plan.slots() as u64);
    line.add(b" samples=");
    line.number(samples as u64);
    line.add(b" epochs=");
    line.number(until);
    line.add(b"\n");
    line.put(out)
}

/// Puts a slot's line: the sum over all samples of both replicas' energies, in units of the coupling, and
/// in how many samples its first replica began in another slot.
///
/// # Errors
///
/// Where the output failed; it has then taken a prefix of the line.
#[tactic(auto, unfolding(crate::specs::Lines::slot_line))]
pub fn slot_line<O: Sink>(out: &mut O, slot: u32, energy: i64, away: u32) -> Result<(), Fault>
    ensures { Writes O.Sink out.old out.new (lines.slot_line slot energy away) result }
{
    let mut line = Line::new();
    line.add(b"slot,");
    line.number(slot as u64);
    line.add(b",");
    line.signed(energy);
    line.add(b",");
    line.number(away as u64);
    line.add(b"\n");
    line.put(out)
}
