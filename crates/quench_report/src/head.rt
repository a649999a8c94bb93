//! The first line.

ghost use Rattle.std.specs.Prelude.{◌≡◌, ◌≤◌, [], length};
ghost use Rattle.quenched_states.specs.QuenchText.{quench_heading_line};
ghost use Rattle.quench_report.specs.States.{heading_of};

use glass_edges::Line;
use lattice_geometry::Lattice;

/// What the first line says of a quench: its lattice, slots and samples, the word of its dynamics, the sweeps
/// of an epoch, how many times it has, and how many states were held from the beginning.
#[derive(Clone, Copy)]
pub struct QuenchHead<'a> {
    pub lattice: Lattice,
    pub slots: u32,
    pub samples: u32,
    pub rule: &'a [u8],
    pub sweeps: u32,
    /// The epochs of the kept states, which the lines name.
    pub times: &'a [u64],
    /// The states before this one have no lines of their own.
    pub held: usize,
}

/// Adds the first line.
#[tactic(auto, unfolding(quenched_states::specs::QuenchText::quench_heading_line))]
pub(crate) fn add_heading(line: &mut Line, head: &QuenchHead)
    requires empty { line.old ≡ [] }
    requires rule { length head.now.rule.now ≤ 64 }
    ensures { line.new ≡ quench_heading_line (heading_of head.now) }
{
    line.add(b"quench 1 size=");
    line.number(head.lattice.size() as u64);
    line.add(b" slots=");
    line.number(head.slots as u64);
    line.add(b" samples=");
    line.number(head.samples as u64);
    line.add(b" rule=");
    line.add(head.rule);
    line.add(b" sweeps=");
    line.number(head.sweeps as u64);
    line.add(b" times=");
    line.number(head.times.len() as u64);
    line.add(b" held=");
    line.number(head.held as u64);
    line.add(b"\n");
}
