//! The first line.

ghost use Rattle.std.specs.Prelude.{◌≡◌, ◌≤◌, [], length};
ghost use Rattle.quenched_states.specs.CrossText.{cross_heading_line};
ghost use Rattle.copies_report.specs.States.{heading_of};

use glass_edges::Line;
use lattice_geometry::Lattice;

/// What the first line says of two states: their lattice, slots and samples, the word of their dynamics, and
/// the seed and the epoch of each.
#[derive(Clone, Copy)]
pub struct CopiesHead<'a> {
    pub lattice: Lattice,
    pub slots: u32,
    pub samples: u32,
    pub rule: &'a [u8],
    pub first_seed: u64,
    pub second_seed: u64,
    pub first_epoch: u64,
    pub second_epoch: u64,
}

/// Adds the first line.
#[tactic(auto, unfolding(quenched_states::specs::CrossText::cross_heading_line))]
pub(crate) fn add_heading(line: &mut Line, head: &CopiesHead)
    requires empty { line.old ≡ [] }
    requires rule { length head.now.rule.now ≤ 64 }
    ensures { line.new ≡ cross_heading_line (heading_of head.now) }
{
    line.add(b"cross 1 size=");
    line.number(head.lattice.size() as u64);
    line.add(b" slots=");
    line.number(head.slots as u64);
    line.add(b" samples=");
    line.number(head.samples as u64);
    line.add(b" rule=");
    line.add(head.rule);
    line.add(b" seeds=");
    line.number(head.first_seed);
    line.add(b",");
    line.number(head.second_seed);
    line.add(b" epochs=");
    line.number(head.first_epoch);
    line.add(b",");
    line.number(head.second_epoch);
    line.add(b"\n");
}
