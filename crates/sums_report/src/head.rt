//! The first line, and the last.

ghost use Rattle.std.specs.Prelude.{◌≡◌, ◌+◌, ◌≤◌, [], ◌++◌, length, codes, decimal};
ghost use Rattle.glass_edges.specs.Contents.{line_room};
ghost use Rattle.measured_sums.specs.SumsText.{heading_line};
ghost use Rattle.sums_report.specs.HeldSums.{heading_of};

use glass_edges::Line;

/// What the first line says of a run: its lattice, slots and samples, the word of its dynamics, how often an
/// epoch is measured, from which epoch to which it goes, and the digest of its plan in hexadecimal.
#[derive(Clone, Copy)]
pub struct SumsHead<'a> {
    pub size: u32,
    pub slots: u32,
    pub samples: u32,
    pub rule: &'a [u8],
    pub every: u64,
    pub from: u64,
    pub to: u64,
    pub digest: &'a [u8],
}

/// Adds the first line.
#[tactic(auto, unfolding(measured_sums::specs::SumsText::heading_line))]
pub(crate) fn add_heading(line: &mut Line, head: &SumsHead)
    requires empty { line.old ≡ [] }
    requires rule { length head.now.rule.now ≤ 64 }
    requires digest { length head.now.digest.now ≤ 64 }
    ensures { line.new ≡ heading_line (heading_of head.now) }
{
    line.add(b"measure 1 size=");
    line.number(head.size as u64);
    line.add(b" slots=");
    line.number(head.slots as u64);
    line.add(b" samples=");
    line.number(head.samples as u64);
    line.add(b" rule=");
    line.add(head.rule);
    line.add(b" every=");
    line.number(head.every);
    line.add(b" from=");
    line.number(head.from);
    line.add(b" to=");
    line.number(head.to);
    line.add(b" digest=");
    line.add(head.digest);
    line.add(b"\n");
}

/// The bytes that the last line has at most.
pub(crate) const END_ROOM: usize = 25;

/// Adds the last line.
pub(crate) fn add_end(line: &mut Line, to: u64)
    requires { length line.old + END_ROOM ≤ line_room }
    ensures { line.new ≡ line.old ++ (codes "end," ++ decimal to ++ codes "\n") }
{
    line.add(b"end,");
    line.number(to);
    line.add(b"\n");
}
