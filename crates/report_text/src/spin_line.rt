//! The line of a replica's spins.

ghost use Rattle.std.specs.Prelude.{◌≡◌, ◌+◌, ◌*◌, ◌%◌, ◌<◌, ◌≤◌, ◌++◌, length};
ghost use Rattle.glass_edges.specs.Writes.{Writes, WritesFront};
ghost use Rattle.scalar_rule.specs.Neighbours.{spin};
ghost use Rattle.scalar_rule.specs.SpinDigits.{four_spins as digit_at, spin_digits};
ghost use Rattle.spin_model.specs.Lattice.{volume};
ghost use Rattle.plane_sweep.specs.Packed.{FitsReplica, spins_of};
ghost use Rattle.report_text.specs.Lines.{spins_head, spins_line};

use crate::digits::spin_digit;
use glass_edges::{Fault, Line, Sink};
use lattice_geometry::Lattice;
use multispin_word::bit;
use plane_sweep::{Replica, site_word};

/// Puts the spins that a sample has in a packed replica, `copy` of the two of a temperature slot:
/// bit `sample mod 64` of its words, in the order of the sites.
///
/// # Errors
///
/// Where the output failed; it has then taken a prefix of the line.
#[tactic(auto, unfolding(crate::specs::Lines::spins_line))]
pub fn spins<O: Sink>(
    out: &mut O,
    sample: u32,
    slot: u32,
    copy: u32,
    replica: &Replica,
    lattice: Lattice,
) -> Result<(), Fault>
    requires { FitsReplica lattice replica.now }
    ensures { Writes O.Sink out.old out.new
        (spins_line lattice sample slot copy (spins_of lattice (sample % 64) replica.now.planes)) result }
{
    let mut line = Line::new();
    add_head(&mut line, sample, slot, copy);
    put_digits(out, &mut line, replica, &lattice, sample % 64)?;
    line.make_room(out, 1)?;
    line.add(b"\n");
    line.put(out)
}

// Adds what stands before the digits.
#[tactic(auto, unfolding(crate::specs::Lines::spins_head))]
fn add_head(line: &mut Line, sample: u32, slot: u32, copy: u32)
    requires { length line.old ≤ 100 }
    ensures { line.new ≡ line.old ++ spins_head sample slot copy }
{
    line.add(b"spin,");
    line.number(sample as u64);
    line.add(b",");
    line.number(slot as u64);
    line.add(b",");
    line.number(copy as u64);
    line.add(b",");
}

// Adds the digits of a sample's spins, sample `b` of 64; what does not fit goes out in pieces.
fn put_digits<O: Sink>(
    out: &mut O,
    line: &mut Line,
    replica: &Replica,
    lattice: &Lattice,
    b: u32,
) -> Result<(), Fault>
    requires sample { b < 64 }
    requires fits { FitsReplica lattice.now replica.now }
    ensures { WritesFront O.Sink out.old out.new
        (line.old ++ spin_digits lattice.now (spins_of lattice.now b replica.now.planes)) line.new result }
{
    line.extend_by(out, lattice.sites() as usize / 4, |k| {
        four_spins(replica, lattice, 4 * k as u32, b)
    })
}

// The digit of the four sites from a site on.
fn four_spins(replica: &Replica, lattice: &Lattice, site: u32, b: u32) -> u8
    requires sites { site + 3 < volume lattice.now }
    requires sample { b < 64 }
    requires fits { FitsReplica lattice.now replica.now }
    ensures { result ≡ digit_at (spins_of lattice.now b replica.now.planes) site }
{
    let _ = lattice.sites();
    spin_digit(
        is_up(replica, lattice, site, b),
        is_up(replica, lattice, site + 1, b),
        is_up(replica, lattice, site + 2, b),
        is_up(replica, lattice, site + 3, b),
    )
}

// Whether a sample's spin at a site is +1.
fn is_up(replica: &Replica, lattice: &Lattice, site: u32, b: u32) -> bool
    requires site { site < volume lattice.now }
    requires sample { b < 64 }
    requires fits { FitsReplica lattice.now replica.now }
    ensures { result ≡ spin (spins_of lattice.now b replica.now.planes) site }
{
    bit(site_word(lattice, &replica.planes, site), b)
}
