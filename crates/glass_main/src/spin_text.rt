//! Spins as hexadecimal digits.

ghost use Rattle.std.specs.Prelude.{◌≡◌, ◌+◌, ◌*◌, ◌<◌, ◌≤◌, ◌++◌, length};
ghost use Rattle.glass_edges.specs.Writes.{Writes, WritesFront};
ghost use Rattle.scalar_rule.specs.SpinDigits.{four_spins, spin_digits};
ghost use Rattle.spin_model.specs.Lattice.{volume};
ghost use Rattle.glass_main.specs.Texts.{spin_line};

use crate::long_line::end_line;
use glass_edges::{Fault, Line, Sink};
use lattice_geometry::Lattice;
use report_text::spin_digit;

// The digit of the four sites from a site on.
fn four_spins(spins: &[bool], site: usize) -> u8
    requires { site + 3 < length spins.now }
    ensures { result ≡ four_spins spins.now site }
{
    spin_digit(
        spins[site],
        spins[site + 1],
        spins[site + 2],
        spins[site + 3],
    )
}

/// Puts the text of the buffer and behind it the line of the spins, which are those of all sites.
#[tactic(auto, unfolding(crate::specs::Texts::spin_line))]
pub(crate) fn put_spin_line<O: Sink>(
    out: &mut O,
    line: &mut Line,
    lattice: &Lattice,
    spins: &[bool],
) -> Result<(), Fault>
    requires sites { length spins.now ≡ volume lattice.now }
    requires room { length line.old ≤ 200 }
    ensures { Writes O.Sink out.old out.new (line.old ++ spin_line lattice.now spins.now) result }
{
    line.add(b"spin,");
    put_digits(out, line, lattice, spins)?;
    end_line(out, line)
}

// Adds the digits of all spins; what does not fit goes out in pieces.
fn put_digits<O: Sink>(
    out: &mut O,
    line: &mut Line,
    lattice: &Lattice,
    spins: &[bool],
) -> Result<(), Fault>
    requires { length spins.now ≡ volume lattice.now }
    ensures { WritesFront O.Sink out.old out.new
        (line.old ++ spin_digits lattice.now spins.now) line.new result }
{
    line.extend_by(out, spins.len() / 4, |k| four_spins(spins, 4 * k))
}
