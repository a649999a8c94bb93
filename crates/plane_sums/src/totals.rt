//! The overlap summed over the planes of each family, from the sums along lines.

ghost use Rattle.std.specs.Prelude.{◌≡◌, ℕ, ◌+◌, ◌*◌, ◌%◌, ◌^◌, ◌<◌, ◌≤◌, length};
ghost use Rattle.multispin_word.specs.Planes.{number};
ghost use Rattle.plane_sums.specs.Counts.{count_at, line_at};
ghost use Rattle.plane_sums.specs.Lines.{begins_at};
ghost use Rattle.scalar_rule.specs.Positions.{sum_below};

use crate::counts::{Counts, plane_width};
use bit_compare::add;
use multispin_word::Planes;
use plain_list::Items;

/// How the planes of a family meet the lines of a projection: at one place of all of them, at one that
/// falls by a place from line to line, or at one that rises.
#[derive(Clone, Copy)]
pub(crate) enum Turn {
    Straight,
    Sum,
    Difference,
}

impl Turn {
    /// The place at which plane 0 meets a line, up to whole turns.
    fn begin(self, size: usize, line: usize) -> usize
        requires { line < size }
        ensures value { result ≡ begins_at self size line }
        ensures within { result ≤ size }
    {
        match self {
            Turn::Straight => 0,
            Turn::Sum => size - line,
            Turn::Difference => line,
        }
    }
}

/// Sums over the planes that meet each line of a projection at one place.
pub(crate) fn sum_across(total: &mut Counts<13>, lines: &Items<Counts<7>>, turn: Turn, size: usize)
    requires size { size ≤ 64 }
    requires lines { length lines.now ≡ 64 }
    requires small { (o k b : ℕ) → o < size → k < 2 * size → b < 64 → count_at (line_at lines.now o) k b ≤ size }
    ensures { (m b : ℕ) → m < size → b < 64 → count_at total.new.planes m b
        ≡ sum_below (λ o. count_at (line_at lines.now o) (begins_at turn size o + m) b) size }
{
    let width = plane_width(size * size);
    total.clear(size);
    'lines: for line in 0..size {
        total.add_counts(lines.at(line), turn.begin(size, line), size, width);
    }
}

/// Sums over all places of each line.
pub(crate) fn sum_along(total: &mut Counts<13>, lines: &Items<Counts<7>>, size: usize)
    requires size { size ≤ 64 }
    requires lines { length lines.now ≡ 64 }
    requires small { (o k b : ℕ) → o < size → k < 2 * size → b < 64 → count_at (line_at lines.now o) k b ≤ size }
    ensures { (m b : ℕ) → m < size → b < 64 → count_at total.new.planes m b
        ≡ sum_below (λ k. count_at (line_at lines.now m) k b) size }
{
    'lines: for line in 0..size {
        total.put(line, &sum_of_line(lines.at(line), size).words);
    }
}

// The sum over the first places of a line.
fn sum_of_line(line: &Counts<7>, size: usize) -> Planes<13>
    requires size { size ≤ 64 }
    requires small { (k b : ℕ) → k < size → b < 64 → count_at line.now.planes k b ≤ size }
    ensures { (b : ℕ) → b < 64 → number result.words b ≡ sum_below (λ k. count_at line.now.planes k b) size }
{
    let mut sum = Planes::zero();
    'places: for k in 0..size {
        add(&mut sum, &line.number(k));
    }
    sum
}
