//! The overlap summed over the planes of all families.

ghost use Rattle.std.specs.Prelude.{◌≡◌, ℕ, ◌<◌, ◌≤◌, Bool, length};
ghost use Rattle.plane_sums.specs.Counts.{count_at, line_at};
ghost use Rattle.plane_sums.specs.Families.{family_at, AreCounts, HasLines, HasRoom};
ghost use Rattle.plane_sums.specs.Lines.{family_count};
ghost use Rattle.spin_model.specs.Lattice.{IsLawfulSize};

use crate::counts::Counts;
use crate::projections::Projections;
use crate::totals::{Turn, sum_across, sum_along};
use plain_list::Items;

/// The number of families of planes.
pub(crate) const FAMILIES: usize = 9;

/// Sums over the planes of all families.
pub(crate) fn sum_families(totals: &mut Items<Counts<13>>, lines: &Projections, size: usize)
    requires lawful { IsLawfulSize size }
    requires totals { length totals.old ≡ 9 }
    requires room { HasRoom lines.now }
    requires counted { AreCounts size lines.now }
    ensures sums { (test : ℕ → ℕ → Bool) → HasLines size test lines.now
        → (f m b : ℕ) → f < 9 → m < size → b < 64
        → count_at (line_at totals.new f) m b ≡ family_count size (test b) (family_at f) m }
    ensures long { length totals.new ≡ 9 }
{
    'families: for family in 0..FAMILIES {
        sum_family(totals.at_mut(family), lines, family, size);
    }
}

// Sums over the planes of one family.
fn sum_family(total: &mut Counts<13>, lines: &Projections, family: usize, size: usize)
    requires lawful { IsLawfulSize size }
    requires family { family < 9 }
    requires room { HasRoom lines.now }
    requires counted { AreCounts size lines.now }
    ensures { (test : ℕ → ℕ → Bool) → HasLines size test lines.now
        → (m b : ℕ) → m < size → b < 64
        → count_at total.new.planes m b ≡ family_count size (test b) (family_at family) m }
{
    match family {
        0 => sum_across(total, &lines.along_y, Turn::Straight, size),
        1 => sum_across(total, &lines.along_x, Turn::Straight, size),
        2 => sum_along(total, &lines.along_y, size),
        3 => sum_across(total, &lines.along_z, Turn::Sum, size),
        4 => sum_across(total, &lines.along_z, Turn::Difference, size),
        5 => sum_across(total, &lines.along_y, Turn::Sum, size),
        6 => sum_across(total, &lines.along_y, Turn::Difference, size),
        7 => sum_across(total, &lines.along_x, Turn::Sum, size),
        _ => sum_across(total, &lines.along_x, Turn::Difference, size),
    }
}
