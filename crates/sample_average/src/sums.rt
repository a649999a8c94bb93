//! Sums over rows.

ghost use Rattle.std.specs.Prelude.{◌≡◌, ◌+◌, ◌*◌, ◌≤◌, unsigned_abs, []};
ghost use Rattle.sample_average.specs.Averages as sums;
ghost use Rattle.sample_average.specs.Averages.{sums_of};
ghost use Rattle.sample_average.specs.ReadReport.{most_report_bytes};
ghost use Rattle.sample_average.specs.Tallies.{sums_after, sums_without, AreSmall};

use crate::row::Row;

/// The sums of a set of rows, exactly.
#[derive(Clone, Copy, Debug, PartialEq, Eq)]
pub struct Sums {
    /// The number of rows.
    pub rows: u64,
    /// The sum of the energies of both replicas.
    pub energy: i128,
    /// The sum of the squares of the overlap.
    pub squares: u128,
    /// The sum of the fourth powers of the overlap.
    pub fourths: u128,
}

impl Sums {
    /// The sums of no row.
    pub(crate) fn none() -> Sums
        ensures { result ≡ sums_of [] }
    {
        Sums {
            rows: 0,
            energy: 0,
            squares: 0,
            fourths: 0,
        }
    }

    /// The sums with one row more.
    pub(crate) fn with(self, row: &Row) -> Sums
        requires small { AreSmall most_report_bytes self }
        requires first { unsigned_abs row.now.first_energy ≤ 786432 }
        requires second { unsigned_abs row.now.second_energy ≤ 786432 }
        requires overlap { unsigned_abs row.now.overlap ≤ 262144 }
        ensures { result ≡ sums_after self row.now }
    {
        let square = square_of(row.overlap);
        Sums {
            rows: self.rows + 1,
            energy: self.energy + energy_of(row),
            squares: self.squares + square,
            fourths: self.fourths + fourth_of(square),
        }
    }

    /// The sums over the rows that are not among these others.
    pub(crate) fn without(self, part: Sums) -> Sums
        requires rows { part.rows ≤ self.rows }
        requires squares { part.squares ≤ self.squares }
        requires fourths { part.fourths ≤ self.fourths }
        requires energy { AreSmall most_report_bytes self }
        requires its_energy { AreSmall most_report_bytes part }
        ensures { result ≡ sums_without self part }
    {
        Sums {
            rows: self.rows - part.rows,
            energy: self.energy - part.energy,
            squares: self.squares - part.squares,
            fourths: self.fourths - part.fourths,
        }
    }
}

// The energy of both replicas.
fn energy_of(row: &Row) -> i128
    requires first { unsigned_abs row.now.first_energy ≤ 786432 }
    requires second { unsigned_abs row.now.second_energy ≤ 786432 }
    ensures value { result ≡ sums.energy_of row.now }
    ensures within { unsigned_abs result ≤ 2097152 }
{
    row.first_energy as i128 + row.second_energy as i128
}

// The square of an overlap.
#[tactic(auto, using(crate::proofs::Powers::square_few))]
fn square_of(overlap: i32) -> u128
    requires { unsigned_abs overlap ≤ 262144 }
    ensures value { result ≡ unsigned_abs overlap * unsigned_abs overlap }
    ensures within { result ≤ 68719476736 }
{
    let size = overlap.unsigned_abs() as u128;
    size * size
}

// The square of a square.
#[tactic(auto, using(crate::proofs::Powers::fourth_few))]
fn fourth_of(square: u128) -> u128
    requires { square ≤ 68719476736 }
    ensures value { result ≡ square * square }
    ensures within { result ≤ 4722366482869645213696 }
{
    square * square
}
