//! The sums of a sample, of those of all.

ghost use Rattle.std.specs.Prelude.{◌≡◌, ℕ, ◌<◌, [], ◌∷◌, length, slice_index_or};
ghost use Rattle.plane_sums.specs.Correlations.{signed_at};

use plane_sums::FieldSums;

/// A sample's overlap and link sum.
pub(crate) fn totals_of(sums: &FieldSums, b: usize) -> [i64; 2]
    requires { b < 64 }
    ensures { result ≡ signed_at sums.now.overlaps b ∷ signed_at sums.now.links b ∷ [] }
{
    [number_at(&sums.overlaps, b), number_at(&sums.links, b)]
}

#[inline(always)]
fn number_at(numbers: &[i32; 64], b: usize) -> i64
    requires { b < 64 }
    ensures { result ≡ signed_at numbers.now b }
{
    numbers[b] as i64
}

/// A sample's sums at all distances.
pub(crate) fn column_of(sums: &[[i64; 64]; 33], b: usize) -> [i64; 33]
    requires { b < 64 }
    ensures length { length result ≡ 33 }
    ensures value { (r : ℕ) → r < 33 → signed_at result r ≡ signed_at (slice_index_or sums.now r []) b }
{
    let mut column = [0i64; 33];
    'distances: for r in 0..33usize {
        column[r] = sums[r][b];
    }
    column
}
