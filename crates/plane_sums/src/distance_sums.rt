//! The sums of correlations of 64 samples by distance.

ghost use Rattle.std.specs.Prelude.{◌≡◌, ℕ, ◌+◌, ◌^◌, ◌<◌, ◌≤◌, nat_abs, ◌+ℤ◌, [], slice_index_or};
ghost use Rattle.plane_sums.specs.Correlations.{signed_at};

/// Adds an epoch's correlations at the first distances.
pub(crate) fn add_distances(sums: &mut [[i64; 64]; 33], terms: &[[i64; 64]; 33], count: usize)
    requires count { count ≤ 33 }
    requires room { (r b : ℕ) → r < count → b < 64 → nat_abs (signed_at (slice_index_or sums.old r []) b)
        + nat_abs (signed_at (slice_index_or terms.now r []) b) < 2 ^ 63 }
    ensures added { (r b : ℕ) → r < count → b < 64 → signed_at (slice_index_or sums.new r []) b
        ≡ signed_at (slice_index_or sums.old r []) b +ℤ signed_at (slice_index_or terms.now r []) b }
    ensures others { (r : ℕ) → count ≤ r → slice_index_or sums.new r [] ≡ slice_index_or sums.old r [] }
{
    'distances: for r in 0..count {
        add_samples(&mut sums[r], &terms[r]);
    }
}

#[inline]
fn add_samples(sums: &mut [i64; 64], terms: &[i64; 64])
    requires { (b : ℕ) → b < 64 → nat_abs (signed_at sums.old b) + nat_abs (signed_at terms.now b) < 2 ^ 63 }
    ensures { (b : ℕ) → b < 64 → signed_at sums.new b ≡ signed_at sums.old b +ℤ signed_at terms.now b }
{
    'samples: for b in 0..64usize {
        sums[b] = plus(sums[b], terms[b]);
    }
}

#[inline(always)]
fn plus(sum: i64, term: i64) -> i64
    requires { nat_abs sum + nat_abs term < 2 ^ 63 }
    ensures { result ≡ sum +ℤ term }
{
    sum + term
}
