//! The overlaps of 64 samples, which the sums over the planes of a family add up to.

ghost use Rattle.std.specs.Prelude.{◌≡◌, ℕ, ◌+◌, ◌<◌, ◌≤◌, nat_abs, ◌+ℤ◌, [], slice_index_or, pos};
ghost use Rattle.plane_sums.specs.Correlations.{signed_at};
ghost use Rattle.spin_model.specs.SignedSums.{sum_of};

/// Adds up the sums over a family's planes.
pub(crate) fn sum_planes(out: &mut [i32; 64], planes: &[[i16; 64]; 64], size: usize)
    requires size { size ≤ 64 }
    requires within { (m b : ℕ) → m < size → b < 64 → nat_abs (signed_at (slice_index_or planes.now m []) b) ≤ 4096 }
    ensures { (b : ℕ) → b < 64 → signed_at out.new b
        ≡ sum_of (λ m. signed_at (slice_index_or planes.now m []) b) size }
{
    *out = no_overlaps();
    'planes: for m in 0..size {
        add_plane(out, &planes[m]);
    }
}

// Adds the sums over a plane.
#[inline]
fn add_plane(out: &mut [i32; 64], plane: &[i16; 64])
    requires out { (b : ℕ) → b < 64 → nat_abs (signed_at out.old b) ≤ 262144 }
    requires plane { (b : ℕ) → b < 64 → nat_abs (signed_at plane.now b) ≤ 4096 }
    ensures { (b : ℕ) → b < 64 → signed_at out.new b ≡ signed_at out.old b +ℤ signed_at plane.now b }
{
    'samples: for b in 0..64usize {
        out[b] = plus(out[b], plane[b]);
    }
}

#[inline(always)]
fn plus(total: i32, sum: i16) -> i32
    requires { nat_abs total ≤ 262144 }
    ensures { result ≡ total +ℤ sum }
{
    total + sum as i32
}

#[inline(always)]
fn no_overlaps() -> [i32; 64]
    ensures { (b : ℕ) → signed_at result b ≡ pos 0 }
{
    [0i32; 64]
}
