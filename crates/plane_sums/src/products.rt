//! The correlations of the sums over planes at all distances.

ghost use Rattle.std.specs.Prelude.{◌≡◌, ℕ, ◌+◌, ◌-◌, ◌*◌, ◌/◌, ◌%◌, ◌^◌, ◌<◌, ◌≤◌, ℤ, pos, nat_abs, ◌+ℤ◌, ◌*ℤ◌, [], slice_index_or};
ghost use Rattle.measured_sums.specs.OverlapField.{Field};
ghost use Rattle.measured_sums.specs.PlaneCorrelations.{axis_correlation, face_correlation};
ghost use Rattle.measured_sums.specs.PlaneFamilies.{plane_sum};
ghost use Rattle.plane_sums.specs.Correlations.{product_sum, signed_at};
ghost use Rattle.plane_sums.specs.Families.{family_at};
ghost use Rattle.plane_sums.specs.Rooms.{number_in};
ghost use Rattle.spin_model.specs.SignedSums.{sum_of};

use lattice_geometry::Lattice;

/// The correlations of the planes' sums at the distances from 0 to half the side: by distance and
/// sample, those of the three axes added up, and those of the six diagonals of the faces. No sum is
/// above L^2. Takes no memory.
pub fn correlations(
    numbers: &[[[i16; 64]; 64]; 9],
    lattice: Lattice,
    axis: &mut [[i64; 64]; 33],
    face: &mut [[i64; 64]; 33],
)
    requires within { (f m b : ℕ) → f < 9 → m < lattice → b < 64 → nat_abs (number_in numbers.now f m b) ≤ 4096 }
    ensures axis { (q : ℕ → Field)
        → ((f m b : ℕ) → f < 9 → m < lattice → b < 64 → number_in numbers.now f m b ≡ plane_sum lattice (q b) (family_at f) m)
        → (r b : ℕ) → r ≤ lattice / 2 → b < 64
        → signed_at (slice_index_or axis.new r []) b ≡ axis_correlation lattice (q b) r }
    ensures face { (q : ℕ → Field)
        → ((f m b : ℕ) → f < 9 → m < lattice → b < 64 → number_in numbers.now f m b ≡ plane_sum lattice (q b) (family_at f) m)
        → (r b : ℕ) → r ≤ lattice / 2 → b < 64
        → signed_at (slice_index_or face.new r []) b ≡ face_correlation lattice (q b) r }
{
    let size = lattice.size() as usize;
    'distances: for r in 0..size / 2 + 1 {
        sum_distance(&mut axis[r], numbers, 0, 3, size, r);
        sum_distance(&mut face[r], numbers, 3, 9, size, r);
    }
}

// The correlations of some families at a distance, added up.
fn sum_distance(
    out: &mut [i64; 64],
    numbers: &[[[i16; 64]; 64]; 9],
    from: usize,
    to: usize,
    size: usize,
    r: usize,
)
    requires size { (0 < size) × (size ≤ 64) }
    requires r { r ≤ size }
    requires families { (from ≤ to) × (to ≤ 9) }
    requires within { (f m b : ℕ) → f < 9 → m < size → b < 64 → nat_abs (number_in numbers.now f m b) ≤ 4096 }
    ensures { (b : ℕ) → b < 64 → signed_at out.new b
        ≡ sum_of (λ k. product_sum size numbers.now (from + k) r b) (to - from) }
{
    *out = no_totals();
    'families: for family in from..to {
        add_family(out, &numbers[family], size, r);
    }
}

// Adds the correlation of one family at a distance.
fn add_family(out: &mut [i64; 64], planes: &[[i16; 64]; 64], size: usize, r: usize)
    requires size { (0 < size) × (size ≤ 64) }
    requires r { r ≤ size }
    requires within { (m b : ℕ) → m < size → b < 64 → nat_abs (signed_at (slice_index_or planes.now m []) b) ≤ 4096 }
    requires room { (b : ℕ) → b < 64 → nat_abs (signed_at out.old b) ≤ 2 ^ 40 }
    ensures { (b : ℕ) → b < 64 → signed_at out.new b ≡ signed_at out.old b
        +ℤ sum_of (λ m. signed_at (slice_index_or planes.now m []) b
        *ℤ signed_at (slice_index_or planes.now ((m + r) % size) []) b) size }
{
    let mut sums = no_sums();
    'planes: for m in 0..size {
        add_products(&mut sums, &planes[m], &planes[(m + r) % size]);
    }
    widen(out, &sums);
}

// Adds the products of two planes' sums in each sample.
#[inline]
fn add_products(sums: &mut [i32; 64], first: &[i16; 64], second: &[i16; 64])
    requires first { (b : ℕ) → b < 64 → nat_abs (signed_at first.now b) ≤ 4096 }
    requires second { (b : ℕ) → b < 64 → nat_abs (signed_at second.now b) ≤ 4096 }
    requires room { (b : ℕ) → b < 64 → nat_abs (signed_at sums.old b) ≤ 2 ^ 30 }
    ensures { (b : ℕ) → b < 64 → signed_at sums.new b
        ≡ signed_at sums.old b +ℤ signed_at first.now b *ℤ signed_at second.now b }
{
    'samples: for b in 0..64usize {
        sums[b] = plus_product(sums[b], first[b], second[b]);
    }
}

// Adds sums of 32 bits to those of 64.
#[inline]
fn widen(out: &mut [i64; 64], sums: &[i32; 64])
    requires out { (b : ℕ) → b < 64 → nat_abs (signed_at out.old b) ≤ 2 ^ 40 }
    requires sums { (b : ℕ) → b < 64 → nat_abs (signed_at sums.now b) ≤ 2 ^ 30 }
    ensures { (b : ℕ) → b < 64 → signed_at out.new b ≡ signed_at out.old b +ℤ signed_at sums.now b }
{
    'samples: for b in 0..64usize {
        out[b] = plus(out[b], sums[b]);
    }
}

#[inline(always)]
fn plus_product(sum: i32, first: i16, second: i16) -> i32
    requires sum { nat_abs sum ≤ 2 ^ 30 }
    requires first { nat_abs first ≤ 4096 }
    requires second { nat_abs second ≤ 4096 }
    ensures { result ≡ sum +ℤ first *ℤ second }
{
    sum + first as i32 * second as i32
}

#[inline(always)]
fn plus(total: i64, sum: i32) -> i64
    requires { nat_abs total ≤ 2 ^ 40 }
    ensures { result ≡ total +ℤ sum }
{
    total + sum as i64
}

#[inline(always)]
fn no_sums() -> [i32; 64]
    ensures { (b : ℕ) → signed_at result b ≡ pos 0 }
{
    [0i32; 64]
}

#[inline(always)]
fn no_totals() -> [i64; 64]
    ensures { (b : ℕ) → signed_at result b ≡ pos 0 }
{
    [0i64; 64]
}
