//! The sums of energies, links and overlaps of 64 samples.

ghost use Rattle.std.specs.Prelude.{◌≡◌, ℕ, ◌+◌, ◌*◌, ◌^◌, ◌<◌, ◌≤◌, pos, nat_abs, ◌+ℤ◌, ◌*ℤ◌, [], slice_index_or};
ghost use Rattle.measured_sums.specs.MeasuredSums.{square};
ghost use Rattle.plane_sums.specs.Correlations.{signed_at};
ghost use Rattle.plane_sums.specs.Measured.{moment_terms, terms_of, AreSmall};

use crate::measured::Measured;

/// Adds an epoch's terms to the sums of all samples.
pub(crate) fn add_moments(sums: &mut [[i128; 11]; 64], seen: &Measured)
    requires small { AreSmall seen.now }
    requires room { (b k : ℕ) → b < 64 → k < 11
        → nat_abs (signed_at (slice_index_or sums.old b []) k) + nat_abs (signed_at (terms_of seen.now b) k) < 2 ^ 127 }
    ensures { (b k : ℕ) → b < 64 → k < 11 → signed_at (slice_index_or sums.new b []) k
        ≡ signed_at (slice_index_or sums.old b []) k +ℤ signed_at (terms_of seen.now b) k }
{
    'samples: for b in 0..64usize {
        let terms = sample_terms(seen, b);
        add_terms(&mut sums[b], &terms);
    }
}

// What an epoch adds to the sums of a sample.
fn sample_terms(seen: &Measured, b: usize) -> [i128; 11]
    requires sample { b < 64 }
    requires small { AreSmall seen.now }
    ensures { result ≡ terms_of seen.now b }
{
    terms(
        seen.first_energies[b],
        seen.second_energies[b],
        seen.field.links[b],
        seen.field.overlaps[b],
    )
}

// The terms in the order of a line of sums, behind the number of epochs.
fn terms(first: i32, second: i32, links: i32, overlap: i32) -> [i128; 11]
    requires first { nat_abs first ≤ 786432 }
    requires second { nat_abs second ≤ 786432 }
    requires links { nat_abs links ≤ 786432 }
    requires overlap { nat_abs overlap ≤ 262144 }
    ensures { result ≡ moment_terms first second links overlap }
{
    [
        energy_sum(first, second),
        sum_of_squares(first, second),
        energy_pair(first, second),
        wide(links),
        link_square(links),
        wide(overlap),
        size_of(overlap),
        square_of(overlap),
        fourth_of(overlap),
        energy_by_square(first, second, overlap),
        energy_by_fourth(first, second, overlap),
    ]
}

#[inline(always)]
fn wide(number: i32) -> i128
    ensures { result ≡ number }
{
    number as i128
}

#[inline(always)]
fn size_of(number: i32) -> i128
    ensures { result ≡ pos (nat_abs number) }
{
    number.unsigned_abs() as i128
}

#[inline(always)]
fn energy_sum(first: i32, second: i32) -> i128
    requires first { nat_abs first ≤ 786432 }
    requires second { nat_abs second ≤ 786432 }
    ensures value { result ≡ first +ℤ second }
    ensures within { nat_abs result ≤ 1572864 }
{
    plus(wide(first), wide(second))
}

// The squares of two energies, added up.
#[inline(always)]
fn sum_of_squares(first: i32, second: i32) -> i128
    requires first { nat_abs first ≤ 786432 }
    requires second { nat_abs second ≤ 786432 }
    ensures { result ≡ square first +ℤ square second }
{
    plus(
        product(wide(first), wide(first)),
        product(wide(second), wide(second)),
    )
}

#[tactic(auto, using(crate::proofs::Powers::square_few))]
#[inline(always)]
fn square_of(overlap: i32) -> i128
    requires { nat_abs overlap ≤ 262144 }
    ensures value { result ≡ square overlap }
    ensures within { nat_abs result ≤ 68719476736 }
{
    product(wide(overlap), wide(overlap))
}

#[tactic(auto, using(crate::proofs::Powers::fourth_fits, crate::proofs::Powers::fourth_few))]
#[inline(always)]
fn fourth_of(overlap: i32) -> i128
    requires { nat_abs overlap ≤ 262144 }
    ensures value { result ≡ square (square overlap) }
    ensures within { nat_abs result ≤ 4722366482869645213696 }
{
    let squared = square_of(overlap);
    product(squared, squared)
}

#[inline(always)]
fn energy_pair(first: i32, second: i32) -> i128
    requires first { nat_abs first ≤ 786432 }
    requires second { nat_abs second ≤ 786432 }
    ensures { result ≡ first *ℤ second }
{
    product(wide(first), wide(second))
}

#[inline(always)]
fn link_square(links: i32) -> i128
    requires { nat_abs links ≤ 786432 }
    ensures { result ≡ square links }
{
    product(wide(links), wide(links))
}

#[tactic(auto, using(crate::proofs::Powers::energy_fits))]
#[inline(always)]
fn energy_by_square(first: i32, second: i32, overlap: i32) -> i128
    requires first { nat_abs first ≤ 786432 }
    requires second { nat_abs second ≤ 786432 }
    requires overlap { nat_abs overlap ≤ 262144 }
    ensures { result ≡ (first +ℤ second) *ℤ square overlap }
{
    product(energy_sum(first, second), square_of(overlap))
}

#[tactic(auto, using(crate::proofs::Powers::energy_fits))]
#[inline(always)]
fn energy_by_fourth(first: i32, second: i32, overlap: i32) -> i128
    requires first { nat_abs first ≤ 786432 }
    requires second { nat_abs second ≤ 786432 }
    requires overlap { nat_abs overlap ≤ 262144 }
    ensures { result ≡ (first +ℤ second) *ℤ square (square overlap) }
{
    product(energy_sum(first, second), fourth_of(overlap))
}

#[inline(always)]
fn product(a: i128, b: i128) -> i128
    requires { nat_abs a * nat_abs b < 2 ^ 127 }
    ensures { result ≡ a *ℤ b }
{
    a * b
}

#[inline(always)]
fn plus(a: i128, b: i128) -> i128
    requires { nat_abs a + nat_abs b < 2 ^ 127 }
    ensures { result ≡ a +ℤ b }
{
    a + b
}

/// Adds an epoch's terms to a sample's sums.
pub(crate) fn add_terms(sums: &mut [i128; 11], terms: &[i128; 11])
    requires { (k : ℕ) → k < 11 → nat_abs (signed_at sums.old k) + nat_abs (signed_at terms.now k) < 2 ^ 127 }
    ensures { (k : ℕ) → k < 11 → signed_at sums.new k ≡ signed_at sums.old k +ℤ signed_at terms.now k }
{
    'terms: for k in 0..11usize {
        sums[k] = plus(sums[k], terms[k]);
    }
}
