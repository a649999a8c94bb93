//! Operations on N words at a time. In a clause a vector is the list of its words.

ghost use Rattle.std.specs.Prelude.{◌≡◌, ℕ, ◌+◌, ◌*◌, ◌<◌, ◌&&◌, ◌||◌, nat_lt, if◌then◌else◌, length, slice_index};
ghost use Rattle.std.specs.Int.{bit_at};
ghost use Rattle.multispin_word.specs.Planes.{differs, is_set, number};
ghost use Rattle.local_rule.specs.RowOrder.{fallen, raised};
ghost use Rattle.local_rule.specs.SiteBits.{equal_count, lane_words, set_count};
ghost use Rattle.local_rule.specs.TurnedCounts.{accepted, turned_number};

use crate::ready_rule::ReadyRule;
use std::simd::prelude::*;

/// N words as a vector.
#[inline(always)]
pub fn load<const N: usize>(words: &[u64; N]) -> Simd<u64, N>
    ensures same { result ≡ words.now }
    ensures length { length result ≡ N }
{
    Simd::<u64, N>::from_array(*words)
}

/// How many of the six bits of each lane and sample are set: the planes of 1, 2 and 4.
#[inline(always)]
pub fn count_lanes<const N: usize>(six: &[[u64; N]; 6]) -> [[u64; N]; 3]
    ensures { (i b : ℕ) → i < N
        → number (lane_words result i) b ≡ set_count (lane_words six.now i) b }
{
    let (a, b, c) = (load(&six[0]), load(&six[1]), load(&six[2]));
    let (d, e, f) = (load(&six[3]), load(&six[4]), load(&six[5]));
    let (front, back) = (sum_lanes(a, b, c), sum_lanes(d, e, f));
    let front_twos = carry_lanes(a, b, c);
    let either_twos = differing_lanes(front_twos, carry_lanes(d, e, f));
    let carry = shared_lanes(front, back);
    [
        differing_lanes(front, back).to_array(),
        differing_lanes(either_twos, carry).to_array(),
        choose_lanes(either_twos, carry, front_twos).to_array(),
    ]
}

/// How many of the six bits of each lane and sample are equal to that of `same`: the plane of 1, and
/// those of 2 and 4 turned over.
#[inline(always)]
pub fn equal_lanes<const N: usize>(six: &[[u64; N]; 6], same: &[u64; N]) -> [[u64; N]; 3]
    ensures { (i b : ℕ) → i < N → equal_count (lane_words six.now i) (slice_index same.now i) b
        ≡ turned_number (lane_words result i) b }
{
    let same = load(same);
    let (a, b, c) = (load(&six[0]), load(&six[1]), load(&six[2]));
    let (d, e, f) = (load(&six[3]), load(&six[4]), load(&six[5]));
    let (front, back) = (sum_lanes(a, b, c), sum_lanes(d, e, f));
    let front_twos = carry_lanes(a, b, c);
    // Where two bits differ that doesn't depend on `same`, and three bits compared with it have the
    // compared sum and the compared carry.
    let ones = differing_lanes(front, back);
    let either_twos = differing_lanes(front_twos, carry_lanes(d, e, f));
    let no_carry = joined_lanes(ones, differing_lanes(front, same));
    let few_twos = differing_lanes(front_twos, same);
    [
        ones.to_array(),
        differing_lanes(either_twos, no_carry).to_array(),
        choose_lanes(either_twos, no_carry, few_twos).to_array(),
    ]
}

/// The bits of `inside` for the samples in the mask, and those of `outside` for the others.
#[inline(always)]
pub fn choose_lanes<const N: usize>(
    mask: Simd<u64, N>,
    inside: Simd<u64, N>,
    outside: Simd<u64, N>,
) -> Simd<u64, N>
    requires { (length mask ≡ N) × (length inside ≡ N) × (length outside ≡ N) }
    ensures length { length result ≡ N }
    ensures chosen { (i b : ℕ) → i < N
        → is_set (slice_index result i) b ≡ (if is_set (slice_index mask.entry i) b
        then is_set (slice_index inside.entry i) b else is_set (slice_index outside.entry i) b) }
{
    outside ^ (mask & (inside ^ outside))
}

/// All samples of the lanes whose draw is below the threshold of a case, and none of the others.
#[inline(always)]
pub fn below_lanes<const N: usize>(draws: &[u32; N], ready: &ReadyRule, case: usize) -> Simd<u64, N>
    requires { case < 7 }
    ensures length { length result ≡ N }
    ensures below { (i b : ℕ) → i < N → b < 64 → is_set (slice_index result i) b
        ≡ nat_lt (slice_index draws.now i) (slice_index ready.now.row.values case) }
{
    let limit = ready.limit(case);
    let wide: Simd<i64, N> = Simd::<u32, N>::from_array(*draws).cast();
    wide.simd_lt(Simd::<i64, N>::splat(limit))
        .select(Simd::<u64, N>::splat(u64::MAX), Simd::<u64, N>::splat(0))
}

/// Of a count above three, by its plane of 1 and that of 2 turned over: the bits for five, for six, or
/// else those for four.
#[inline(always)]
pub fn accepted_lanes<const N: usize>(
    ones: Simd<u64, N>,
    no_twos: Simd<u64, N>,
    four: Simd<u64, N>,
    five: Simd<u64, N>,
    six: Simd<u64, N>,
) -> Simd<u64, N>
    requires { (length ones ≡ N) × (length no_twos ≡ N) × (length four ≡ N) × (length five ≡ N)
        × (length six ≡ N) }
    ensures length { length result ≡ N }
    ensures accepted { (i b : ℕ) → i < N → b < 64 → is_set (slice_index result i) b
        ≡ accepted (is_set (slice_index ones.entry i) b) (is_set (slice_index no_twos.entry i) b)
        (is_set (slice_index four.entry i) b) (is_set (slice_index five.entry i) b) (is_set (slice_index six.entry i) b) }
{
    // By all ones, since the range of a lane has no name that `!` could use.
    let twos = differing_lanes(no_twos, Simd::<u64, N>::splat(u64::MAX));
    let by_ones = differing_lanes(four, shared_lanes(ones, differing_lanes(four, five)));
    differing_lanes(by_ones, shared_lanes(twos, differing_lanes(four, six)))
}

/// What `accepted_lanes` gives where the bits for six are among those for five, and these
/// among those for four.
#[inline(always)]
pub fn fallen_lanes<const N: usize>(
    ones: Simd<u64, N>,
    no_twos: Simd<u64, N>,
    four: Simd<u64, N>,
    five: Simd<u64, N>,
    six: Simd<u64, N>,
) -> Simd<u64, N>
    requires { (length ones ≡ N) × (length no_twos ≡ N) × (length four ≡ N) × (length five ≡ N)
        × (length six ≡ N) }
    ensures length { length result ≡ N }
    ensures fallen { (i b : ℕ) → i < N → b < 64 → is_set (slice_index result i) b
        ≡ fallen (is_set (slice_index ones.entry i) b) (is_set (slice_index no_twos.entry i) b)
        (is_set (slice_index four.entry i) b) (is_set (slice_index five.entry i) b) (is_set (slice_index six.entry i) b) }
{
    let no_ones = differing_lanes(ones, Simd::<u64, N>::splat(u64::MAX));
    let up_to_five = joined_lanes(five, shared_lanes(no_ones, four));
    joined_lanes(six, shared_lanes(no_twos, up_to_five))
}

/// The bits of `outside`, and those of `inside` for the samples in the mask: where the first are among
/// the second, the same as `choose_lanes`.
#[inline(always)]
pub fn raised_lanes<const N: usize>(
    mask: Simd<u64, N>,
    inside: Simd<u64, N>,
    outside: Simd<u64, N>,
) -> Simd<u64, N>
    requires { (length mask ≡ N) × (length inside ≡ N) × (length outside ≡ N) }
    ensures length { length result ≡ N }
    ensures raised { (i b : ℕ) → i < N → is_set (slice_index result i) b
        ≡ raised (is_set (slice_index mask.entry i) b) (is_set (slice_index inside.entry i) b)
        (is_set (slice_index outside.entry i) b) }
{
    joined_lanes(outside, shared_lanes(mask, inside))
}

/// Where two bits differ, in each lane and sample.
#[inline(always)]
pub fn differing_lanes<const N: usize>(a: Simd<u64, N>, b: Simd<u64, N>) -> Simd<u64, N>
    requires { (length a ≡ N) × (length b ≡ N) }
    ensures length { length result ≡ N }
    ensures differing { (i k : ℕ) → i < N → is_set (slice_index result i) k
        ≡ differs (is_set (slice_index a.entry i) k) (is_set (slice_index b.entry i) k) }
{
    a ^ b
}

/// Where both are set.
#[inline(always)]
pub fn shared_lanes<const N: usize>(a: Simd<u64, N>, b: Simd<u64, N>) -> Simd<u64, N>
    requires { (length a ≡ N) × (length b ≡ N) }
    ensures length { length result ≡ N }
    ensures shared { (i k : ℕ) → i < N → is_set (slice_index result i) k
        ≡ (is_set (slice_index a.entry i) k && is_set (slice_index b.entry i) k) }
{
    a & b
}

/// Where one of two is set.
#[inline(always)]
pub fn joined_lanes<const N: usize>(a: Simd<u64, N>, b: Simd<u64, N>) -> Simd<u64, N>
    requires { (length a ≡ N) × (length b ≡ N) }
    ensures length { length result ≡ N }
    ensures joined { (i k : ℕ) → i < N → is_set (slice_index result i) k
        ≡ (is_set (slice_index a.entry i) k || is_set (slice_index b.entry i) k) }
{
    a | b
}

// Of three bits of each lane and sample the low bit of their sum.
#[inline(always)]
fn sum_lanes<const N: usize>(a: Simd<u64, N>, b: Simd<u64, N>, c: Simd<u64, N>) -> Simd<u64, N>
    requires { (length a ≡ N) × (length b ≡ N) × (length c ≡ N) }
    ensures length { length result ≡ N }
    ensures sum { (i k : ℕ) → i < N → is_set (slice_index result i) k
        ≡ differs (differs (is_set (slice_index a.entry i) k) (is_set (slice_index b.entry i) k)) (is_set (slice_index c.entry i) k) }
{
    a ^ b ^ c
}

// And the high bit.
#[inline(always)]
fn carry_lanes<const N: usize>(a: Simd<u64, N>, b: Simd<u64, N>, c: Simd<u64, N>) -> Simd<u64, N>
    requires { (length a ≡ N) × (length b ≡ N) × (length c ≡ N) }
    ensures length { length result ≡ N }
    ensures carry { (i k : ℕ) → i < N → is_set (slice_index result i) k
        ≡ (is_set (slice_index a.entry i) k && is_set (slice_index b.entry i) k
        || differs (is_set (slice_index a.entry i) k) (is_set (slice_index b.entry i) k)
        && is_set (slice_index c.entry i) k) }
{
    (a & b) | ((a ^ b) & c)
}

/// Of three bits of each of four lanes and each sample the low and the high bit of their sum.
#[inline(always)]
pub fn full_adder_lanes(a: u64x4, b: u64x4, carry: u64x4) -> (u64x4, u64x4)
    requires { (length a ≡ 4) × (length b ≡ 4) × (length carry ≡ 4) }
    ensures lengths { (length result.0 ≡ 4) × (length result.1 ≡ 4) }
    ensures sum { (i k : ℕ) → i < 4
        → bit_at (slice_index result.0 i) k + 2 * bit_at (slice_index result.1 i) k
        ≡ bit_at (slice_index a i) k + bit_at (slice_index b i) k + bit_at (slice_index carry i) k }
{
    (sum_lanes(a, b, carry), carry_lanes(a, b, carry))
}
