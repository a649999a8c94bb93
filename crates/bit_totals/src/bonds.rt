//! How many of the six bonds of a row's sites are unsatisfied in each sample.

ghost use Rattle.std.specs.Prelude.{◌≡◌, ℕ, ◌+◌, ◌*◌, ◌^◌, ◌<◌, ◌≤◌, length, slice_index};
ghost use Rattle.bit_totals.specs.RowBonds.{counted_lanes, four_count, pair_count, row_count, HasLanes};
ghost use Rattle.bit_totals.specs.Tallies.{set_lanes, tallied};
ghost use Rattle.multispin_word.specs.Planes.{differs, is_set};
ghost use Rattle.plane_sweep.specs.PlaneSweep.{HasRows};

use crate::lanes::{add_one, add_two};
use local_rule::{full_adder_lanes, load};
use plane_sweep::{Row, Surroundings, pulls_of, pulls_of_four, words_at};
use std::simd::prelude::*;

/// How many of the six bonds of each of four sites are unsatisfied: the sum of two low and two high bits.
#[derive(Drop)]
pub(crate) struct BondCounts {
    ones: u64x4,
    more_ones: u64x4,
    twos: u64x4,
    more_twos: u64x4,
}

/// Adds to each sample's number its unsatisfied bonds of the sites of two rows. It has a copy for each size
/// and parity, as what it calls has: no hint brings code into one function that is called from several.
#[inline(always)]
pub(crate) fn add_rows<const SIZE: usize, const EVEN: bool>(
    counts: &mut [[u64; 4]; 20],
    own: &[u64],
    around: &Surroundings,
    first: &Row,
    second: &Row,
)
    requires own { length own.now ≡ length around.now.here.now }
    requires first { HasRows (length around.now.here.now) around.now first.now }
    requires second { HasRows (length around.now.here.now) around.now second.now }
    requires half { second.now.half ≡ first.now.half }
    requires room { (b : ℕ) → b < 64 → tallied counts.old b + 12 * first.now.half < 2 ^ 20 }
    ensures { (b : ℕ) → b < 64 → tallied counts.new b
        ≡ tallied counts.old b + pair_count own.now around.now first.now second.now b first.now.half }
{
    let mut k = 0;
    'eights: while first.half - k >= 8 {
        add_eight::<SIZE, EVEN>(counts, own, around, first, second, k);
        k += 8;
    }
    'fours: while first.half - k >= 4 {
        add_four::<SIZE, EVEN>(counts, own, around, first, second, k);
        k += 4;
    }
    'rest: while k < first.half {
        add_column::<SIZE, EVEN>(counts, own, around, first, second, k);
        k += 1;
    }
}

// The sites of eight columns from one on.
#[inline(always)]
fn add_eight<const SIZE: usize, const EVEN: bool>(
    counts: &mut [[u64; 4]; 20],
    own: &[u64],
    around: &Surroundings,
    first: &Row,
    second: &Row,
    k: usize,
)
    requires own { length own.now ≡ length around.now.here.now }
    requires first { HasRows (length around.now.here.now) around.now first.now }
    requires second { HasRows (length around.now.here.now) around.now second.now }
    requires half { second.now.half ≡ first.now.half }
    requires within { k + 8 ≤ first.now.half }
    requires room { (b : ℕ) → b < 64 → tallied counts.old b + 96 < 2 ^ 20 }
    ensures { (b : ℕ) → b < 64
        → tallied counts.new b + pair_count own.now around.now first.now second.now b k
        ≡ tallied counts.old b + pair_count own.now around.now first.now second.now b (k + 8) }
{
    let a = count_four(own, around, first, k);
    let b = count_four(own, around, first, k + 4);
    let front = add_counts(counts, &a, &b);
    let c = count_four(own, around, second, k);
    let d = count_four(own, around, second, k + 4);
    let back = add_counts(counts, &c, &d);
    add_carries(counts, front, back);
}

// The sites of four columns from one on.
#[inline(always)]
fn add_four<const SIZE: usize, const EVEN: bool>(
    counts: &mut [[u64; 4]; 20],
    own: &[u64],
    around: &Surroundings,
    first: &Row,
    second: &Row,
    k: usize,
)
    requires own { length own.now ≡ length around.now.here.now }
    requires first { HasRows (length around.now.here.now) around.now first.now }
    requires second { HasRows (length around.now.here.now) around.now second.now }
    requires half { second.now.half ≡ first.now.half }
    requires within { k + 4 ≤ first.now.half }
    requires room { (b : ℕ) → b < 64 → tallied counts.old b + 48 < 2 ^ 20 }
    ensures { (b : ℕ) → b < 64
        → tallied counts.new b + pair_count own.now around.now first.now second.now b k
        ≡ tallied counts.old b + pair_count own.now around.now first.now second.now b (k + 4) }
{
    let a = count_four(own, around, first, k);
    let b = count_four(own, around, second, k);
    let last = add_counts(counts, &a, &b);
    add_last_carries(counts, last);
}

// One column. The twelve words of its two sites stand in the four lanes, whose sum alone counts.
#[inline(always)]
fn add_column<const SIZE: usize, const EVEN: bool>(
    counts: &mut [[u64; 4]; 20],
    own: &[u64],
    around: &Surroundings,
    first: &Row,
    second: &Row,
    k: usize,
)
    requires own { length own.now ≡ length around.now.here.now }
    requires first { HasRows (length around.now.here.now) around.now first.now }
    requires second { HasRows (length around.now.here.now) around.now second.now }
    requires half { second.now.half ≡ first.now.half }
    requires within { k < first.now.half }
    requires room { (b : ℕ) → b < 64 → tallied counts.old b + 12 < 2 ^ 20 }
    ensures { (b : ℕ) → b < 64
        → tallied counts.new b + pair_count own.now around.now first.now second.now b k
        ≡ tallied counts.old b + pair_count own.now around.now first.now second.now b (k + 1) }
{
    let a = pulls_of(around, first, k);
    let b = pulls_of(around, second, k);
    let v = own[first.here + k];
    let w = own[second.here + k];
    let front = load(&[a[0] ^ v, a[1] ^ v, a[2] ^ v, a[3] ^ v]);
    let middle = load(&[a[4] ^ v, a[5] ^ v, b[4] ^ w, b[5] ^ w]);
    let back = load(&[b[0] ^ w, b[1] ^ w, b[2] ^ w, b[3] ^ w]);
    let (ones, twos) = full_adder_lanes(front, middle, back);
    let more = add_two(counts, 0, ones, u64x4::splat(0));
    let most = add_two(counts, 1, twos, more);
    add_one(counts, 2, most);
}

/// Takes up the carries of eight and of four of two pairs of counts.
#[inline(always)]
pub(crate) fn add_carries(
    counts: &mut [[u64; 4]; 20],
    first: (u64x4, u64x4),
    second: (u64x4, u64x4),
)
    requires first { (length first.0 ≡ 4) × (length first.1 ≡ 4) }
    requires second { (length second.0 ≡ 4) × (length second.1 ≡ 4) }
    requires room { (b : ℕ) → b < 64 → tallied counts.old b
        + 8 * (set_lanes first.0 b + set_lanes second.0 b) + 4 * (set_lanes first.1 b + set_lanes second.1 b) < 2 ^ 20 }
    ensures { (b : ℕ) → b < 64 → tallied counts.new b ≡ tallied counts.old b
        + 8 * (set_lanes first.0 b + set_lanes second.0 b) + 4 * (set_lanes first.1 b + set_lanes second.1 b) }
{
    let last = add_two(counts, 2, first.1, second.1);
    let front = add_two(counts, 3, first.0, second.0);
    let back = add_two(counts, 3, last, u64x4::splat(0));
    let most = add_two(counts, 4, front, back);
    add_one(counts, 5, most);
}

/// Takes up the carries of one pair of counts alone.
#[inline(always)]
pub(crate) fn add_last_carries(counts: &mut [[u64; 4]; 20], carries: (u64x4, u64x4))
    requires lengths { (length carries.0 ≡ 4) × (length carries.1 ≡ 4) }
    requires room { (b : ℕ) → b < 64
        → tallied counts.old b + 8 * set_lanes carries.0 b + 4 * set_lanes carries.1 b < 2 ^ 20 }
    ensures { (b : ℕ) → b < 64 → tallied counts.new b
        ≡ tallied counts.old b + 8 * set_lanes carries.0 b + 4 * set_lanes carries.1 b }
{
    let more = add_two(counts, 2, carries.1, u64x4::splat(0));
    let most = add_two(counts, 3, carries.0, more);
    add_one(counts, 4, most);
}

/// Adds two counts, but for the carries of eight and of four, which it gives.
#[inline(always)]
pub(crate) fn add_counts(
    counts: &mut [[u64; 4]; 20],
    a: &BondCounts,
    b: &BondCounts,
) -> (u64x4, u64x4)
    requires first { HasLanes a.now }
    requires second { HasLanes b.now }
    ensures lengths { (length result.0 ≡ 4) × (length result.1 ≡ 4) }
    ensures sum { (s : ℕ) → tallied counts.new s + 8 * set_lanes result.0 s + 4 * set_lanes result.1 s
        ≡ tallied counts.old s + counted_lanes a.now s + counted_lanes b.now s }
{
    let front = add_two(counts, 0, a.ones, a.more_ones);
    let back = add_two(counts, 0, b.ones, b.more_ones);
    let first = add_two(counts, 1, a.twos, a.more_twos);
    let second = add_two(counts, 1, b.twos, b.more_twos);
    let fours = add_two(counts, 1, front, back);
    (add_two(counts, 2, first, second), fours)
}

// The bonds of four sites of a row, from a column on.
#[inline(always)]
fn count_four(own: &[u64], around: &Surroundings, row: &Row, k: usize) -> BondCounts
    requires own { length own.now ≡ length around.now.here.now }
    requires rows { HasRows (length around.now.here.now) around.now row.now }
    requires within { k + 4 ≤ row.now.half }
    ensures lanes { HasLanes result }
    ensures sum { (b : ℕ) → row_count own.now around.now row.now b k + counted_lanes result b
        ≡ row_count own.now around.now row.now b (k + 4) }
{
    let six = pulls_of_four(around, row, k);
    let words = words_at::<4>(own, row.here + k);
    count_bonds(&six, words)
}

/// The bonds of four sites, of which lane i has J times the spins of the neighbours and the site's word.
/// Three bits compared with a spin have the compared sum and the compared carry: so the adders are those
/// that the sites' new spins take.
#[inline(always)]
pub(crate) fn count_bonds(six: &[[u64; 4]; 6], words: u64x4) -> BondCounts
    requires { length words ≡ 4 }
    ensures lanes { HasLanes result }
    ensures sum { (b : ℕ) → counted_lanes result b ≡ four_count six.now words b }
{
    let front = full_adder_lanes(load(&six[0]), load(&six[1]), load(&six[2]));
    let back = full_adder_lanes(load(&six[3]), load(&six[4]), load(&six[5]));
    BondCounts {
        ones: against(front.0, words),
        more_ones: against(back.0, words),
        twos: against(front.1, words),
        more_twos: against(back.1, words),
    }
}

// The samples in which a bit differs from the site's spin: J times the neighbour's spin does where the
// bond is unsatisfied.
#[inline(always)]
fn against(bits: u64x4, words: u64x4) -> u64x4
    requires { (length bits ≡ 4) × (length words ≡ 4) }
    ensures length { length result ≡ 4 }
    ensures differing { (i b : ℕ) → i < 4 → is_set (slice_index result i) b
        ≡ differs (is_set (slice_index bits i) b) (is_set (slice_index words i) b) }
{
    bits ^ words
}
