//! The numbers of four lanes in twenty rows.

ghost use Rattle.std.specs.Prelude.{◌≡◌, ℕ, ◌+◌, ◌*◌, ◌^◌, ◌<◌, ◌≤◌, [], length, slice_index, slice_index_or};
ghost use Rattle.bit_totals.specs.Tallies.{mixed, set_lanes, tallied};

use local_rule::full_adder_lanes;
use plane_sweep::words_at;
use std::simd::prelude::*;

/// The three words together, at each of four places from one on.
#[inline(always)]
pub(crate) fn mixed_at(first: &[u64], second: &[u64], third: &[u64], at: usize) -> u64x4
    requires second { length second.now ≡ length first.now }
    requires third { length third.now ≡ length first.now }
    requires within { at + 4 ≤ length first.now }
    ensures length { length result ≡ 4 }
    ensures words { (i : ℕ) → i < 4 → slice_index result i ≡ mixed first.now second.now third.now (at + i) }
{
    words_at::<4>(first, at) ^ words_at::<4>(second, at) ^ words_at::<4>(third, at)
}

/// Adds two words of each lane to row w of the numbers, and gives what is carried to the row above.
#[inline(always)]
pub(crate) fn add_two(rows: &mut [[u64; 4]; 20], w: usize, first: u64x4, second: u64x4) -> u64x4
    requires row { w < 20 }
    requires lengths { (length first ≡ 4) × (length second ≡ 4) }
    ensures length { length result ≡ 4 }
    ensures sum { (b : ℕ) → tallied rows.new b + 2 * 2 ^ w * set_lanes result b
        ≡ tallied rows.old b + 2 ^ w * (set_lanes first b + set_lanes second b) }
{
    let (row, carry) = full_adder_lanes(row_of(rows, w), first, second);
    rows[w] = row.to_array();
    carry
}

#[inline(always)]
fn row_of(rows: &[[u64; 4]; 20], w: usize) -> u64x4
    requires { w < 20 }
    ensures same { result ≡ slice_index_or rows.now w [] }
    ensures length { length result ≡ 4 }
{
    u64x4::from_slice(&rows[w])
}

/// Adds a word of each lane to a row of the numbers, the carry rippling upwards. No sum may reach
/// 2^20.
#[inline(always)]
pub(crate) fn add_one(rows: &mut [[u64; 4]; 20], from: usize, word: u64x4)
    requires row { from < 20 }
    requires length { length word ≡ 4 }
    requires room { (b : ℕ) → b < 64 → tallied rows.old b + 2 ^ from * set_lanes word b < 2 ^ 20 }
    ensures { (b : ℕ) → b < 64 → tallied rows.new b ≡ tallied rows.old b + 2 ^ from * set_lanes word b }
{
    let mut carry = word;
    'ripple: for w in from..20usize {
        carry = add_two(rows, w, carry, u64x4::splat(0));
    }
}
