//! How many of many words have each sample's bit.

ghost use Rattle.std.specs.Prelude.{◌≡◌, ℕ, ◌+◌, ◌*◌, ◌^◌, ◌<◌, ◌≤◌, length, slice_index};
ghost use Rattle.multispin_word.specs.Planes.{number};
ghost use Rattle.bit_totals.specs.Tallies.{lane_number, tallied, mixed, set_below, set_lanes};

use crate::lanes::{add_one, add_two, mixed_at};
use bit_compare::add;
use local_rule::load;
use multispin_word::Planes;
use std::simd::prelude::*;

/// A number of each sample below 2^20, as the sum of four that lie side by side: word i of row w is
/// plane w of the number in lane i. The counter of set bits over many words.
#[derive(Drop)]
pub struct Tally {
    pub rows: [[u64; 4]; 20],
}

impl Tally {
    /// The number 0 for all samples.
    pub fn none() -> Tally
        ensures { (b : ℕ) → tallied result.rows b ≡ 0 }
    {
        Tally {
            rows: [[0u64; 4]; 20],
        }
    }

    /// The numbers in planes.
    pub fn total(&self) -> Planes<20>
        requires { (b : ℕ) → b < 64 → tallied self.now.rows b < 2 ^ 20 }
        ensures { (b : ℕ) → b < 64 → number result.words b ≡ tallied self.now.rows b }
    {
        let mut total = Planes::zero();
        'lanes: for lane in 0..4usize {
            add(&mut total, &column(&self.rows, lane));
        }
        total
    }

    /// Adds to each sample's number in how many places an odd number of the three words has its bit.
    #[inline(never)]
    pub fn add(&mut self, first: &[u64], second: &[u64], third: &[u64])
        requires second { length second.now ≡ length first.now }
        requires third { length third.now ≡ length first.now }
        requires room { (b : ℕ) → b < 64 → tallied self.old.rows b + length first.now + 64 < 2 ^ 20 }
        ensures { (b : ℕ) → b < 64 → tallied self.new.rows b
            ≡ tallied self.old.rows b + set_below (mixed first.now second.now third.now) b (length first.now) }
    {
        let mut at = 0;
        'long_blocks: while first.len() - at >= 128 {
            add_block(&mut self.rows, first, second, third, at);
            at += 128;
        }
        'fours: while first.len() - at >= 16 {
            add_four(&mut self.rows, first, second, third, at);
            at += 16;
        }
        'rows: while at < first.len() {
            add_row(&mut self.rows, first, second, third, at);
            at += 4;
        }
    }
}

// One lane's number.
#[inline]
fn column(rows: &[[u64; 4]; 20], lane: usize) -> Planes<20>
    requires { lane < 4 }
    ensures { (b : ℕ) → number result.words b ≡ lane_number rows.now lane b }
{
    let mut words = [0u64; 20];
    'rows: for w in 0..20usize {
        words[w] = rows[w][lane];
    }
    Planes { words }
}

// The 128 places from one on, with one ripple for the carries of 32.
#[inline(always)]
fn add_block(rows: &mut [[u64; 4]; 20], first: &[u64], second: &[u64], third: &[u64], at: usize)
    requires second { length second.now ≡ length first.now }
    requires third { length third.now ≡ length first.now }
    requires within { at + 128 ≤ length first.now }
    requires room { (b : ℕ) → b < 64 → tallied rows.old b + 128 < 2 ^ 20 }
    ensures { (b : ℕ) → b < 64
        → tallied rows.new b + set_below (mixed first.now second.now third.now) b at
        ≡ tallied rows.old b + set_below (mixed first.now second.now third.now) b (at + 128) }
{
    let a = sum_sixteen(rows, first, second, third, at);
    let b = sum_sixteen(rows, first, second, third, at + 64);
    let most = add_two(rows, 4, a, b);
    add_one(rows, 5, most);
}

// The 64 places from one on, but for the carries of sixteen, which it gives.
#[inline(always)]
fn sum_sixteen(
    rows: &mut [[u64; 4]; 20],
    first: &[u64],
    second: &[u64],
    third: &[u64],
    at: usize,
) -> u64x4
    requires second { length second.now ≡ length first.now }
    requires third { length third.now ≡ length first.now }
    requires within { at + 64 ≤ length first.now }
    ensures length { length result ≡ 4 }
    ensures sum { (b : ℕ)
        → tallied rows.new b + 16 * set_lanes result b + set_below (mixed first.now second.now third.now) b at
        ≡ tallied rows.old b + set_below (mixed first.now second.now third.now) b (at + 64) }
{
    let a = sum_four(rows, first, second, third, at);
    let b = sum_four(rows, first, second, third, at + 16);
    let front = add_two(rows, 2, a, b);
    let c = sum_four(rows, first, second, third, at + 32);
    let d = sum_four(rows, first, second, third, at + 48);
    let back = add_two(rows, 2, c, d);
    add_two(rows, 3, front, back)
}

// The 16 places from one on.
#[inline(always)]
fn add_four(rows: &mut [[u64; 4]; 20], first: &[u64], second: &[u64], third: &[u64], at: usize)
    requires second { length second.now ≡ length first.now }
    requires third { length third.now ≡ length first.now }
    requires within { at + 16 ≤ length first.now }
    requires room { (b : ℕ) → b < 64 → tallied rows.old b + 16 < 2 ^ 20 }
    ensures { (b : ℕ) → b < 64
        → tallied rows.new b + set_below (mixed first.now second.now third.now) b at
        ≡ tallied rows.old b + set_below (mixed first.now second.now third.now) b (at + 16) }
{
    let fours = sum_four(rows, first, second, third, at);
    add_one(rows, 2, fours);
}

// The 16 places from one on, but for the carries of four, which it gives.
#[inline(always)]
fn sum_four(
    rows: &mut [[u64; 4]; 20],
    first: &[u64],
    second: &[u64],
    third: &[u64],
    at: usize,
) -> u64x4
    requires second { length second.now ≡ length first.now }
    requires third { length third.now ≡ length first.now }
    requires within { at + 16 ≤ length first.now }
    ensures length { length result ≡ 4 }
    ensures sum { (b : ℕ)
        → tallied rows.new b + 4 * set_lanes result b + set_below (mixed first.now second.now third.now) b at
        ≡ tallied rows.old b + set_below (mixed first.now second.now third.now) b (at + 16) }
{
    let a = mixed_at(first, second, third, at);
    let b = mixed_at(first, second, third, at + 4);
    let front = add_two(rows, 0, a, b);
    let c = mixed_at(first, second, third, at + 8);
    let d = mixed_at(first, second, third, at + 12);
    let back = add_two(rows, 0, c, d);
    add_two(rows, 1, front, back)
}

/// The four places from one on, of which some may be past the end.
#[inline]
pub(crate) fn add_row(
    rows: &mut [[u64; 4]; 20],
    first: &[u64],
    second: &[u64],
    third: &[u64],
    at: usize,
)
    requires second { length second.now ≡ length first.now }
    requires third { length third.now ≡ length first.now }
    requires within { at < length first.now }
    requires room { (b : ℕ) → b < 64 → tallied rows.old b + 4 < 2 ^ 20 }
    ensures { (b : ℕ) → b < 64
        → tallied rows.new b + set_below (mixed first.now second.now third.now) b at
        ≡ tallied rows.old b + set_below (mixed first.now second.now third.now) b (at + 4) }
{
    let row = row_from(first, second, third, at);
    add_one(rows, 0, row);
}

// The mixed words of the four places from one on, zeros past the end.
#[inline]
fn row_from(first: &[u64], second: &[u64], third: &[u64], at: usize) -> u64x4
    requires second { length second.now ≡ length first.now }
    requires third { length third.now ≡ length first.now }
    requires within { at < length first.now }
    ensures length { length result ≡ 4 }
    ensures words { (i : ℕ) → i < 4 → slice_index result i ≡ mixed first.now second.now third.now (at + i) }
{
    if at + 4 <= first.len() {
        mixed_at(first, second, third, at)
    } else {
        load(&last_row(first, second, third, at))
    }
}

// The mixed words of the last places, and zeros.
fn last_row(first: &[u64], second: &[u64], third: &[u64], at: usize) -> [u64; 4]
    requires second { length second.now ≡ length first.now }
    requires third { length third.now ≡ length first.now }
    requires within { at < length first.now }
    requires last { length first.now < at + 4 }
    ensures { (i : ℕ) → i < 4 → slice_index result i ≡ mixed first.now second.now third.now (at + i) }
{
    let mut row = [0u64; 4];
    'words: for i in 0..first.len() - at {
        row[i] = first[at + i] ^ second[at + i] ^ third[at + i];
    }
    row
}
