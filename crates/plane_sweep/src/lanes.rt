//! The new words of four sites side by side in a row, by vector lanes.

ghost use Rattle.std.specs.Prelude.{◌≡◌, ℕ, ◌+◌, ◌<◌, ◌≤◌, bit_xor, length, slice_index};
ghost use Rattle.local_rule.specs.SiteBits.{equal_count, lane_words, set_count};
ghost use Rattle.multispin_word.specs.Planes.{is_set};
ghost use Rattle.plane_sweep.specs.PlaneSweep.{left_column, pulls_lent, right_column, HasRows, SweepsRow, SweepsSites};
ghost use Rattle.spin_model.specs.Limits.{greatest_half_plane};
ghost use Rattle.spin_model.specs.SiteRule.{new_spin};
ghost use Rattle.threshold_table.specs.Tables.{rule_of};

use crate::rows::Row;
use crate::surroundings::Surroundings;
use local_rule::{ReadyRule, heat_bath_sites, load, metropolis_sites};
use std::simd::prelude::*;
use threshold_table::RuleKind;

/// The new words of the four sites of a row from column k on, each by its draw.
#[inline(always)]
pub(crate) fn sweep_four(
    own: &mut [u64],
    around: &Surroundings,
    rule: &ReadyRule,
    draws: &[u32],
    row: &Row,
    k: usize,
)
    requires rows { HasRows (length around.now.here.now) around.now row.now }
    requires own { length own.old ≡ length around.now.here.now }
    requires draws { length draws.now ≡ length around.now.here.now }
    requires within { k + 4 ≤ row.now.half }
    ensures { SweepsRow around.now rule.now draws.now row.now k (k + 4) own.old own.new }
{
    let six = pulls_of_four(around, row, k);
    update_sites::<4>(own, rule, draws, row.here + k, &six);
}

/// The new words of N sites from a place on, each by its draw. Lane i has J times the spins of the
/// neighbours of site i.
#[inline(always)]
pub fn update_sites<const N: usize>(
    own: &mut [u64],
    rule: &ReadyRule,
    draws: &[u32],
    at: usize,
    six: &[[u64; N]; 6],
)
    requires own { at + N ≤ length own.old }
    requires draws { at + N ≤ length draws.now }
    ensures { SweepsSites N (lane_words six.now) rule.now draws.now at own.old own.new }
{
    let old = words_at::<N>(own, at).to_array();
    let new = new_words(rule, &draws_at::<N>(draws, at), six, &old);
    load(&new).copy_to_slice(&mut own[at..at + N]);
}

/// J times the neighbours' spins at four columns from k on: ahead in x, y and z, and behind.
#[inline(always)]
pub fn pulls_of_four(around: &Surroundings, row: &Row, k: usize) -> [[u64; 4]; 6]
    requires rows { HasRows (length around.now.here.now) around.now row.now }
    requires within { k + 4 ≤ row.now.half }
    ensures { (i : ℕ) → i < 4 → lane_words result i ≡ pulls_lent around.now row.now (k + i) }
{
    let here = row.here + k;
    let (up, down) = (row.up + k, row.down + k);
    [
        ahead_in_x(around, row, k).to_array(),
        pull(around.here, up, around.ahead_y, here).to_array(),
        pull(around.above, here, around.ahead_z, here).to_array(),
        behind_in_x(around, row, k).to_array(),
        pull(around.here, down, around.here_y, down).to_array(),
        pull(around.below, here, around.below_z, here).to_array(),
    ]
}

// Spins from one place on, times bonds from another on.
#[inline(always)]
fn pull<const N: usize>(spins: &[u64], at: usize, bonds: &[u64], from: usize) -> Simd<u64, N>
    requires spins { at + N ≤ length spins.now }
    requires bonds { from + N ≤ length bonds.now }
    ensures length { length result ≡ N }
    ensures words { (i : ℕ) → i < N
        → slice_index result i ≡ bit_xor (slice_index spins.now (at + i)) (slice_index bonds.now (from + i)) }
{
    words_at::<N>(spins, at) ^ words_at::<N>(bonds, from)
}

/// N words from a place on.
#[inline(always)]
pub fn words_at<const N: usize>(words: &[u64], at: usize) -> Simd<u64, N>
    requires { at + N ≤ length words.now }
    ensures length { length result ≡ N }
    ensures words { (i : ℕ) → i < N → slice_index result i ≡ slice_index words.now (at + i) }
{
    Simd::<u64, N>::from_slice(&words[at..at + N])
}

// N draws from a place on.
#[inline(always)]
fn draws_at<const N: usize>(draws: &[u32], at: usize) -> [u32; N]
    requires { at + N ≤ length draws.now }
    ensures { (i : ℕ) → i < N → slice_index result i ≡ slice_index draws.now (at + i) }
{
    Simd::<u32, N>::from_slice(&draws[at..at + N]).to_array()
}

// J times the spins ahead in x.
#[inline(always)]
fn ahead_in_x(around: &Surroundings, row: &Row, k: usize) -> u64x4
    requires rows { HasRows (length around.now.here.now) around.now row.now }
    requires within { k + 4 ≤ row.now.half }
    ensures length { length result ≡ 4 }
    ensures words { (i : ℕ) → i < 4 → slice_index result i
        ≡ bit_xor (slice_index around.now.here.now (row.now.here + right_column row.now (k + i)))
        (slice_index around.now.ahead_x.now (row.now.here + (k + i))) }
{
    four_ahead(around.here, row, k) ^ words_at::<4>(around.ahead_x, row.here + k)
}

// The words ahead in x; behind the last column the row begins anew.
#[inline(always)]
fn four_ahead(words: &[u64], row: &Row, k: usize) -> u64x4
    requires rows { row.now.here + row.now.half ≤ length words.now }
    requires few { length words.now ≤ greatest_half_plane }
    requires within { k + 4 ≤ row.now.half }
    ensures length { length result ≡ 4 }
    ensures words { (i : ℕ) → i < 4 → slice_index result i
        ≡ slice_index words.now (row.now.here + right_column row.now (k + i)) }
{
    let here = row.here + k;
    if row.even {
        words_at(words, here)
    } else if k < row.half - 4 {
        words_at(words, here + 1)
    } else {
        one_on(words_at(words, here), words_at(words, row.here))
    }
}

// J times the spins behind in x; before the first column stands the row's last.
#[inline(always)]
fn behind_in_x(around: &Surroundings, row: &Row, k: usize) -> u64x4
    requires rows { HasRows (length around.now.here.now) around.now row.now }
    requires within { k + 4 ≤ row.now.half }
    ensures length { length result ≡ 4 }
    ensures words { (i : ℕ) → i < 4 → slice_index result i
        ≡ bit_xor (slice_index around.now.here.now (row.now.here + left_column row.now (k + i)))
        (slice_index around.now.here_x.now (row.now.here + left_column row.now (k + i))) }
{
    let here = row.here + k;
    if !row.even {
        pull(around.here, here, around.here_x, here)
    } else if k > 0 {
        pull(around.here, here - 1, around.here_x, here - 1)
    } else {
        let end = row.here + (row.half - 4);
        let last = pull(around.here, end, around.here_x, end);
        one_back(last, pull(around.here, here, around.here_x, here))
    }
}

// Four words but the first of them, and the first of those behind them.
#[inline(always)]
fn one_on(words: u64x4, behind: u64x4) -> u64x4
    requires { length words ≡ 4 }
    ensures length { length result ≡ 4 }
    ensures front { (i : ℕ) → i < 3 → slice_index result i ≡ slice_index words (i + 1) }
    ensures last { slice_index result 3 ≡ slice_index behind 0 }
{
    words.shuffle(behind, [1, 2, 3, 4])
}

// The last of four words before, and the four words but the last of them.
#[inline(always)]
fn one_back(before: u64x4, words: u64x4) -> u64x4
    requires { length before ≡ 4 }
    ensures length { length result ≡ 4 }
    ensures first { slice_index result 0 ≡ slice_index before 3 }
    ensures rest { (i : ℕ) → i < 3 → slice_index result (i + 1) ≡ slice_index words i }
{
    before.shuffle(words, [3, 4, 5, 6])
}

// The new spins of N sites, by their draws.
#[inline(always)]
fn new_words<const N: usize>(
    rule: &ReadyRule,
    draws: &[u32; N],
    six: &[[u64; N]; 6],
    words: &[u64; N],
) -> [u64; N]
    ensures { (i b : ℕ) → i < N → b < 64 → is_set (slice_index result i) b
        ≡ new_spin (rule_of rule.now.kind) rule.now.row.values (set_count (lane_words six.now i) b)
        (equal_count (lane_words six.now i) (slice_index words.now i) b) (slice_index draws.now i) (is_set (slice_index words.now i) b) }
{
    match rule.kind() {
        RuleKind::Heat => heat_bath_sites(draws, rule, six),
        RuleKind::Metropolis => metropolis_sites(draws, rule, six, words),
    }
}
