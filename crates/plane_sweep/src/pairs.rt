//! The new words of two rows as one run of vectors, one of which goes over the end of the first row
//! where that is no multiple of four words.

ghost use Rattle.std.specs.Prelude.{◌≡◌, ℕ, ◌+◌, ◌-◌, ◌*◌, ◌/◌, ◌%◌, ◌<◌, ◌≤◌, length};
ghost use Rattle.local_rule.specs.SiteBits.{lane_words};
ghost use Rattle.plane_sweep.specs.PlaneSweep.{pulls_lent, HasRows, IsBehind, SweepsAcross, SweepsRow};

use crate::lanes::{sweep_four, update_sites};
use crate::rows::{Row, pulls_of};
use crate::surroundings::Surroundings;
use local_rule::ReadyRule;

/// The new words of a row and of the row behind it. Each call has a copy of its own, since no hint brings
/// so much code to where one function is called more than once.
#[inline(always)]
pub(crate) fn sweep_pair<const SIZE: usize, const HEAT: bool, const EVEN: bool, const PART: usize>(
    own: &mut [u64],
    around: &Surroundings,
    rule: &ReadyRule,
    draws: &[u32],
    row: &Row,
    behind: &Row,
)
    requires rows { HasRows (length around.now.here.now) around.now row.now }
    requires rows_behind { HasRows (length around.now.here.now) around.now behind.now }
    requires behind { IsBehind row.now behind.now }
    requires own { length own.old ≡ length around.now.here.now }
    requires draws { length draws.now ≡ length around.now.here.now }
    ensures { SweepsAcross around.now rule.now draws.now row.now behind.now 0 behind.now.half own.old own.new }
{
    sweep_fours::<SIZE, HEAT, EVEN, PART>(own, around, rule, draws, row, 0);
    sweep_crossing::<SIZE, HEAT, EVEN, PART>(own, around, rule, draws, row, behind);
    sweep_rest::<SIZE, HEAT, EVEN, PART>(own, around, rule, draws, behind, (4 - row.half % 4) % 4);
}

// The new words of a row from a column on, by four as long as there are four.
#[inline(always)]
fn sweep_fours<const SIZE: usize, const HEAT: bool, const EVEN: bool, const PART: usize>(
    own: &mut [u64],
    around: &Surroundings,
    rule: &ReadyRule,
    draws: &[u32],
    row: &Row,
    done: usize,
)
    requires rows { HasRows (length around.now.here.now) around.now row.now }
    requires own { length own.old ≡ length around.now.here.now }
    requires draws { length draws.now ≡ length around.now.here.now }
    requires within { done ≤ row.now.half }
    ensures { SweepsRow around.now rule.now draws.now row.now done (done + 4 * ((row.now.half - done) / 4)) own.old own.new }
{
    'fours: for j in 0..(row.half - done) / 4 {
        sweep_four(own, around, rule, draws, row, done + 4 * j);
    }
}

// The new words of the columns that fours leave at the end of a row, and of as many in the row behind it
// as fill a vector.
#[inline(always)]
fn sweep_crossing<const SIZE: usize, const HEAT: bool, const EVEN: bool, const PART: usize>(
    own: &mut [u64],
    around: &Surroundings,
    rule: &ReadyRule,
    draws: &[u32],
    row: &Row,
    behind: &Row,
)
    requires rows { HasRows (length around.now.here.now) around.now row.now }
    requires rows_behind { HasRows (length around.now.here.now) around.now behind.now }
    requires behind { IsBehind row.now behind.now }
    requires own { length own.old ≡ length around.now.here.now }
    requires draws { length draws.now ≡ length around.now.here.now }
    ensures { SweepsAcross around.now rule.now draws.now row.now behind.now (4 * (row.now.half / 4)) ((4 - row.now.half % 4) % 4) own.old own.new }
{
    if row.half % 4 == 0 {
        return;
    }
    let k = 4 * (row.half / 4);
    let six = pulls_across::<SIZE, HEAT, EVEN, PART>(around, row, behind, k);
    update_sites::<4>(own, rule, draws, row.here + k, &six);
}

// J times the neighbours' spins at four columns of a row and of the row behind it.
#[inline(always)]
fn pulls_across<const SIZE: usize, const HEAT: bool, const EVEN: bool, const PART: usize>(
    around: &Surroundings,
    row: &Row,
    behind: &Row,
    k: usize,
) -> [[u64; 4]; 6]
    requires rows { HasRows (length around.now.here.now) around.now row.now }
    requires rows_behind { HasRows (length around.now.here.now) around.now behind.now }
    requires within { k + 4 ≤ row.now.half + behind.now.half }
    ensures front { (i : ℕ) → i < 4 → k + i < row.now.half
        → lane_words result i ≡ pulls_lent around.now row.now (k + i) }
    ensures back { (i : ℕ) → i < 4 → row.now.half ≤ k + i
        → lane_words result i ≡ pulls_lent around.now behind.now (k + i - row.now.half) }
{
    side_by_side(
        &pulls_at(around, row, behind, k),
        &pulls_at(around, row, behind, k + 1),
        &pulls_at(around, row, behind, k + 2),
        &pulls_at(around, row, behind, k + 3),
    )
}

// J times the neighbours' spins at one column of a row.
#[inline(always)]
fn pulls_at(around: &Surroundings, row: &Row, behind: &Row, k: usize) -> [u64; 6]
    requires rows { HasRows (length around.now.here.now) around.now row.now }
    requires rows_behind { HasRows (length around.now.here.now) around.now behind.now }
    requires within { k < row.now.half + behind.now.half }
    ensures front { k < row.now.half → result ≡ pulls_lent around.now row.now k }
    ensures back { row.now.half ≤ k → result ≡ pulls_lent around.now behind.now (k - row.now.half) }
{
    if k < row.half {
        pulls_of(around, row, k)
    } else {
        pulls_of(around, behind, k - row.half)
    }
}

// The words of four sites, a lane for each.
#[inline(always)]
fn side_by_side(a: &[u64; 6], b: &[u64; 6], c: &[u64; 6], d: &[u64; 6]) -> [[u64; 4]; 6]
    ensures first { lane_words result 0 ≡ a.now }
    ensures second { lane_words result 1 ≡ b.now }
    ensures third { lane_words result 2 ≡ c.now }
    ensures fourth { lane_words result 3 ≡ d.now }
{
    [
        [a[0], b[0], c[0], d[0]],
        [a[1], b[1], c[1], d[1]],
        [a[2], b[2], c[2], d[2]],
        [a[3], b[3], c[3], d[3]],
        [a[4], b[4], c[4], d[4]],
        [a[5], b[5], c[5], d[5]],
    ]
}

// The new words of a row from a column on: by four, and two that they leave.
#[inline(always)]
fn sweep_rest<const SIZE: usize, const HEAT: bool, const EVEN: bool, const PART: usize>(
    own: &mut [u64],
    around: &Surroundings,
    rule: &ReadyRule,
    draws: &[u32],
    row: &Row,
    done: usize,
)
    requires rows { HasRows (length around.now.here.now) around.now row.now }
    requires own { length own.old ≡ length around.now.here.now }
    requires draws { length draws.now ≡ length around.now.here.now }
    requires within { done ≤ row.now.half }
    requires even { (row.now.half - done) % 2 ≡ 0 }
    ensures { SweepsRow around.now rule.now draws.now row.now done row.now.half own.old own.new }
{
    sweep_fours::<SIZE, HEAT, EVEN, PART>(own, around, rule, draws, row, done);
    if (row.half - done) % 4 == 0 {
        return;
    }
    sweep_two::<SIZE, HEAT, EVEN, PART>(own, around, rule, draws, row);
}

// The new words of the last two columns of a row.
#[inline(always)]
fn sweep_two<const SIZE: usize, const HEAT: bool, const EVEN: bool, const PART: usize>(
    own: &mut [u64],
    around: &Surroundings,
    rule: &ReadyRule,
    draws: &[u32],
    row: &Row,
)
    requires rows { HasRows (length around.now.here.now) around.now row.now }
    requires own { length own.old ≡ length around.now.here.now }
    requires draws { length draws.now ≡ length around.now.here.now }
    requires two { 2 ≤ row.now.half }
    ensures { SweepsRow around.now rule.now draws.now row.now (row.now.half - 2) row.now.half own.old own.new }
{
    let k = row.half - 2;
    let six = pulls_of_two(around, row, k);
    update_sites::<2>(own, rule, draws, row.here + k, &six);
}

// J times the neighbours' spins at two columns of a row.
#[inline(always)]
fn pulls_of_two(around: &Surroundings, row: &Row, k: usize) -> [[u64; 2]; 6]
    requires rows { HasRows (length around.now.here.now) around.now row.now }
    requires within { k + 2 ≤ row.now.half }
    ensures first { lane_words result 0 ≡ pulls_lent around.now row.now k }
    ensures second { lane_words result 1 ≡ pulls_lent around.now row.now (k + 1) }
{
    let a = pulls_of(around, row, k);
    let b = pulls_of(around, row, k + 1);
    [
        [a[0], b[0]],
        [a[1], b[1]],
        [a[2], b[2]],
        [a[3], b[3]],
        [a[4], b[4]],
        [a[5], b[5]],
    ]
}
