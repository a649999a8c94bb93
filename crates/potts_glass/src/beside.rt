//! The update of N sites side by side in all samples, by vectors: lane i is site i.
//!
//! A change of a colour is a non-zero number d of two bits, from c to c ^ d. A neighbour of colour c ^ e
//! counts where e is 0 or d. Its vote is 2 where it favours the new colour, 1 where it favours neither,
//! and 0 where it favours the old one. So the six votes are 6 - g in sum, where g is what the change
//! costs: one count in place of two and their difference.

ghost use Rattle.std.specs.Prelude.{◌≡◌, ℕ, ◌+◌, ◌<◌, ◌&&◌, ◌||◌, true, nat_lt, if◌then◌else◌, length, slice_index};
ghost use Rattle.multispin_word.specs.Planes.{is_set, differs};
ghost use Rattle.spin_model.specs.Words.{one_if};
ghost use Rattle.potts_glass.specs.Potts as model;
ghost use Rattle.potts_glass.specs.PackedColours.{colour_in};
ghost use Rattle.potts_glass.specs.SitesBeside.{bit_in, count_in, favours_one, led_to, seen_in, site_in, vote_in, IsStep, IsVote};

use crate::update::PottsRow;
use local_rule::{choose_lanes, differing_lanes, joined_lanes, load, shared_lanes};
use std::simd::prelude::*;

/// The least draw whose step is not 0, and the least whose step is 2: 2^32 and 2^33 over 3, rounded up.
const STEP_ONE: u64 = 1431655766;

const STEP_TWO: u64 = 2863311531;

/// The new colours of N sites, by their steps and draws and by what they see.
#[inline(always)]
pub(crate) fn update_sites<const N: usize>(
    steps: &[[u64; N]; 2],
    draws: &[u32; N],
    row: &PottsRow,
    own: &[[u64; N]; 2],
    near: &[[[u64; N]; 2]; 6],
    negative: &[[u64; N]; 6],
) -> [[u64; N]; 2]
    ensures { (i b step : ℕ) → i < N → b < 64 → step < 3 → IsStep steps.now i step
        → colour_in (site_in result i) b
        ≡ model.new_colour row.now.values step (slice_index draws.now i)
        (seen_in near.now negative.now i b) (colour_in (site_in own.now i) b) }
{
    let change = change_of(steps, own);
    let front = sum_of(
        &vote(own, &change, &near[0], &negative[0]),
        &vote(own, &change, &near[1], &negative[1]),
        &vote(own, &change, &near[2], &negative[2]),
    );
    let back = sum_of(
        &vote(own, &change, &near[3], &negative[3]),
        &vote(own, &change, &near[4], &negative[4]),
        &vote(own, &change, &near[5], &negative[5]),
    );
    changed(own, &change, &made(draws, row, &front, &back))
}

/// The steps of N sites by their first draws.
#[inline(always)]
pub(crate) fn steps_of<const N: usize>(draws: &[u32; N]) -> [[u64; N]; 2]
    ensures { (i : ℕ) → i < N → IsStep result i (model.step_of (slice_index draws.now i)) }
{
    let some = other_lanes(below_lanes(draws, STEP_ONE));
    let one = shared_lanes(some, below_lanes(draws, STEP_TWO));
    [other_lanes(one).to_array(), some.to_array()]
}

// The bits of the change from a colour to the one that the step leads to, which is a sum modulo 4.
#[inline(always)]
fn change_of<const N: usize>(steps: &[[u64; N]; 2], own: &[[u64; N]; 2]) -> [[u64; N]; 2]
    ensures low { (i b : ℕ) → i < N → bit_in result 0 i b ≡ bit_in steps.now 0 i b }
    ensures high { (i b : ℕ) → i < N → bit_in result 1 i b
        ≡ differs (bit_in steps.now 1 i b) (bit_in own.now 0 i b && bit_in steps.now 0 i b) }
{
    let ones = load(&steps[0]);
    let carry = shared_lanes(load(&own[0]), ones);
    [
        ones.to_array(),
        differing_lanes(load(&steps[1]), carry).to_array(),
    ]
}

// The votes of a neighbour of each site.
#[inline(always)]
fn vote<const N: usize>(
    own: &[[u64; N]; 2],
    change: &[[u64; N]; 2],
    near: &[[u64; N]; 2],
    negative: &[u64; N],
) -> [[u64; N]; 2]
    ensures vote { (i b : ℕ) → i < N → IsVote result i b }
    ensures worth { (i b : ℕ) → i < N → (bit_in change.now 0 i b || bit_in change.now 1 i b) ≡ true
        → vote_in result i b
        + one_if (favours_one (is_set (slice_index negative.now i) b) (colour_in (site_in near.now i) b) (colour_in (site_in own.now i) b) (led_to own.now change.now i b))
        ≡ 1
        + one_if (favours_one (is_set (slice_index negative.now i) b) (colour_in (site_in near.now i) b) (led_to own.now change.now i b) (colour_in (site_in own.now i) b)) }
{
    let low = differing_lanes(load(&near[0]), load(&own[0]));
    let high = differing_lanes(load(&near[1]), load(&own[1]));
    // Where the colours differ by neither 0 nor the change. Elsewhere they differ by the change
    // where they differ at all.
    let neither = differing_lanes(
        shared_lanes(load(&change[1]), low),
        shared_lanes(load(&change[0]), high),
    );
    let new = differing_lanes(joined_lanes(low, high), load(negative));
    [
        neither.to_array(),
        differing_lanes(new, shared_lanes(new, neither)).to_array(),
    ]
}

// The sum of three votes.
#[inline(always)]
fn sum_of<const N: usize>(a: &[[u64; N]; 2], b: &[[u64; N]; 2], c: &[[u64; N]; 2]) -> [[u64; N]; 3]
    ensures { (i k : ℕ) → i < N → IsVote a.now i k → IsVote b.now i k → IsVote c.now i k
        → count_in result i k ≡ vote_in a.now i k + vote_in b.now i k + vote_in c.now i k }
{
    let ones = differing_lanes(load(&a[0]), load(&b[0]));
    let twos = joined_lanes(
        differing_lanes(load(&a[1]), load(&b[1])),
        shared_lanes(load(&a[0]), load(&b[0])),
    );
    let fours = shared_lanes(load(&a[1]), load(&b[1]));
    let more = joined_lanes(load(&c[1]), shared_lanes(ones, load(&c[0])));
    [
        differing_lanes(ones, load(&c[0])).to_array(),
        differing_lanes(twos, more).to_array(),
        joined_lanes(fours, shared_lanes(twos, more)).to_array(),
    ]
}

// The samples in which the change is made, by the votes.
#[inline(always)]
fn made<const N: usize>(
    draws: &[u32; N],
    row: &PottsRow,
    front: &[[u64; N]; 3],
    back: &[[u64; N]; 3],
) -> [u64; N]
    ensures { (i b lost won : ℕ) → i < N → b < 64
        → lost + (count_in front.now i b + count_in back.now i b) ≡ 6 + won
        → is_set (slice_index result i) b
        ≡ model.is_made row.now.values lost won (slice_index draws.now i) }
{
    let costs = &row.values;
    let ones = differing_lanes(load(&front[0]), load(&back[0]));
    let carry = shared_lanes(load(&front[0]), load(&back[0]));
    let some = differing_lanes(load(&front[1]), load(&back[1]));
    let twos = differing_lanes(some, carry);
    let more = joined_lanes(
        shared_lanes(load(&front[1]), load(&back[1])),
        shared_lanes(some, carry),
    );
    // Where two of the fours are set the sum is above 6, and the change is free whatever the rest says.
    let either = joined_lanes(load(&front[2]), load(&back[2]));
    let fours = joined_lanes(either, more);
    let free = joined_lanes(
        shared_lanes(load(&front[2]), load(&back[2])),
        shared_lanes(either, more),
    );
    let one_two = choose_lanes(
        ones,
        below_lanes(draws, costs[0]),
        below_lanes(draws, costs[1]),
    );
    let three_four = choose_lanes(
        ones,
        below_lanes(draws, costs[2]),
        below_lanes(draws, costs[3]),
    );
    let five_six = choose_lanes(
        ones,
        below_lanes(draws, costs[4]),
        below_lanes(draws, costs[5]),
    );
    let from_three = choose_lanes(twos, three_four, five_six);
    let costly = choose_lanes(fours, joined_lanes(twos, one_two), from_three);
    joined_lanes(free, costly).to_array()
}

// The colours with the change, where it is made.
#[inline(always)]
fn changed<const N: usize>(
    own: &[[u64; N]; 2],
    change: &[[u64; N]; 2],
    made: &[u64; N],
) -> [[u64; N]; 2]
    ensures { (i b : ℕ) → i < N → colour_in (site_in result i) b
        ≡ (if is_set (slice_index made.now i) b then led_to own.now change.now i b
        else colour_in (site_in own.now i) b) }
{
    let made = load(made);
    [
        differing_lanes(load(&own[0]), shared_lanes(load(&change[0]), made)).to_array(),
        differing_lanes(load(&own[1]), shared_lanes(load(&change[1]), made)).to_array(),
    ]
}

// All samples of the lanes whose draw is below a threshold, and none of the others.
#[inline(always)]
fn below_lanes<const N: usize>(draws: &[u32; N], threshold: u64) -> Simd<u64, N>
    ensures length { length result ≡ N }
    ensures below { (i b : ℕ) → i < N → b < 64
        → is_set (slice_index result i) b ≡ nat_lt (slice_index draws.now i) threshold }
{
    let wide: Simd<u64, N> = Simd::<u32, N>::from_array(*draws).cast();
    wide.simd_lt(Simd::<u64, N>::splat(threshold))
        .select(Simd::<u64, N>::splat(u64::MAX), Simd::<u64, N>::splat(0))
}

// The samples that are not set.
#[inline(always)]
fn other_lanes<const N: usize>(words: Simd<u64, N>) -> Simd<u64, N>
    requires { length words ≡ N }
    ensures length { length result ≡ N }
    ensures others { (i b : ℕ) → i < N → b < 64
        → is_set (slice_index result i) b ≡ differs (is_set (slice_index words.entry i) b) true }
{
    differing_lanes(words, Simd::<u64, N>::splat(u64::MAX))
}
