//! The spin rules on several sites at a time, as on one. Lane i is word i of each row, with draw i.

ghost use Rattle.std.specs.Prelude.{◌≡◌, ℕ, ◌<◌, true, slice_index};
ghost use Rattle.multispin_word.specs.Planes.{is_set};
ghost use Rattle.spin_model.specs.SiteRule as rule;
ghost use Rattle.local_rule.specs.RowOrder.{is_falling, is_rising};
ghost use Rattle.local_rule.specs.SiteBits.{equal_count, lane_words, set_count};

use crate::ready_rule::ReadyRule;
use crate::vectors::{
    accepted_lanes, below_lanes, choose_lanes, count_lanes, differing_lanes, equal_lanes,
    fallen_lanes, joined_lanes, load, raised_lanes,
};
use threshold_table::{RuleKind, RuleRow, SlotRule};

/// The new spins of eight sites by heat bath, written to `out`: in lane i those of the site with draw
/// i, from word i of each of the six rows.
#[inline]
pub fn heat_bath_lanes(draws: &[u32; 8], row: &RuleRow, aligned: &[[u64; 8]; 6], out: &mut [u64; 8])
    ensures { (i b : ℕ) → i < 8 → b < 64
        → is_set (slice_index out.new i) b
        ≡ rule.heat_bath row.now.values (set_count (lane_words aligned.now i) b)
        (slice_index draws.now i) }
{
    let ready = ReadyRule::of(&SlotRule {
        kind: RuleKind::Heat,
        row: *row,
    });
    *out = heat_bath_sites(draws, &ready, aligned);
}

/// Replaces the spins of eight sites by Metropolis: in lane i those of the site with draw i, from
/// word i of each of the six rows and its old spins.
#[inline]
pub fn metropolis_lanes(
    draws: &[u32; 8],
    row: &RuleRow,
    satisfied: &[[u64; 8]; 6],
    spins: &mut [u64; 8],
)
    ensures { (i b : ℕ) → i < 8 → b < 64
        → is_set (slice_index spins.new i) b
        ≡ rule.metropolis row.now.values (set_count (lane_words satisfied.now i) b)
        (slice_index draws.now i) (is_set (slice_index spins.old i) b) }
{
    let ready = ReadyRule::of(&SlotRule {
        kind: RuleKind::Metropolis,
        row: *row,
    });
    *spins = flipped_sites(draws, &ready, satisfied, &[u64::MAX; 8], spins);
}

/// The new spins of N sites by heat bath: in lane i those of the site with draw i, from word i of
/// each of the six rows.
#[inline(always)]
pub fn heat_bath_sites<const N: usize>(
    draws: &[u32; N],
    ready: &ReadyRule,
    aligned: &[[u64; N]; 6],
) -> [u64; N]
    requires { ready.now.kind ≡ RuleKind.Heat }
    ensures { (i b : ℕ) → i < N → b < 64
        → is_set (slice_index result i) b
        ≡ rule.heat_bath ready.now.row.values (set_count (lane_words aligned.now i) b)
        (slice_index draws.now i) }
{
    let rising = ready.is_in_order();
    if rising {
        heat_bath_rising(draws, ready, aligned)
    } else {
        let (draws, ready, aligned) = (*draws, ready.copy(), *aligned);
        heat_bath_any(&draws, &ready, &aligned)
    }
}

// Heat bath by a row in order, with choices of two operations.
#[inline(always)]
fn heat_bath_rising<const N: usize>(
    draws: &[u32; N],
    ready: &ReadyRule,
    aligned: &[[u64; N]; 6],
) -> [u64; N]
    requires { is_rising ready.now.row.values ≡ true }
    ensures { (i b : ℕ) → i < N → b < 64
        → is_set (slice_index result i) b
        ≡ rule.heat_bath ready.now.row.values (set_count (lane_words aligned.now i) b)
        (slice_index draws.now i) }
{
    let [one, two, four] = count_lanes(aligned);
    let (ones, twos, fours) = (load(&one), load(&two), load(&four));
    let zero_one = raised_lanes(
        ones,
        below_lanes(draws, ready, 1),
        below_lanes(draws, ready, 0),
    );
    let two_three = raised_lanes(
        ones,
        below_lanes(draws, ready, 3),
        below_lanes(draws, ready, 2),
    );
    let four_five = raised_lanes(
        ones,
        below_lanes(draws, ready, 5),
        below_lanes(draws, ready, 4),
    );
    let up_to_three = raised_lanes(twos, two_three, zero_one);
    let from_four = raised_lanes(twos, below_lanes(draws, ready, 6), four_five);
    raised_lanes(fours, from_four, up_to_three).to_array()
}

// Heat bath by any row. Out of line and borrowing copies alone, so that a loop over sites holds one body and
// keeps in registers what it lends to that.
#[inline(never)]
fn heat_bath_any<const N: usize>(
    draws: &[u32; N],
    ready: &ReadyRule,
    aligned: &[[u64; N]; 6],
) -> [u64; N]
    ensures { (i b : ℕ) → i < N → b < 64
        → is_set (slice_index result i) b
        ≡ rule.heat_bath ready.now.row.values (set_count (lane_words aligned.now i) b)
        (slice_index draws.now i) }
{
    let [ones, twos, fours] = count_lanes(aligned);
    let (ones, twos) = (load(&ones), load(&twos));
    let zero_one = choose_lanes(
        ones,
        below_lanes(draws, ready, 1),
        below_lanes(draws, ready, 0),
    );
    let two_three = choose_lanes(
        ones,
        below_lanes(draws, ready, 3),
        below_lanes(draws, ready, 2),
    );
    let four_five = choose_lanes(
        ones,
        below_lanes(draws, ready, 5),
        below_lanes(draws, ready, 4),
    );
    let up_to_three = choose_lanes(twos, two_three, zero_one);
    let from_four = choose_lanes(twos, below_lanes(draws, ready, 6), four_five);
    choose_lanes(load(&fours), from_four, up_to_three).to_array()
}

/// The new spins of N sites by Metropolis: in lane i those of the site with draw i, from word i of
/// each of the six rows of aligned neighbours and its old spins. The bond to a neighbour is satisfied
/// where its bit is equal to that of the spin.
#[inline(always)]
pub fn metropolis_sites<const N: usize>(
    draws: &[u32; N],
    ready: &ReadyRule,
    aligned: &[[u64; N]; 6],
    spins: &[u64; N],
) -> [u64; N]
    requires { ready.now.kind ≡ RuleKind.Metropolis }
    ensures { (i b : ℕ) → i < N → b < 64
        → is_set (slice_index result i) b
        ≡ rule.metropolis ready.now.row.values
        (equal_count (lane_words aligned.now i) (slice_index spins.now i) b)
        (slice_index draws.now i) (is_set (slice_index spins.now i) b) }
{
    flipped_sites(draws, ready, aligned, spins, spins)
}

// Metropolis, where those bonds of a sample are satisfied whose bits are equal to that of `same`.
#[inline(always)]
fn flipped_sites<const N: usize>(
    draws: &[u32; N],
    ready: &ReadyRule,
    six: &[[u64; N]; 6],
    same: &[u64; N],
    spins: &[u64; N],
) -> [u64; N]
    requires { ready.now.kind ≡ RuleKind.Metropolis }
    ensures { (i b : ℕ) → i < N → b < 64
        → is_set (slice_index result i) b
        ≡ rule.metropolis ready.now.row.values
        (equal_count (lane_words six.now i) (slice_index same.now i) b)
        (slice_index draws.now i) (is_set (slice_index spins.now i) b) }
{
    let falling = ready.is_in_order();
    if falling {
        flipped_falling(draws, ready, six, same, spins)
    } else {
        let (draws, ready, six, same, spins) = (*draws, ready.copy(), *six, *same, *spins);
        flipped_any(&draws, &ready, &six, &same, &spins)
    }
}

// Metropolis by a row in order, with choices of two operations.
#[inline(always)]
fn flipped_falling<const N: usize>(
    draws: &[u32; N],
    ready: &ReadyRule,
    six: &[[u64; N]; 6],
    same: &[u64; N],
    spins: &[u64; N],
) -> [u64; N]
    requires { is_falling ready.now.row.values ≡ true }
    ensures { (i b : ℕ) → i < N → b < 64
        → is_set (slice_index result i) b
        ≡ rule.metropolis ready.now.row.values
        (equal_count (lane_words six.now i) (slice_index same.now i) b)
        (slice_index draws.now i) (is_set (slice_index spins.now i) b) }
{
    let [one, no_two, no_four] = equal_lanes(six, same);
    let flipped = fallen_lanes(
        load(&one),
        load(&no_two),
        below_lanes(draws, ready, 0),
        below_lanes(draws, ready, 1),
        below_lanes(draws, ready, 2),
    );
    differing_lanes(load(spins), joined_lanes(load(&no_four), flipped)).to_array()
}

// Metropolis by any row, out of line as heat bath is.
#[inline(never)]
fn flipped_any<const N: usize>(
    draws: &[u32; N],
    ready: &ReadyRule,
    six: &[[u64; N]; 6],
    same: &[u64; N],
    spins: &[u64; N],
) -> [u64; N]
    ensures { (i b : ℕ) → i < N → b < 64
        → is_set (slice_index result i) b
        ≡ rule.metropolis ready.now.row.values
        (equal_count (lane_words six.now i) (slice_index same.now i) b)
        (slice_index draws.now i) (is_set (slice_index spins.now i) b) }
{
    let [ones, no_twos, no_fours] = equal_lanes(six, same);
    let accepted = accepted_lanes(
        load(&ones),
        load(&no_twos),
        below_lanes(draws, ready, 0),
        below_lanes(draws, ready, 1),
        below_lanes(draws, ready, 2),
    );
    differing_lanes(load(spins), joined_lanes(load(&no_fours), accepted)).to_array()
}
