//! The sweep of the sites of one colour in a plane that counts their unsatisfied bonds as it goes: where
//! four sites get their new spins, J times those of their neighbours is at hand.

ghost use Rattle.std.specs.Prelude.{◌≡◌, ℕ, ◌+◌, ◌*◌, ◌%◌, ◌^◌, ◌<◌, ◌≤◌, ◌==◌, if◌then◌else◌, length, All};
ghost use Rattle.bit_totals.specs.CountedRows.{CanSweepRow, SweepsPair};
ghost use Rattle.bit_totals.specs.RowBonds.{counted_lanes, pair_count, plane_count, row_count, HasLanes};
ghost use Rattle.bit_totals.specs.Tallies.{tallied};
ghost use Rattle.plane_sweep.specs.Packed.{FitsPlane};
ghost use Rattle.plane_sweep.specs.PlaneSweep.{SweepsPlane, SweepsRow, SweepsWords};
ghost use Rattle.spin_model.specs.Lattice.{half_plane, IsLawfulSize};

use crate::bonds::{BondCounts, add_carries, add_counts, add_last_carries, count_bonds};
use crate::energy::{ColourPlane, count_sized};
use local_rule::ReadyRule;
use plane_sweep::{
    HalfPlane, Plane, Row, Surroundings, first_row, kind_of, lend, pulls_of_four, row_behind,
    side_of, sweep_words, update_sites, words_at,
};
use threshold_table::RuleKind;

/// What the sites of a plane are swept by.
#[derive(Drop)]
struct Lent<'a, 'b> {
    around: Surroundings<'a>,
    rule: ReadyRule,
    draws: &'b [u32],
}

/// Sweeps the sites of a colour in a plane, and adds to each sample's number their unsatisfied bonds, by
/// code for a size, or for any where that is 0.
pub(crate) fn sweep_plane_counted<const SIZE: usize>(
    counts: &mut [[u64; 4]; 20],
    plane: &mut Plane,
    other: &[Plane],
    sites: &HalfPlane,
    draws: &mut [u32],
)
    requires size { 0 < SIZE → sites.now.couplings.now.size ≡ SIZE }
    requires lawful { IsLawfulSize sites.now.couplings.now.size }
    requires own { FitsPlane sites.now.couplings.now.size plane.old }
    requires count { length other.now ≡ sites.now.couplings.now.size }
    requires planes { All (FitsPlane sites.now.couplings.now.size) other.now }
    requires draws { half_plane sites.now.couplings.now.size ≤ length draws.old }
    requires colour { sites.now.colour < 2 }
    requires plane { sites.now.z < sites.now.couplings.now.size }
    requires room { (b : ℕ) → b < 64
        → tallied counts.old b + 6 * half_plane sites.now.couplings.now.size < 2 ^ 20 }
    ensures swept { SweepsPlane sites.now.couplings.now other.now sites.now.rule.now sites.now.colour sites.now.z plane.old plane.new }
    ensures counted { (b : ℕ) → b < 64 → tallied counts.new b ≡ tallied counts.old b
        + plane_count sites.now.couplings.now other.now sites.now.colour sites.now.z plane.new.words b (half_plane sites.now.couplings.now.size) }
{
    let size = side_of::<SIZE>(sites.couplings);
    let draws = &mut draws[..(size * (size / 2)) as usize];
    plane.wheel.fill(draws);
    sweep_words_counted::<SIZE>(counts, plane.words.as_mut_slice(), other, sites, draws);
}

// The new words of the plane's sites, each by the draw of its place, and then their bonds.
fn sweep_then_count<const SIZE: usize>(
    counts: &mut [[u64; 4]; 20],
    own: &mut [u64],
    other: &[Plane],
    sites: &HalfPlane,
    draws: &[u32],
)
    requires size { 0 < SIZE → sites.now.couplings.now.size ≡ SIZE }
    requires lawful { IsLawfulSize sites.now.couplings.now.size }
    requires own { length own.old ≡ half_plane sites.now.couplings.now.size }
    requires draws { length draws.now ≡ half_plane sites.now.couplings.now.size }
    requires count { length other.now ≡ sites.now.couplings.now.size }
    requires planes { All (FitsPlane sites.now.couplings.now.size) other.now }
    requires colour { sites.now.colour < 2 }
    requires plane { sites.now.z < sites.now.couplings.now.size }
    requires room { (b : ℕ) → b < 64
        → tallied counts.old b + 6 * half_plane sites.now.couplings.now.size < 2 ^ 20 }
    ensures swept { SweepsWords sites.now.couplings.now other.now sites.now.rule.now draws.now sites.now.colour sites.now.z (half_plane sites.now.couplings.now.size) own.old own.new }
    ensures counted { (b : ℕ) → b < 64 → tallied counts.new b ≡ tallied counts.old b
        + plane_count sites.now.couplings.now other.now sites.now.colour sites.now.z own.new b (half_plane sites.now.couplings.now.size) }
{
    sweep_words::<SIZE>(own, other, sites, draws);
    let plane = ColourPlane {
        own,
        other,
        couplings: sites.couplings,
        colour: sites.colour,
        z: sites.z,
    };
    count_sized::<SIZE>(counts, &plane);
}

// The new words and their bonds, counted where a site gets its word at multiples of 8, with code for a size, for each kind
// of table in order, and for planes whose first row begins at x = 0 or at x = 1: all are then known in its
// loops.
fn sweep_words_counted<const SIZE: usize>(
    counts: &mut [[u64; 4]; 20],
    own: &mut [u64],
    other: &[Plane],
    sites: &HalfPlane,
    draws: &[u32],
)
    requires size { 0 < SIZE → sites.now.couplings.now.size ≡ SIZE }
    requires lawful { IsLawfulSize sites.now.couplings.now.size }
    requires own { length own.old ≡ half_plane sites.now.couplings.now.size }
    requires draws { length draws.now ≡ half_plane sites.now.couplings.now.size }
    requires count { length other.now ≡ sites.now.couplings.now.size }
    requires planes { All (FitsPlane sites.now.couplings.now.size) other.now }
    requires colour { sites.now.colour < 2 }
    requires plane { sites.now.z < sites.now.couplings.now.size }
    requires room { (b : ℕ) → b < 64
        → tallied counts.old b + 6 * half_plane sites.now.couplings.now.size < 2 ^ 20 }
    ensures swept { SweepsWords sites.now.couplings.now other.now sites.now.rule.now draws.now sites.now.colour sites.now.z (half_plane sites.now.couplings.now.size) own.old own.new }
    ensures counted { (b : ℕ) → b < 64 → tallied counts.new b ≡ tallied counts.old b
        + plane_count sites.now.couplings.now other.now sites.now.colour sites.now.z own.new b (half_plane sites.now.couplings.now.size) }
{
    if SIZE == 0 || SIZE % 8 != 0 {
        sweep_then_count::<SIZE>(counts, own, other, sites, draws);
        return;
    }
    let even = (sites.colour + sites.z) % 2 == 0;
    match sites.rule.kind() {
        RuleKind::Heat if even => {
            sweep_rows::<SIZE, true, true>(counts, own, other, sites, draws)
        }
        RuleKind::Heat => sweep_rows::<SIZE, true, false>(counts, own, other, sites, draws),
        RuleKind::Metropolis if even => {
            sweep_rows::<SIZE, false, true>(counts, own, other, sites, draws)
        }
        RuleKind::Metropolis => sweep_rows::<SIZE, false, false>(counts, own, other, sites, draws),
    }
}

// The new words and their bonds by heat bath or Metropolis, two rows at a time: an even plane's first row begins at x = 0.
// Not expanded where it is called, since no hint brings so much code into one function. A table out of
// order, which no temperature has, takes the code for all sizes.
#[inline(never)]
fn sweep_rows<const SIZE: usize, const HEAT: bool, const EVEN: bool>(
    counts: &mut [[u64; 4]; 20],
    own: &mut [u64],
    other: &[Plane],
    sites: &HalfPlane,
    draws: &[u32],
)
    requires eights { SIZE % 8 ≡ 0 }
    requires size { sites.now.couplings.now.size ≡ SIZE }
    requires even { EVEN ≡ ((sites.now.colour + sites.now.z) % 2 == 0) }
    requires kind { sites.now.rule.now.kind ≡ (if HEAT then RuleKind.Heat else RuleKind.Metropolis) }
    requires lawful { IsLawfulSize sites.now.couplings.now.size }
    requires own { length own.old ≡ half_plane sites.now.couplings.now.size }
    requires draws { length draws.now ≡ half_plane sites.now.couplings.now.size }
    requires count { length other.now ≡ sites.now.couplings.now.size }
    requires planes { All (FitsPlane sites.now.couplings.now.size) other.now }
    requires colour { sites.now.colour < 2 }
    requires plane { sites.now.z < sites.now.couplings.now.size }
    requires room { (b : ℕ) → b < 64
        → tallied counts.old b + 6 * half_plane sites.now.couplings.now.size < 2 ^ 20 }
    ensures swept { SweepsWords sites.now.couplings.now other.now sites.now.rule.now draws.now sites.now.colour sites.now.z (half_plane sites.now.couplings.now.size) own.old own.new }
    ensures counted { (b : ℕ) → b < 64 → tallied counts.new b ≡ tallied counts.old b
        + plane_count sites.now.couplings.now other.now sites.now.colour sites.now.z own.new b (half_plane sites.now.couplings.now.size) }
{
    if !sites.rule.is_in_order() {
        sweep_then_count::<0>(counts, own, other, sites, draws);
        return;
    }
    let around = lend(other, sites.couplings, sites.colour, sites.z, SIZE);
    // The rule is its own, not the one borrowed beside the words that are written: so the limits stay in
    // registers.
    let rule = sites.rule.copy_in_order(kind_of(HEAT));
    let lent = Lent {
        around,
        rule,
        draws,
    };
    let words = SIZE * (SIZE / 2);
    let mut row = first_row(SIZE, EVEN);
    'pairs: for i in 0..SIZE / 2 {
        let behind = row_behind(&row, words);
        sweep_pair::<SIZE, HEAT, EVEN>(counts, own, &lent, &row, &behind);
        row = row_behind(&behind, words);
    }
}

// The new words of two rows, the second behind the first: by eight columns, then by four.
#[inline(always)]
fn sweep_pair<const SIZE: usize, const HEAT: bool, const EVEN: bool>(
    counts: &mut [[u64; 4]; 20],
    own: &mut [u64],
    lent: &Lent,
    first: &Row,
    second: &Row,
)
    requires first { CanSweepRow lent.now first.now own.old }
    requires second { CanSweepRow lent.now second.now own.old }
    requires half { second.now.half ≡ first.now.half }
    requires apart { first.now.here + first.now.half ≤ second.now.here }
    requires fours { first.now.half % 4 ≡ 0 }
    requires room { (b : ℕ) → b < 64 → tallied counts.old b + 12 * first.now.half < 2 ^ 20 }
    ensures swept { SweepsPair lent.now first.now second.now 0 first.now.half own.old own.new }
    ensures counted { (b : ℕ) → b < 64 → tallied counts.new b
        ≡ tallied counts.old b + pair_count own.new lent.now.around first.now second.now b first.now.half }
{
    let mut k = 0;
    'eights: while first.half - k >= 8 {
        sweep_eight::<SIZE, HEAT, EVEN>(counts, own, lent, first, second, k);
        k += 8;
    }
    'fours: while first.half - k >= 4 {
        sweep_four_of_both::<SIZE, HEAT, EVEN>(counts, own, lent, first, second, k);
        k += 4;
    }
}

// Eight columns of both rows, from one on.
#[inline(always)]
fn sweep_eight<const SIZE: usize, const HEAT: bool, const EVEN: bool>(
    counts: &mut [[u64; 4]; 20],
    own: &mut [u64],
    lent: &Lent,
    first: &Row,
    second: &Row,
    k: usize,
)
    requires first { CanSweepRow lent.now first.now own.old }
    requires second { CanSweepRow lent.now second.now own.old }
    requires half { second.now.half ≡ first.now.half }
    requires apart { first.now.here + first.now.half ≤ second.now.here }
    requires within { k + 8 ≤ first.now.half }
    requires room { (b : ℕ) → b < 64 → tallied counts.old b + 96 < 2 ^ 20 }
    ensures swept { SweepsPair lent.now first.now second.now k (k + 8) own.old own.new }
    ensures counted { (b : ℕ) → b < 64
        → tallied counts.new b + pair_count own.new lent.now.around first.now second.now b k
        ≡ tallied counts.old b + pair_count own.new lent.now.around first.now second.now b (k + 8) }
{
    let a = sweep_and_count_four::<SIZE, HEAT, EVEN, 0>(own, lent, first, k);
    let b = sweep_and_count_four::<SIZE, HEAT, EVEN, 1>(own, lent, first, k + 4);
    let front = add_counts(counts, &a, &b);
    let c = sweep_and_count_four::<SIZE, HEAT, EVEN, 2>(own, lent, second, k);
    let d = sweep_and_count_four::<SIZE, HEAT, EVEN, 3>(own, lent, second, k + 4);
    let back = add_counts(counts, &c, &d);
    add_carries(counts, front, back);
}

// Four columns of both rows, from one on.
#[inline(always)]
fn sweep_four_of_both<const SIZE: usize, const HEAT: bool, const EVEN: bool>(
    counts: &mut [[u64; 4]; 20],
    own: &mut [u64],
    lent: &Lent,
    first: &Row,
    second: &Row,
    k: usize,
)
    requires first { CanSweepRow lent.now first.now own.old }
    requires second { CanSweepRow lent.now second.now own.old }
    requires half { second.now.half ≡ first.now.half }
    requires apart { first.now.here + first.now.half ≤ second.now.here }
    requires within { k + 4 ≤ first.now.half }
    requires room { (b : ℕ) → b < 64 → tallied counts.old b + 48 < 2 ^ 20 }
    ensures swept { SweepsPair lent.now first.now second.now k (k + 4) own.old own.new }
    ensures counted { (b : ℕ) → b < 64
        → tallied counts.new b + pair_count own.new lent.now.around first.now second.now b k
        ≡ tallied counts.old b + pair_count own.new lent.now.around first.now second.now b (k + 4) }
{
    let a = sweep_and_count_four::<SIZE, HEAT, EVEN, 4>(own, lent, first, k);
    let b = sweep_and_count_four::<SIZE, HEAT, EVEN, 5>(own, lent, second, k);
    let last = add_counts(counts, &a, &b);
    add_last_carries(counts, last);
}

// The new words of four sites of a row, from a column on, and then how many of their bonds are
// unsatisfied. Each call has a copy of its own, since no hint brings so much code to where one function is
// called more than once.
#[inline(always)]
fn sweep_and_count_four<const SIZE: usize, const HEAT: bool, const EVEN: bool, const PART: usize>(
    own: &mut [u64],
    lent: &Lent,
    row: &Row,
    k: usize,
) -> BondCounts
    requires row { CanSweepRow lent.now row.now own.old }
    requires within { k + 4 ≤ row.now.half }
    ensures lanes { HasLanes result }
    ensures swept { SweepsRow lent.now.around lent.now.rule lent.now.draws.now row.now k (k + 4) own.old own.new }
    ensures counted { (b : ℕ) → row_count own.new lent.now.around row.now b k + counted_lanes result b
        ≡ row_count own.new lent.now.around row.now b (k + 4) }
{
    let six = pulls_of_four(&lent.around, row, k);
    update_sites::<4>(own, &lent.rule, lent.draws, row.here + k, &six);
    let words = words_at::<4>(own, row.here + k);
    count_bonds(&six, words)
}
