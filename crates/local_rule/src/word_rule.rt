//! The spin rules on one word: the count of the six bits picks for each sample one of the cases, each
//! of which has been compared with the draw once for all samples.

ghost use Rattle.std.specs.Prelude.{◌≡◌, ℕ, ◌<◌, ◌||◌, not, if◌then◌else◌};
ghost use Rattle.multispin_word.specs.Planes.{is_set};
ghost use Rattle.spin_model.specs.SiteRule as rule;
ghost use Rattle.local_rule.specs.SiteBits.{set_count};

use bit_compare::count6;
use multispin_word::{below, choose};
use threshold_table::RuleRow;

/// The new spins of a site by heat bath, one bit a sample, 1 for +1.
///
/// `draw` is the site's random number, the same for all samples, and `aligned` has for each of the
/// six neighbours the samples in which J times its spin is +1. The row has for 0 to 6 aligned
/// neighbours the probability of +1 times 2^32.
#[inline]
pub fn heat_bath(draw: u32, row: &RuleRow, aligned: &[u64; 6]) -> u64
    ensures { (b : ℕ) → b < 64
        → is_set result b ≡ rule.heat_bath row.now.values (set_count aligned.now b) draw }
{
    let cases = &row.values;
    let count = count6(aligned);
    let (ones, twos, fours) = (count.words[0], count.words[1], count.words[2]);
    let zero_one = choose(ones, below(draw, cases[1]), below(draw, cases[0]));
    let two_three = choose(ones, below(draw, cases[3]), below(draw, cases[2]));
    let four_five = choose(ones, below(draw, cases[5]), below(draw, cases[4]));
    let up_to_three = choose(twos, two_three, zero_one);
    let from_four = choose(twos, below(draw, cases[6]), four_five);
    choose(fours, from_four, up_to_three)
}

/// The new spins of a site by Metropolis, one bit a sample, 1 for +1.
///
/// `draw` is the site's random number, the same for all samples, and `satisfied` has for each of the
/// six bonds the samples in which J times its two spins is +1. `spin` has the old spins. The row
/// begins with the probabilities of a flip at 4, 5 and 6 satisfied bonds, times 2^32.
#[inline]
pub fn metropolis(draw: u32, row: &RuleRow, satisfied: &[u64; 6], spin: u64) -> u64
    ensures { (b : ℕ) → b < 64
        → is_set result b
        ≡ rule.metropolis row.now.values (set_count satisfied.now b) draw (is_set spin b) }
{
    let cases = &row.values;
    let count = count6(satisfied);
    let (ones, twos, fours) = (count.words[0], count.words[1], count.words[2]);
    let four_five = choose(ones, below(draw, cases[1]), below(draw, cases[0]));
    let accepted = choose(twos, below(draw, cases[2]), four_five);
    flipped(spin, fours, accepted)
}

/// The other spin, but the old one where the flip costs energy and is not accepted.
#[inline]
fn flipped(spin: u64, costly: u64, accepted: u64) -> u64
    ensures { (b : ℕ) → b < 64
        → is_set result b ≡ (if not (is_set costly b) || is_set accepted b
        then not (is_set spin b) else is_set spin b) }
{
    !spin ^ (costly & !accepted)
}
