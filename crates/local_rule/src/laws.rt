//! Eight words at a time are eight single calls.

ghost use Rattle.std.specs.Prelude.{◌≡◌, ℕ, ◌<◌, slice_index};
ghost use Rattle.multispin_word.specs.Planes.{is_set};
ghost use Rattle.spin_model.specs.SiteRule as rule;
ghost use Rattle.local_rule.specs.SiteBits.{lane_words, set_count};

use crate::lane_rule::{heat_bath_lanes, metropolis_lanes};
use crate::word_rule::{heat_bath, metropolis};
use threshold_table::RuleRow;

/// One of eight lanes by `heat_bath_lanes`, and by `heat_bath` on that lane's draw and words: the same
/// word.
pub fn heat_bath_both_ways(
    draws: &[u32; 8],
    row: &RuleRow,
    aligned: &[[u64; 8]; 6],
    lane: usize,
) -> (u64, u64)
    requires { lane < 8 }
    ensures same { result.0 ≡ result.1 }
    ensures by_rule { (b : ℕ) → b < 64
        → is_set result.0 b
        ≡ rule.heat_bath row.now.values (set_count (lane_words aligned.now lane) b)
        (slice_index draws.now lane) }
{
    let mut out = [0; 8];
    heat_bath_lanes(draws, row, aligned, &mut out);
    let alone = heat_bath(draws[lane], row, &words_of(aligned, lane));
    (word_at(&out, lane), alone)
}

/// One of eight lanes by `metropolis_lanes`, and by `metropolis` on that lane's draw, words and spins:
/// the same word.
pub fn metropolis_both_ways(
    draws: &[u32; 8],
    row: &RuleRow,
    satisfied: &[[u64; 8]; 6],
    spins: &[u64; 8],
    lane: usize,
) -> (u64, u64)
    requires { lane < 8 }
    ensures same { result.0 ≡ result.1 }
    ensures by_rule { (b : ℕ) → b < 64
        → is_set result.0 b
        ≡ rule.metropolis row.now.values (set_count (lane_words satisfied.now lane) b)
        (slice_index draws.now lane) (is_set (slice_index spins.now lane) b) }
{
    let mut new = *spins;
    metropolis_lanes(draws, row, satisfied, &mut new);
    let alone = metropolis(draws[lane], row, &words_of(satisfied, lane), spins[lane]);
    (word_at(&new, lane), alone)
}

/// Word `lane` of each of the six rows.
fn words_of(rows: &[[u64; 8]; 6], lane: usize) -> [u64; 6]
    requires { lane < 8 }
    ensures { result ≡ lane_words rows.now lane }
{
    [
        word_at(&rows[0], lane),
        word_at(&rows[1], lane),
        word_at(&rows[2], lane),
        word_at(&rows[3], lane),
        word_at(&rows[4], lane),
        word_at(&rows[5], lane),
    ]
}

/// One word of eight.
fn word_at(words: &[u64; 8], lane: usize) -> u64
    requires { lane < 8 }
    ensures { result ≡ slice_index words.now lane }
{
    words[lane]
}
