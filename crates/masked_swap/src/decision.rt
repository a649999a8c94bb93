//! Which samples swap.

ghost use Rattle.std.specs.Prelude.{◌≡◌, ℕ, ◌/◌, ◌<◌, length, nat_lt, slice_index};
ghost use Rattle.multispin_word.specs.Planes.{is_set, number};
ghost use Rattle.scalar_rule.specs.Exchange as model;
ghost use Rattle.spin_model.specs.Stream.{advanced, draw};
ghost use Rattle.threshold_table.specs.Tables.{swap_threshold};

use bit_compare::less_by;
use multispin_word::{Planes, below, only};
use pr_generator::Wheel;
use threshold_table::SwapTable;

/// The samples in which the configurations of pair `pair` swap, from the unsatisfied bonds of its
/// colder and its hotter slot: bit b is set exactly where sample b swaps, by draw b of the next 64
/// draws of the pair's generator. All 64 are taken, used or not. Takes no memory.
pub fn decide(
    pair: u32,
    cold: &Planes<20>,
    hot: &Planes<20>,
    wheel: &mut Wheel,
    table: &SwapTable,
) -> u64
    requires { pair < length table.now }
    ensures mask { (b : ℕ) → b < 64 → is_set result b
        ≡ model.is_swapped table.now pair (draw wheel.old b) (number cold.now.words b) (number hot.now.words b) }
    ensures wheel { wheel.new ≡ advanced wheel.old 64 }
{
    let mut draws = [0u32; 64];
    wheel.fill(&mut draws);
    // In planes one subtraction serves all samples, and few planes are left to be read as numbers.
    let (ordered, beyond) = less_by(cold, hot);
    let mut gaps_less_one = [0u32; 64];
    beyond.to_numbers(&mut gaps_less_one);
    !ordered | below_limits(&draws, &limits_of(pair, &gaps_less_one, table))
}

/// The threshold of each sample, by its gap less one. Apart from the draws, so that these are
/// compared several at a time.
#[inline]
fn limits_of(pair: u32, gaps_less_one: &[u32; 64], table: &SwapTable) -> [u64; 64]
    requires { pair < length table.now }
    ensures { (b : ℕ) → b < 64
        → slice_index result b ≡ swap_threshold table.now pair (slice_index gaps_less_one.now b / 2) }
{
    let mut limits = [0u64; 64];
    'samples: for b in 0..64usize {
        limits[b] = table.threshold(pair, gaps_less_one[b] / 2);
    }
    limits
}

/// The samples whose draw is below their limit.
#[inline]
fn below_limits(draws: &[u32; 64], limits: &[u64; 64]) -> u64
    ensures { (b : ℕ) → b < 64
        → is_set result b ≡ nat_lt (slice_index draws.now b) (slice_index limits.now b) }
{
    let mut mask = 0;
    'samples: for b in 0..64usize {
        mask |= below(draws[b], limits[b]) & only(b as u32);
    }
    mask
}
