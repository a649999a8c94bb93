//! One pass over all words, not inlined, so that it is compiled as a loop of its own.

ghost use Rattle.std.specs.Prelude.{◌≡◌, ℕ, ◌<◌, ◌≤◌, length};
ghost use Rattle.std.specs.List.{AllWithin};
ghost use Rattle.bench_kernels.specs.Totals.{IsZero};

use bit_compare::{add_count, count6};
use multispin_word::Planes;

/// Counts each group.
#[inline(never)]
pub fn count_all(six: &[[u64; 6]], counts: &mut [Planes<3>])
    requires { length six.now ≡ length counts.old }
    ensures { length counts.new ≡ length counts.old }
{
    'groups: for i in 0..six.len() {
        counts[i] = count6(&six[i]);
    }
}

/// Makes each total zero.
pub fn clear(totals: &mut [Planes<20>])
    ensures zero { AllWithin IsZero totals.new 0 (length totals.new) }
    ensures same { length totals.new ≡ length totals.old }
{
    'totals: for i in 0..totals.len() {
        totals[i] = Planes::zero();
    }
}

/// Adds its count to each total.
#[inline(never)]
pub fn add_all(totals: &mut [Planes<20>], counts: &[Planes<3>])
    requires long { length totals.old ≤ length counts.now }
    requires zero { AllWithin IsZero totals.old 0 (length totals.old) }
    ensures { length totals.new ≡ length totals.old }
{
    'totals: for i in 0..totals.len() {
        add_to_zero(&mut totals[i], &counts[i].words);
    }
}

/// Adds a count, which fits, since the total is zero.
#[inline]
fn add_to_zero(total: &mut Planes<20>, count: &[u64; 3])
    requires { IsZero total.old }
{
    add_count(total, &Planes { words: *count });
}
