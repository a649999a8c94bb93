//! Counts as sums of signed terms: each counted one is +1, each other one -1.

ghost use Rattle.std.specs.Prelude.{◌≡◌, ℕ, ◌*◌, ◌<◌, ◌≤◌, nat_abs, pos, ◌+ℤ◌, ◌-ℤ◌};
ghost use Rattle.multispin_word.specs.Planes.{number};
ghost use Rattle.plane_sums.specs.Correlations.{signed_at};

use multispin_word::Planes;
use scalar_rule::excess;

/// Twice each sample's count, less the whole.
pub(crate) fn write_excesses(out: &mut [i32; 64], counts: &Planes<20>, whole: u32)
    requires counts { (b : ℕ) → b < 64 → number counts.now.words b ≤ whole }
    requires whole { whole ≤ 786432 }
    ensures { (b : ℕ) → b < 64 → signed_at out.new b ≡ pos (2 * number counts.now.words b) -ℤ pos whole }
{
    *out = nothing();
    add_excesses(out, counts, whole);
}

/// Adds it.
pub(crate) fn add_excesses(out: &mut [i32; 64], counts: &Planes<20>, whole: u32)
    requires small { (b : ℕ) → b < 64 → nat_abs (signed_at out.old b) ≤ 786432 }
    requires counts { (b : ℕ) → b < 64 → number counts.now.words b ≤ whole }
    requires whole { whole ≤ 786432 }
    ensures { (b : ℕ) → b < 64 → signed_at out.new b
        ≡ signed_at out.old b +ℤ (pos (2 * number counts.now.words b) -ℤ pos whole) }
{
    let mut numbers = [0u32; 64];
    counts.to_numbers(&mut numbers);
    'samples: for b in 0..64usize {
        out[b] = plus(out[b], excess(numbers[b], whole));
    }
}

#[inline(always)]
fn plus(sum: i32, more: i32) -> i32
    requires sum { nat_abs sum ≤ 786432 }
    requires more { nat_abs more ≤ 786432 }
    ensures { result ≡ sum +ℤ more }
{
    sum + more
}

/// No sample has a sum.
#[inline(always)]
pub(crate) fn nothing() -> [i32; 64]
    ensures { (b : ℕ) → signed_at result b ≡ pos 0 }
{
    [0i32; 64]
}
