//! Comparisons: the word of the samples whose numbers are equal, or less.

ghost use Rattle.std.specs.Prelude.{◌≡◌, ℕ, ◌-◌, ◌%◌, ◌^◌, ◌<◌, ◌≤◌, ◌==◌, not, nat_lt, if◌then◌else◌};
ghost use Rattle.multispin_word.specs.Planes.{is_set, differs, number};

use crate::subtraction::difference;
use multispin_word::{Planes, bit, broadcast};

/// The two cases of a comparison with one number: it has its place in W planes, or is above them.
macro_rules! against {
    ($value:ident, equal to $a:ident) => {{
        let wanted: Planes<W> = constant($value);
        equal(&$a.words, &wanted.words) & broadcast($value < 1 << W)
    }};
    ($value:ident, above $a:ident) => {{
        let wanted: Planes<W> = constant($value);
        below(&$a.words, &wanted.words) | broadcast(1 << W <= $value)
    }};
}

/// The samples whose number is the value.
#[inline]
pub fn equals_const<const W: usize>(a: &Planes<W>, value: u32) -> u64
    requires { W ≤ 20 }
    ensures { (k : ℕ) → k < 64 → is_set result k ≡ (number a.now.words k == value) }
{
    against!(value, equal to a)
}

/// The samples whose number is less than the value.
#[inline]
pub fn less_const<const W: usize>(a: &Planes<W>, value: u32) -> u64
    requires { W ≤ 20 }
    ensures { (k : ℕ) → k < 64 → is_set result k ≡ nat_lt (number a.now.words k) value }
{
    against!(value, above a)
}

/// The samples whose number in `a` is less than that in `b`.
#[inline]
pub fn less<const W: usize>(a: &Planes<W>, b: &Planes<W>) -> u64
    ensures { (k : ℕ) → k < 64
        → is_set result k ≡ nat_lt (number a.now.words k) (number b.now.words k) }
{
    below(&a.words, &b.words)
}

/// The samples whose number in `a` is less than that in `b`, and by how much more than one it is;
/// 0 for the others.
#[inline]
pub fn less_by<const W: usize>(a: &Planes<W>, b: &Planes<W>) -> (u64, Planes<W>)
    ensures less { (k : ℕ) → k < 64
        → is_set result.0 k ≡ nat_lt (number a.now.words k) (number b.now.words k) }
    ensures more { (k : ℕ) → k < 64
        → number result.1.words k ≡ number b.now.words k - number a.now.words k - 1 }
{
    let (rest, borrow) = difference(&a.words, &b.words);
    (borrow, complement(&rest.words, borrow))
}

/// How much each number of the samples in a word lacks of the greatest one; 0 for the others.
#[inline]
fn complement<const W: usize>(numbers: &[u64; W], samples: u64) -> Planes<W>
    ensures { (k : ℕ) → k < 64 → number result.words k
        ≡ (if is_set samples k then 2 ^ W - 1 - number numbers.now k else 0) }
{
    let mut lacking = Planes::zero();
    'planes: for w in 0..W {
        lacking.words[w] = !numbers[w] & samples;
    }
    lacking
}

/// The samples whose number in `a` is the smaller one: those for which its difference borrows.
#[inline]
fn below<const W: usize>(a: &[u64; W], b: &[u64; W]) -> u64
    ensures below { (k : ℕ) → k < 64 → is_set result k ≡ nat_lt (number a.now k) (number b.now k) }
    ensures bound { (k : ℕ) → number a.now k < 2 ^ W }
{
    difference(a, b).1
}

/// The samples with equal numbers.
#[inline]
fn equal<const W: usize>(a: &[u64; W], b: &[u64; W]) -> u64
    ensures equal { (k : ℕ) → k < 64 → is_set result k ≡ (number a.now k == number b.now k) }
    ensures bound { (k : ℕ) → number a.now k < 2 ^ W }
{
    let mut same = u64::MAX;
    'planes: for w in 0..W {
        same &= equal_bits(a[w], b[w]);
    }
    same
}

/// The samples with equal bits.
#[inline]
fn equal_bits(a: u64, b: u64) -> u64
    ensures { (k : ℕ) → k < 64 → is_set result k ≡ differs (not (is_set a k)) (is_set b k) }
{
    !a ^ b
}

/// One number for all samples, cut to W planes.
#[inline]
fn constant<const W: usize>(value: u32) -> Planes<W>
    requires { W ≤ 20 }
    ensures { (k : ℕ) → k < 64 → number result.words k ≡ value % 2 ^ W }
{
    let mut same = Planes::zero();
    'planes: for w in 0..W {
        same.words[w] = broadcast(bit(value as u64, w as u32));
    }
    same
}
