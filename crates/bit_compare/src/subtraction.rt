//! Differences: a full subtractor a plane, the borrow rippling upwards.

ghost use Rattle.std.specs.Prelude.{◌≡◌, ℕ, ◌+◌, ◌*◌, ◌^◌, ◌<◌};
ghost use Rattle.std.specs.Int.{bit_at};
ghost use Rattle.multispin_word.specs.Planes.{number};
ghost use Rattle.bit_compare.specs.Counting.{difference_modulo};

use multispin_word::Planes;

/// The numbers of `a` minus those of `b`, modulo 2^W.
#[inline]
pub fn subtract<const W: usize>(a: &Planes<W>, b: &Planes<W>) -> Planes<W>
    ensures { (k : ℕ) → k < 64
        → number result.words k
        ≡ difference_modulo W (number a.now.words k) (number b.now.words k) }
{
    difference(&a.words, &b.words).0
}

/// The difference of two numbers, and what is borrowed for it from above the last plane.
#[inline]
pub(crate) fn difference<const W: usize>(a: &[u64; W], b: &[u64; W]) -> (Planes<W>, u64)
    ensures difference { (k : ℕ) → k < 64
        → number a.now k + 2 ^ W * bit_at result.1 k ≡ number result.0.words k + number b.now k }
    ensures bounds { (k : ℕ) → (number result.0.words k < 2 ^ W) × (number b.now k < 2 ^ W) }
    ensures bound { (k : ℕ) → number a.now k < 2 ^ W }
{
    let mut rest = Planes::zero();
    let mut borrow = 0;
    'planes: for w in 0..W {
        let (word, next) = full_subtractor(a[w], b[w], borrow);
        rest.words[w] = word;
        borrow = next;
    }
    (rest, borrow)
}

/// Of each sample's bit of `a` what is left after the other two are taken away, and the borrow.
#[inline]
fn full_subtractor(a: u64, b: u64, borrow: u64) -> (u64, u64)
    ensures { (k : ℕ) → k < 64
        → bit_at a k + 2 * bit_at result.1 k ≡ bit_at result.0 k + bit_at b k + bit_at borrow k }
{
    let unset = !a;
    (a ^ b ^ borrow, (unset & b) | ((unset | b) & borrow))
}
