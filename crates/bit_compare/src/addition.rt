//! Sums: a full adder a plane, the carry rippling upwards.

ghost use Rattle.std.specs.Prelude.{◌≡◌, ℕ, ◌+◌, ◌*◌, ◌^◌, ◌<◌, ◌≤◌, length, slice_index};
ghost use Rattle.std.specs.Int.{bit_at};
ghost use Rattle.multispin_word.specs.Planes.{number, first};

use multispin_word::Planes;

/// Adds a count of three planes to each sample's number. No sum may reach 2^W.
#[inline]
pub fn add_count<const W: usize>(total: &mut Planes<W>, count: &Planes<3>)
    requires width { 3 ≤ W }
    requires fits { (k : ℕ) → k < 64 → number total.old.words k + number count.now.words k < 2 ^ W }
    ensures { (k : ℕ) → k < 64
        → number total.new.words k ≡ number total.old.words k + number count.now.words k }
{
    add(total, count);
}

/// Adds one to the number of each sample that is set in the word. No sum may reach 2^W.
#[inline]
pub fn add_bit<const W: usize>(total: &mut Planes<W>, word: u64)
    requires fits { (k : ℕ) → k < 64 → number total.old.words k + bit_at word k < 2 ^ W }
    ensures { (k : ℕ) → k < 64
        → number total.new.words k ≡ number total.old.words k + bit_at word k }
{
    let _ = ripple_add(&mut total.words, &[], word);
}

/// Adds numbers of at most as many planes. No sum may reach 2^W.
#[inline]
pub fn add<const W: usize, const V: usize>(total: &mut Planes<W>, other: &Planes<V>)
    requires width { V ≤ W }
    requires fits { (k : ℕ) → k < 64 → number total.old.words k + number other.now.words k < 2 ^ W }
    ensures { (k : ℕ) → k < 64
        → number total.new.words k ≡ number total.old.words k + number other.now.words k }
{
    let _ = ripple_add(&mut total.words, &other.words, 0);
}

/// Of three bits of each sample the low and the high bit of their sum.
#[inline]
pub fn full_adder(a: u64, b: u64, carry: u64) -> (u64, u64)
    ensures { (k : ℕ)
        → bit_at result.0 k + 2 * bit_at result.1 k ≡ bit_at a k + bit_at b k + bit_at carry k }
{
    let either = a ^ b;
    (either ^ carry, (a & b) | (either & carry))
}

/// Adds a number and a bit to the planes of a total, and gives what is carried out of them. In
/// place, so that the compiler has no second total to hold.
#[inline]
fn ripple_add<const W: usize, const V: usize>(
    total: &mut [u64; W],
    other: &[u64; V],
    bit: u64,
) -> u64
    ensures sum { (k : ℕ) → number total.new k + 2 ^ W * bit_at result k
        ≡ number total.old k + first other.now W k + bit_at bit k }
    ensures width { length other.now ≡ V }
{
    let mut carry = bit;
    'planes: for w in 0..W {
        let (word, next) = full_adder(total[w], plane(other, w), carry);
        total[w] = word;
        carry = next;
    }
    carry
}

/// A plane; above the last one there are zeros.
#[inline]
fn plane<const V: usize>(words: &[u64; V], w: usize) -> u64
    ensures { result ≡ slice_index words.now w }
{
    if w < V { words[w] } else { 0 }
}
