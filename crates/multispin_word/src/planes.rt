//! A small number of each of 64 samples, in bit planes.

ghost use Rattle.std.specs.Prelude.{◌≡◌, ℕ, ◌+◌, ◌*◌, ◌^◌, ◌<◌, ◌≤◌, ◌==◌, false, slice_index};
ghost use Rattle.multispin_word.specs.Planes.{number, is_set, one_if};

use crate::word::{bit, halves, with_bit};

/// The numbers of 64 samples, each below 2^W. Word w holds bit w of each: the number of a sample
/// is the sum over w of 2^w times its bit of word w. W is at most 20 where a number is read or
/// written.
#[derive(Drop)]
pub struct Planes<const W: usize> {
    pub words: [u64; W],
}

impl<const W: usize> Planes<W> {
    /// The number 0 for all samples.
    #[inline]
    pub fn zero() -> Planes<W>
        ensures { (b : ℕ) → number result.words b ≡ 0 }
    {
        Planes { words: [0u64; W] }
    }

    /// The number of one sample, below 64.
    #[inline]
    pub fn number_at(&self, sample: u32) -> u32
        requires width { W ≤ 20 }
        requires sample { sample < 64 }
        ensures { result ≡ number self.now.words sample }
    {
        let mut total = 0u32;
        'planes: for w in 0..W {
            total += worth(bit(self.words[w], sample), w);
        }
        total
    }

    /// Changes the number of one sample, below 64, to a value below 2^W.
    #[inline]
    pub fn set_number(&mut self, sample: u32, value: u32)
        requires width { W ≤ 20 }
        requires sample { sample < 64 }
        requires value { value < 2 ^ W }
        ensures number { number self.new.words sample ≡ value }
        ensures others { (b : ℕ) → b < 64 → (b == sample) ≡ false
            → number self.new.words b ≡ number self.old.words b }
    {
        'planes: for w in 0..W {
            self.words[w] = with_bit(self.words[w], sample, bit(value as u64, w as u32));
        }
    }

    /// Writes the numbers of all samples, sample 0 first.
    pub fn to_numbers(&self, out: &mut [u32; 64])
        requires { W ≤ 20 }
        ensures { (b : ℕ) → b < 64 → slice_index out.new b ≡ number self.now.words b }
    {
        *out = [0u32; 64];
        // A plane that no sample has set is passed over: the high ones of a small lattice are none's.
        'planes: for w in 0..W {
            let word = self.words[w];
            if word != 0 {
                add_worths(out, word, w);
            }
        }
    }
}

/// Adds a plane's worth to the number of each sample that has it set. By halves of the word, since a vector
/// takes twice as many shifts of 32 bits as of 64.
#[inline]
fn add_worths(out: &mut [u32; 64], word: u64, plane: usize)
    requires plane { plane < 20 }
    requires room { (b : ℕ) → b < 64 → slice_index out.old b < 2 ^ plane }
    ensures { (b : ℕ) → b < 64
        → slice_index out.new b ≡ slice_index out.old b + 2 ^ plane * one_if (is_set word b) }
{
    let (low, high) = halves(word);
    add_half(out, 0, low, plane);
    add_half(out, 32, high, plane);
}

/// Adds a plane's worth to the numbers of 32 samples: one plane over all of them, so that several fit
/// a vector.
#[inline]
fn add_half(out: &mut [u32; 64], first: usize, half: u32, plane: usize)
    requires plane { plane < 20 }
    requires place { first ≤ 32 }
    requires room { (b : ℕ) → b < 32 → slice_index out.old (first + b) < 2 ^ plane }
    ensures added { (b : ℕ) → b < 32 → slice_index out.new (first + b)
        ≡ slice_index out.old (first + b) + 2 ^ plane * one_if (is_set half b) }
    ensures below { (b : ℕ) → b < first → slice_index out.new b ≡ slice_index out.old b }
    ensures above { (b : ℕ) → first + 32 ≤ b → slice_index out.new b ≡ slice_index out.old b }
{
    'samples: for b in 0..32usize {
        out[first + b] += worth_at(half, b, plane);
    }
}

/// What a sample's bit of half a plane counts, with no branch.
#[inline]
fn worth_at(half: u32, sample: usize, plane: usize) -> u32
    requires sample { sample < 32 }
    requires plane { plane < 20 }
    ensures { result ≡ 2 ^ plane * one_if (is_set half sample) }
{
    ((half >> sample) & 1) << plane
}

/// What a bit of a plane counts: 2^plane where it is set.
#[inline]
fn worth(set: bool, plane: usize) -> u32
    requires { plane < 20 }
    ensures { result ≡ 2 ^ plane * one_if set }
{
    if set { 1 << plane } else { 0 }
}
