//! One bit of each of 64 samples in a word.

ghost use Rattle.std.specs.Prelude.{◌≡◌, ℕ, ◌+◌, ◌/◌, ◌%◌, ◌<◌, ◌==◌, nat_lt, if◌then◌else◌, [], ◌∷◌, slice_index};
ghost use Rattle.multispin_word.specs.Planes.{is_set};

/// The bit of one sample, below 64.
#[inline]
pub fn bit(word: u64, sample: u32) -> bool
    requires { sample < 64 }
    ensures { result ≡ is_set word sample }
{
    (word >> sample) & 1 == 1
}

/// The word with the bit of one sample set to a value.
#[inline]
pub fn with_bit(word: u64, sample: u32, value: bool) -> u64
    requires { sample < 64 }
    ensures { (b : ℕ) → b < 64 → is_set result b ≡ (if b == sample then value else is_set word b) }
{
    choose(only(sample), broadcast(value), word)
}

/// One value for all samples.
#[inline]
pub fn broadcast(value: bool) -> u64
    ensures { (b : ℕ) → b < 64 → is_set result b ≡ value }
{
    if value { u64::MAX } else { 0 }
}

/// All samples where the draw is below the threshold, else none.
#[inline]
pub fn below(draw: u32, threshold: u64) -> u64
    ensures { (b : ℕ) → b < 64 → is_set result b ≡ nat_lt draw threshold }
{
    broadcast((draw as u64) < threshold)
}

/// The word of 64 bits with these low and high halves.
#[inline]
pub fn joined(low: u32, high: u32) -> u64
    ensures { (b : ℕ) → b < 64
        → is_set result b ≡ is_set (slice_index (low ∷ high ∷ []) (b / 32)) (b % 32) }
{
    ((high as u64) << 32) + low as u64
}

/// The low and the high half of a word.
#[inline]
pub(crate) fn halves(word: u64) -> (u32, u32)
    ensures low { (b : ℕ) → b < 32 → is_set result.0 b ≡ is_set word b }
    ensures high { (b : ℕ) → b < 32 → is_set result.1 b ≡ is_set word (32 + b) }
{
    ((word % (1 << 32)) as u32, (word >> 32) as u32)
}

/// Swaps the bits of the samples in the mask, and keeps the others.
#[inline]
pub fn swap_masked(a: &mut u64, b: &mut u64, mask: u64)
    ensures first { (k : ℕ) → k < 64
        → is_set a.new k ≡ (if is_set mask k then is_set b.old k else is_set a.old k) }
    ensures second { (k : ℕ) → k < 64
        → is_set b.new k ≡ (if is_set mask k then is_set a.old k else is_set b.old k) }
{
    let (x, y) = (*a, *b);
    *a = choose(mask, y, x);
    *b = choose(mask, x, y);
}

/// The bits of `inside` for the samples in the mask, and those of `outside` for the others.
#[inline]
pub fn choose(mask: u64, inside: u64, outside: u64) -> u64
    ensures { (b : ℕ) → b < 64
        → is_set result b ≡ (if is_set mask b then is_set inside b else is_set outside b) }
{
    outside ^ (mask & (inside ^ outside))
}

/// The word in which one sample alone is set.
#[inline]
pub fn only(sample: u32) -> u64
    requires { sample < 64 }
    ensures { (b : ℕ) → is_set result b ≡ (b == sample) }
{
    1u64 << sample
}
