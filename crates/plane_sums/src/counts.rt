//! Numbers of 64 samples at up to 128 places side by side, in planes.

ghost use Rattle.std.specs.Prelude.{◌≡◌, ℕ, ◌+◌, ◌*◌, ◌%◌, ◌^◌, ◌<◌, ◌≤◌, ◌==◌, false, slice_index};
ghost use Rattle.std.specs.Int.{bit_at};
ghost use Rattle.multispin_word.specs.Planes.{number};
ghost use Rattle.plane_sums.specs.Counts.{count_at};

use bit_compare::full_adder;
use multispin_word::Planes;

/// A number of each sample, below 2^W, at each of 128 places: word k of plane w has bit w of the numbers
/// at place k.
#[derive(Drop)]
pub(crate) struct Counts<const W: usize> {
    pub planes: [[u64; 128]; W],
}

impl<const W: usize> Counts<W> {
    /// Adds two words at each of the first places, the second of which are used up. No sum may reach
    /// 2^width, and no plane from there on is touched.
    pub fn add_words<const M: usize>(
        &mut self,
        words: &[u64; M],
        more: &mut [u64; 64],
        places: usize,
        width: usize,
    )
        requires width { (1 ≤ width) × (width ≤ W) }
        requires places { places ≤ 64 }
        requires words { places ≤ M }
        requires room { (k b : ℕ) → k < places → b < 64 → count_at self.old.planes k b + 2 < 2 ^ width }
        ensures { (k b : ℕ) → k < places → b < 64 → count_at self.new.planes k b
            ≡ count_at self.old.planes k b + bit_at (slice_index words.now k) b
            + bit_at (slice_index more.old k) b }
    {
        add_plane(&mut self.planes[0], words, 0, more, places);
        self.carry_up(1, width, more, places);
    }

    /// Adds to the numbers at the first places those at as many places from one on. No sum may reach
    /// 2^width.
    pub fn add_counts<const V: usize>(
        &mut self,
        other: &Counts<V>,
        from: usize,
        places: usize,
        width: usize,
    )
        requires width { (V ≤ width) × (width ≤ W) }
        requires places { places ≤ 64 }
        requires from { from + places ≤ 128 }
        requires room { (k b : ℕ) → k < places → b < 64
            → count_at self.old.planes k b + count_at other.now.planes (from + k) b < 2 ^ width }
        ensures { (k b : ℕ) → k < places → b < 64 → count_at self.new.planes k b
            ≡ count_at self.old.planes k b + count_at other.now.planes (from + k) b }
    {
        let mut carry = no_carry();
        'planes: for w in 0..V {
            add_plane(
                &mut self.planes[w],
                &other.planes[w],
                from,
                &mut carry,
                places,
            );
        }
        self.carry_up(V, width, &mut carry, places);
    }

    /// Adds a word at each of the first places to plane w, the carries rippling upwards.
    fn carry_up(&mut self, from: usize, width: usize, carry: &mut [u64; 64], places: usize)
        requires width { (from ≤ width) × (width ≤ W) }
        requires places { places ≤ 64 }
        ensures { (k b : ℕ) → k < places → count_at self.new.planes k b + 2 ^ width * bit_at (slice_index carry.new k) b
            ≡ count_at self.old.planes k b + 2 ^ from * bit_at (slice_index carry.old k) b }
    {
        'planes: for w in from..width {
            add_carry(&mut self.planes[w], carry, places);
        }
    }

    /// The numbers at a place.
    pub fn number(&self, place: usize) -> Planes<W>
        requires { place < 128 }
        ensures value { (b : ℕ) → number result.words b ≡ count_at self.now.planes place b }
        ensures small { (b : ℕ) → number result.words b < 2 ^ W }
    {
        let mut words = [0u64; W];
        'planes: for w in 0..W {
            words[w] = self.planes[w][place];
        }
        Planes { words }
    }

    /// Writes the numbers at a place; the others stay.
    pub fn put(&mut self, place: usize, numbers: &[u64; W])
        requires { place < 128 }
        ensures own { (b : ℕ) → count_at self.new.planes place b ≡ number numbers.now b }
        ensures others { (k b : ℕ) → (k == place) ≡ false
            → count_at self.new.planes k b ≡ count_at self.old.planes k b }
    {
        'planes: for w in 0..W {
            put_word(&mut self.planes[w], place, numbers[w]);
        }
    }

    /// Makes the numbers at the first places 0.
    pub fn clear(&mut self, places: usize)
        requires { places ≤ 128 }
        ensures { (k b : ℕ) → k < places → count_at self.new.planes k b ≡ 0 }
    {
        'planes: for w in 0..W {
            clear_plane(&mut self.planes[w], places);
        }
    }

    /// Writes the numbers at the first places once more, behind them.
    pub fn double(&mut self, places: usize)
        requires places { places ≤ 64 }
        ensures { (k b : ℕ) → k < 2 * places → count_at self.new.planes k b ≡ count_at self.old.planes (k % places) b }
    {
        'planes: for w in 0..W {
            double_plane(&mut self.planes[w], places);
        }
    }
}

// Of three words at each place the low bit of the sum stays, and the high bit is carried.
#[inline]
fn add_plane<const M: usize>(
    own: &mut [u64; 128],
    other: &[u64; M],
    from: usize,
    carry: &mut [u64; 64],
    places: usize,
)
    requires places { places ≤ 64 }
    requires from { from + places ≤ M }
    ensures { (k b : ℕ) → k < places
        → bit_at (slice_index own.new k) b + 2 * bit_at (slice_index carry.new k) b
        ≡ bit_at (slice_index own.old k) b + bit_at (slice_index other.now (from + k)) b
        + bit_at (slice_index carry.old k) b }
{
    'places: for k in 0..places {
        let (low, high) = full_adder(own[k], other[from + k], carry[k]);
        own[k] = low;
        carry[k] = high;
    }
}

// Adds the carry alone at each place.
#[inline]
fn add_carry(own: &mut [u64; 128], carry: &mut [u64; 64], places: usize)
    requires { places ≤ 64 }
    ensures { (k b : ℕ) → k < places
        → bit_at (slice_index own.new k) b + 2 * bit_at (slice_index carry.new k) b
        ≡ bit_at (slice_index own.old k) b + bit_at (slice_index carry.old k) b }
{
    'places: for k in 0..places {
        let (low, high) = half_adder(own[k], carry[k]);
        own[k] = low;
        carry[k] = high;
    }
}

#[inline(always)]
fn half_adder(a: u64, b: u64) -> (u64, u64)
    ensures { (k : ℕ) → bit_at result.0 k + 2 * bit_at result.1 k ≡ bit_at a k + bit_at b k }
{
    full_adder(a, b, 0)
}

#[inline(always)]
fn no_carry() -> [u64; 64]
    ensures { (k b : ℕ) → bit_at (slice_index result k) b ≡ 0 }
{
    [0u64; 64]
}

#[inline]
fn put_word(own: &mut [u64; 128], place: usize, word: u64)
    requires { place < 128 }
    ensures own { slice_index own.new place ≡ word }
    ensures others { (k : ℕ) → (k == place) ≡ false → slice_index own.new k ≡ slice_index own.old k }
{
    own[place] = word;
}

#[inline]
fn clear_plane(own: &mut [u64; 128], places: usize)
    requires { places ≤ 128 }
    ensures { (k : ℕ) → k < places → slice_index own.new k ≡ 0 }
{
    'places: for k in 0..places {
        own[k] = 0;
    }
}

#[inline]
fn double_plane(own: &mut [u64; 128], places: usize)
    requires { places ≤ 64 }
    ensures first { (k : ℕ) → k < places → slice_index own.new k ≡ slice_index own.old k }
    ensures second { (k : ℕ) → k < places → slice_index own.new (places + k) ≡ slice_index own.old k }
{
    'places: for k in 0..places {
        own[places + k] = own[k];
    }
}

/// In how many planes a count along a line fits.
pub(crate) fn line_width(size: usize) -> usize
    requires { size ≤ 64 }
    ensures fits { size < 2 ^ result }
    ensures some { 1 ≤ result }
    ensures most { result ≤ 7 }
{
    if size < 16 {
        4
    } else if size < 32 {
        5
    } else if size < 64 {
        6
    } else {
        7
    }
}

/// In how many planes a count over a plane of sites fits, and a count along a line.
pub(crate) fn plane_width(sites: usize) -> usize
    requires { sites ≤ 4096 }
    ensures fits { sites < 2 ^ result }
    ensures some { 7 ≤ result }
    ensures most { result ≤ 13 }
{
    if sites < 128 {
        7
    } else if sites < 512 {
        9
    } else if sites < 2048 {
        11
    } else {
        13
    }
}
