//! The couplings of a file, from bits by sample to words by bond: eight bonds of 64 samples at a
//! time.

ghost use Rattle.std.specs.Prelude.{◌≡◌, ◌≢◌, ℕ, ◌+◌, ◌-◌, ◌*◌, ◌/◌, ◌%◌, ◌<◌, ◌≤◌, length, slice_index};
ghost use Rattle.coupling_set.specs.CouplingWords.{bonds_of, HasBonds};
ghost use Rattle.coupling_set.specs.CouplingsFile.{sample_bytes, file_length, samples_in, of_file, byte_at};
ghost use Rattle.coupling_set.specs.KeptWords.{kept_count, kept_on};
ghost use Rattle.spin_model.specs.Lattice.{bond_count, IsLawfulSize};
ghost use Rattle.spin_model.specs.Words.{is_set};

use crate::bond_words::write_word;
use crate::file_checks::{sample_bytes, samples_in};
use lattice_geometry::Lattice;
use multispin_word::with_bit;

/// Reads the couplings of 64 samples of a file, of which the first has this number. What the file
/// hasn't is +1.
pub(crate) fn read_samples(words: &mut [u64], lattice: &Lattice, bytes: &[u8], first: u32)
    requires sized { length words.old ≡ kept_count lattice.now }
    requires long { length bytes.now ≡ file_length lattice.now (samples_in bytes.now) }
    requires few { samples_in bytes.now ≤ 256 }
    requires first { first ≤ 192 }
    ensures { HasBonds (kept_on lattice.now words.new) (λ m. of_file lattice.now bytes.now (first + m)) }
{
    let mut column = [0u8; 64];
    read_samples_with(words, lattice, bytes, first, &mut column);
}

// Reads these samples by way of a buffer for one byte of each.
fn read_samples_with(
    words: &mut [u64],
    lattice: &Lattice,
    bytes: &[u8],
    first: u32,
    column: &mut [u8],
)
    requires sized { length words.old ≡ kept_count lattice.now }
    requires long { length bytes.now ≡ file_length lattice.now (samples_in bytes.now) }
    requires few { samples_in bytes.now ≤ 256 }
    requires first { first ≤ 192 }
    requires room { length column.old ≡ 64 }
    ensures { HasBonds (kept_on lattice.now words.new) (λ m. of_file lattice.now bytes.now (first + m)) }
{
    'bytes: for k in 0..sample_bytes(lattice.size()) {
        gather(lattice, bytes, first, k, column);
        write_column(words, lattice, k, column);
    }
}

// Byte k of each of 64 samples.
fn gather(lattice: &Lattice, bytes: &[u8], first: u32, k: u32, column: &mut [u8])
    requires long { length bytes.now ≡ file_length lattice.now (samples_in bytes.now) }
    requires few { samples_in bytes.now ≤ 256 }
    requires first { first ≤ 192 }
    requires byte { k < sample_bytes lattice.now }
    requires room { length column.old ≡ 64 }
    ensures sized { length column.new ≡ 64 }
    ensures bytes { (b : ℕ) → b < 64 → slice_index column.new b ≡ byte_at lattice.now bytes.now (first + b) k }
{
    'samples: for b in 0..64u32 {
        column[b as usize] = byte_of(lattice, bytes, first + b, k);
    }
}

// Byte k of a sample, and 0 where the file hasn't the sample.
#[tactic(auto, unfolding(crate::specs::CouplingsFile::byte_at))]
fn byte_of(lattice: &Lattice, bytes: &[u8], sample: u32, k: u32) -> u8
    requires long { length bytes.now ≡ file_length lattice.now (samples_in bytes.now) }
    requires few { samples_in bytes.now ≤ 256 }
    requires byte { k < sample_bytes lattice.now }
    ensures { result ≡ byte_at lattice.now bytes.now sample k }
{
    if sample < samples_in(bytes) {
        bytes[(16 + sample * sample_bytes(lattice.size()) + k) as usize]
    } else {
        0
    }
}

// The words of the eight bonds of a byte.
fn write_column(words: &mut [u64], lattice: &Lattice, k: u32, column: &[u8])
    requires sized { length words.old ≡ kept_count lattice.now }
    requires lawful { IsLawfulSize lattice.now }
    requires byte { k < sample_bytes lattice.now }
    requires column { length column.now ≡ 64 }
    ensures written { (b n : ℕ) → b < 64 → n < bond_count lattice.now → n / 8 ≡ k
        → bonds_of (kept_on lattice.now words.new) b n ≡ is_set (slice_index column.now b) (7 - n % 8) }
    ensures others { (b n : ℕ) → b < 64 → n < bond_count lattice.now → n / 8 ≢ k
        → bonds_of (kept_on lattice.now words.new) b n ≡ bonds_of (kept_on lattice.now words.old) b n }
{
    'bonds: for j in 0..8u32 {
        write_word(words, lattice, 8 * k + j, word_of(column, 7 - j));
    }
}

// One bit of the byte of each of 64 samples, as a word.
fn word_of(column: &[u8], place: u32) -> u64
    requires column { length column.now ≡ 64 }
    requires place { place < 8 }
    ensures { (b : ℕ) → b < 64 → is_set result b ≡ is_set (slice_index column.now b) place }
{
    let mut word = 0u64;
    'samples: for b in 0..64u32 {
        word = with_bit(word, b, (column[b as usize] >> place) & 1 == 1);
    }
    word
}
