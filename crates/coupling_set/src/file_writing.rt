//! The bytes of a couplings file, from words by bond to bits by sample: eight bonds of all samples
//! at a time.

ghost use Rattle.std.specs.Prelude.{◌≡◌, ◌≢◌, ℕ, ◌+◌, ◌-◌, ◌*◌, ◌<◌, ◌≤◌, length, slice_index, IfOk};
ghost use Rattle.coupling_set.specs.BondsAsWords.{word_of};
ghost use Rattle.coupling_set.specs.CouplingWords.{bonds_of};
ghost use Rattle.coupling_set.specs.CouplingsFile.{sample_bytes, coupling_bytes, file_with};
ghost use Rattle.spin_model.specs.Words.{is_set, one_if};

use crate::couplings::Couplings;
use crate::file_checks::{MAGIC, sample_bytes};
use glass_edges::NoMemory;
use sha2::{Digest, Sha256};
use std::alloc::Global;

/// A file of this side and number of samples, whose couplings are these bytes.
pub(crate) fn file_of(
    alloc: Global,
    size: u32,
    samples: u32,
    stored: &[u8],
) -> Result<Vec<u8>, NoMemory>
    ensures { IfOk result (λ bytes. bytes.items ≡ file_with size samples stored.now) }
{
    let mut bytes = Vec::new(alloc);
    bytes.extend_from_slice(MAGIC.as_slice())?;
    bytes.extend_from_slice(size.to_be_bytes().as_slice())?;
    bytes.extend_from_slice(samples.to_be_bytes().as_slice())?;
    bytes.extend_from_slice(stored)?;
    let digest = Sha256::digest(bytes.as_slice());
    bytes.extend_from_slice(digest.as_slice())?;
    Ok(bytes)
}

/// The couplings of the first samples, 1 to 64, in the order of a file.
pub(crate) fn samples_of(
    alloc: Global,
    couplings: &Couplings,
    samples: u32,
) -> Result<Vec<u8>, NoMemory>
    requires few { samples ≤ 64 }
    ensures { IfOk result (λ bytes. bytes.items
        ≡ coupling_bytes couplings.now.size samples (bonds_of couplings.now)) }
{
    let mut bytes = vec![in alloc; 0u8; (samples * sample_bytes(couplings.size())) as usize]?;
    let mut words = [0u64; 8];
    write_samples(bytes.as_mut_slice(), couplings, samples, &mut words);
    Ok(bytes)
}

// Writes the samples by way of a buffer for the words of the eight bonds of a byte.
fn write_samples(bytes: &mut [u8], couplings: &Couplings, samples: u32, words: &mut [u64])
    requires few { samples ≤ 64 }
    requires sized { length bytes.old ≡ samples * sample_bytes couplings.now.size }
    requires room { length words.old ≡ 8 }
    ensures { bytes.new ≡ coupling_bytes couplings.now.size samples (bonds_of couplings.now) }
{
    let stride = sample_bytes(couplings.size());
    'bytes: for k in 0..stride {
        gather(couplings, k, words);
        write_column(bytes, stride, k, samples, words);
    }
}

// The words of the eight bonds of a byte.
fn gather(couplings: &Couplings, k: u32, words: &mut [u64])
    requires byte { k < sample_bytes couplings.now.size }
    requires room { length words.old ≡ 8 }
    ensures sized { length words.new ≡ 8 }
    ensures words { (j b : ℕ) → j < 8
        → is_set (slice_index words.new j) b ≡ bonds_of couplings.now b (8 * k + j) }
{
    let _ = couplings.size();
    'bonds: for j in 0..8u32 {
        let bond = 8 * k + j;
        words[j as usize] = couplings.negative(bond / 3, bond % 3);
    }
}

// Byte k of each sample.
fn write_column(bytes: &mut [u8], stride: u32, k: u32, samples: u32, words: &[u64])
    requires few { samples ≤ 64 }
    requires stride { stride ≤ 98304 }
    requires byte { k < stride }
    requires sized { length bytes.old ≡ samples * stride }
    requires words { length words.now ≡ 8 }
    ensures written { (b : ℕ) → b < samples → slice_index bytes.new (b * stride + k)
        ≡ word_of (λ i. is_set (slice_index words.now (7 - i)) b) 8 }
    ensures others { (b j : ℕ) → b < samples → j < stride → j ≢ k
        → slice_index bytes.new (b * stride + j) ≡ slice_index bytes.old (b * stride + j) }
{
    'samples: for b in 0..samples {
        bytes[(b * stride + k) as usize] = byte_of(words, b);
    }
}

// The byte of one sample: the bit of the first word is the highest.
#[tactic(auto, unfolding(crate::specs::BondsAsWords::word_of))]
fn byte_of(words: &[u64], sample: u32) -> u8
    requires words { length words.now ≡ 8 }
    requires sample { sample < 64 }
    ensures { result ≡ word_of (λ i. is_set (slice_index words.now (7 - i)) sample) 8 }
{
    worth(words[0], sample, 128)
        + worth(words[1], sample, 64)
        + worth(words[2], sample, 32)
        + worth(words[3], sample, 16)
        + worth(words[4], sample, 8)
        + worth(words[5], sample, 4)
        + worth(words[6], sample, 2)
        + worth(words[7], sample, 1)
}

// A value where a sample's bit of a word is set, else 0.
fn worth(word: u64, sample: u32, value: u8) -> u8
    requires { sample < 64 }
    ensures value { result ≡ one_if (is_set word sample) * value }
    ensures most { result ≤ value }
{
    if (word >> sample) & 1 == 1 { value } else { 0 }
}
