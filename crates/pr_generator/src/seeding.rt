//! The words of a labelled generator, by SHA-256 of the seed and the label.

ghost use Rattle.std.specs.Prelude.{◌≡◌, length, take, flat_map};
ghost use Rattle.sha2.specs.Sha256.{sha256};
ghost use Rattle.spin_model.specs.Seeding.{block_message, digest_words, seeded};
ghost use Rattle.spin_model.specs.Steps.{table};

use crate::hashing::{add_u32, add_u64};
use sha2::{Digest, Sha256};

/// The 61 words that the generator with this seed and label begins with.
#[tactic(auto, unfolding(spin_model::specs::Seeding::seeded))]
pub fn seed_words(seed: u64, kind: u32, a: u32, b: u32, c: u32) -> [u32; 61]
    ensures { result ≡ seeded seed kind a b c }
{
    let mut words = [0u32; 64];
    fill_blocks(&mut words, seed, kind, a, b, c);
    first_61(&words)
}

// The words of the eight blocks, of which the last three are not used.
fn fill_blocks(words: &mut [u32], seed: u64, kind: u32, a: u32, b: u32, c: u32)
    requires { length words.old ≡ 64 }
    ensures { words.new ≡ flat_map
        (λ j. digest_words (sha256 (block_message seed kind a b c j)))
        (table (λ j. j) 8) }
{
    'digests: for j in 0..8 {
        let block = words_of_digest(&block_digest(seed, kind, a, b, c, j as u32));
        words[8 * j..8 * j + 8].copy_from_slice(&block);
    }
}

// The digest of block j.
#[tactic(auto, unfolding(spin_model::specs::Seeding::block_message))]
fn block_digest(seed: u64, kind: u32, a: u32, b: u32, c: u32, j: u32) -> [u8; 32]
    ensures { result ≡ sha256 (block_message seed kind a b c j) }
{
    let mut hasher = Sha256::new();
    add_u64(&mut hasher, seed);
    add_u32(&mut hasher, kind);
    add_u32(&mut hasher, a);
    add_u32(&mut hasher, b);
    add_u32(&mut hasher, c);
    add_u32(&mut hasher, j);
    hasher.finalize()
}

// The eight big-endian words of a digest.
fn words_of_digest(digest: &[u8; 32]) -> [u32; 8]
    ensures { result ≡ digest_words digest.now }
{
    let mut words = [0u32; 8];
    'words: for n in 0..8 {
        words[n] = u32::from_be_bytes([
            digest[4 * n],
            digest[4 * n + 1],
            digest[4 * n + 2],
            digest[4 * n + 3],
        ]);
    }
    words
}

fn first_61(words: &[u32; 64]) -> [u32; 61]
    ensures { result ≡ take 61 words.now }
{
    let mut first = [0u32; 61];
    first.copy_from_slice(&words[..61]);
    first
}
