//! The words that are counted and added: the same as in bench/bit_arithmetic.c.

ghost use Rattle.std.specs.Prelude.{◌≡◌, IfOk, vec_len};

use crate::words::{FIRST, next_word};
use multispin_word::Planes;
use std::alloc::{AllocError, Global};

/// Groups of six random words.
pub fn random_groups(alloc: Global, length: usize) -> Result<Vec<[u64; 6]>, AllocError>
    ensures { IfOk result (λ groups. vec_len groups ≡ length) }
{
    let mut state = FIRST;
    let mut groups = Vec::with_capacity(alloc, length)?;
    'groups: for _i in 0..length {
        let mut group = [0; 6];
        for word in group.iter_mut() {
            *word = next_word(&mut state);
        }
        groups.push(group)?;
    }
    Ok(groups)
}

/// Planes of zeros.
pub fn zeros<const W: usize>(alloc: Global, length: usize) -> Result<Vec<Planes<W>>, AllocError>
    ensures { IfOk result (λ planes. vec_len planes ≡ length) }
{
    let mut planes = Vec::with_capacity(alloc, length)?;
    'planes: for _i in 0..length {
        planes.push(Planes::zero())?;
    }
    Ok(planes)
}

/// The exclusive or of all words.
pub fn all_words<const W: usize>(planes: &[Planes<W>]) -> u64 {
    let mut all = 0;
    for one in planes {
        for w in 0..W {
            all ^= one.words[w];
        }
    }
    all
}
