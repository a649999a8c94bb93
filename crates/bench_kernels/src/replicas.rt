//! The replicas that are summed, of the same words as in bench/totals.c.

ghost use Rattle.std.specs.Prelude.{◌≡◌, length, IfOk, vec_len};
ghost use Rattle.plane_sweep.specs.Packed.{FitsPlane, FitsReplica};
ghost use Rattle.spin_model.specs.Lattice.{volume, half_plane};

use crate::words::next_word;
use anyhow::Result;
use lattice_geometry::Lattice;
use plain_list::Items;
use plane_sweep::{Plane, Replica};
use pr_generator::Wheel;
use std::alloc::Global;

/// The next words of the generator.
pub fn random_words(alloc: Global, lattice: &Lattice, state: &mut u64) -> Result<Vec<u64>>
    ensures { IfOk result (λ words. vec_len words ≡ volume lattice.now) }
{
    let mut words = Vec::new(alloc);
    'words: for _ in 0..lattice.sites() {
        words.push(next_word(state))?;
    }
    Ok(words)
}

/// A replica with these words, those of the sites in compact order.
pub fn replica_of(alloc: Global, lattice: &Lattice, words: &[u64]) -> Result<Replica>
    requires { length words.now ≡ volume lattice.now }
    ensures { IfOk result (λ replica. FitsReplica lattice.now replica) }
{
    let size = lattice.size() as usize;
    let half_plane = size * (size / 2);
    let mut planes = Vec::new(alloc);
    'planes: for q in 0..2 * size {
        planes.push(plane_of(
            alloc,
            lattice,
            &words[q * half_plane..q * half_plane + half_plane],
        )?)?;
    }
    Ok(Replica {
        planes: Items::of(planes),
        labels: [0; 64],
    })
}

fn plane_of(alloc: Global, lattice: &Lattice, words: &[u64]) -> Result<Plane>
    requires { length words.now ≡ half_plane lattice.now }
    ensures { IfOk result (λ plane. FitsPlane lattice.now plane) }
{
    Ok(Plane {
        words: Items::of(Vec::from_slice(alloc, words)?),
        wheel: Wheel::from_words(&[0; 61]),
    })
}
