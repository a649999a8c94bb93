//! The agreeing sites of two replicas.

ghost use Rattle.std.specs.Prelude.{◌≡◌, ℕ, ◌-◌, ◌*◌, ◌^◌, ◌<◌, ◌≤◌, length, slice_index};
ghost use Rattle.bit_totals.specs.Counted.{agreeing_from, HaveOneSize};
ghost use Rattle.bit_totals.specs.Tallies.{tallied};
ghost use Rattle.multispin_word.specs.Planes.{number};
ghost use Rattle.plane_sweep.specs.Packed.{plane_at, spins_of, FitsReplica};
ghost use Rattle.scalar_rule.specs.Sums as model;
ghost use Rattle.spin_model.specs.Lattice.{half_plane, volume};

use crate::tally::Tally;
use multispin_word::Planes;
use plane_sweep::Replica;
use spin_model::GREATEST_HALF_PLANE;

/// Q of each disorder sample: at how many of V sites two replicas of one size from 4 to 64 agree.
/// Takes no memory.
pub fn agreeing(a: &Replica, b: &Replica) -> Planes<20>
    requires { HaveOneSize a.now b.now }
    ensures value { (l s : ℕ) → FitsReplica l a.now → s < 64 → number result.words s
        ≡ model.agreeing l (spins_of l s a.now.planes) (spins_of l s b.now.planes) }
    ensures within { (l s : ℕ) → FitsReplica l a.now → s < 64 → number result.words s ≤ volume l }
{
    count_planes(a, b).total()
}

// Q, not yet in planes. The words of ones are written at each call, so a small lattice takes
// fewer of them.
fn count_planes(a: &Replica, b: &Replica) -> Tally
    requires { HaveOneSize a.now b.now }
    ensures { (l s : ℕ) → FitsReplica l a.now → s < 64 → tallied result.rows s
        ≡ agreeing_from l (spins_of l s a.now.planes) (spins_of l s b.now.planes) (2 * l * half_plane l) }
{
    if a.planes.len() <= 32 {
        count_by(a, b, &[u64::MAX; 128])
    } else {
        count_by(a, b, &[u64::MAX; GREATEST_HALF_PLANE])
    }
}

// Plane by plane, with words of ones.
fn count_by(a: &Replica, b: &Replica, ones: &[u64]) -> Tally
    requires size { HaveOneSize a.now b.now }
    requires room { (l : ℕ) → FitsReplica l a.now → half_plane l ≤ length ones.now }
    requires ones { (j : ℕ) → j < length ones.now → slice_index ones.now j ≡ 2 ^ 64 - 1 }
    ensures { (l s : ℕ) → FitsReplica l a.now → s < 64 → tallied result.rows s
        ≡ agreeing_from l (spins_of l s a.now.planes) (spins_of l s b.now.planes) (2 * l * half_plane l) }
{
    let mut tally = Tally::none();
    'planes: for q in 0..a.planes.len() as u32 {
        let own = words_of(a, q);
        tally.add(&ones[..own.len()], own, words_of(b, q));
    }
    tally
}

/// The words of one plane of a replica, a word for each of its sites, in order of y, then x. The planes
/// of colour 0 come first, then those of colour 1.
#[inline]
pub fn words_of(replica: &Replica, plane: u32) -> &[u64]
    requires { plane < length replica.now.planes }
    ensures { result.now ≡ (plane_at replica.now.planes plane).words }
{
    replica.planes.at(plane as usize).words.as_slice()
}
