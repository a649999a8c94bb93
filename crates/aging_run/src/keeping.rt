//! The spins that are kept.

ghost use Rattle.std.specs.Prelude.{◌≡◌, ℕ, ◌<◌, length};
ghost use Rattle.aging_run.specs.Keeping.{KeepsPlane};
ghost use Rattle.bit_totals.specs.Counted.{HaveOneSize};
ghost use Rattle.plane_sweep.specs.Packed.{plane_at, spins_of, FitsReplica};
ghost use Rattle.plane_sweep.specs.Storing.{Changed};

use plain_list::Items;
use plane_sweep::{Plane, Replica};

/// Copies the spins of a replica into another of its size, whose generators and labels stay. Takes no
/// memory.
pub(crate) fn keep(kept: &mut Replica, replica: &Replica)
    requires { HaveOneSize kept.old replica.now }
    ensures spins { (l b : ℕ) → FitsReplica l replica.now
        → spins_of l b kept.new.planes ≡ spins_of l b replica.now.planes }
    ensures fits { (l : ℕ) → FitsReplica l kept.old → FitsReplica l kept.new }
{
    keep_planes(&mut kept.planes, &replica.planes);
}

fn keep_planes(kept: &mut Items<Plane>, planes: &Items<Plane>)
    requires count { length kept.old ≡ length planes.now }
    requires words { (k : ℕ) → k < length planes.now
        → length (plane_at kept.old k).words ≡ length (plane_at planes.now k).words }
    ensures { Changed (KeepsPlane planes.now) (length planes.now) kept.old kept.new }
{
    'planes: for k in 0..planes.len() {
        keep_plane(kept.at_mut(k), planes.at(k));
    }
}

fn keep_plane(kept: &mut Plane, plane: &Plane)
    requires { length kept.old.words ≡ length plane.now.words }
    ensures words { kept.new.words ≡ plane.now.words }
    ensures generator { kept.new.wheel ≡ kept.old.wheel }
{
    kept.words
        .as_mut_slice()
        .copy_from_slice(plane.words.as_slice());
}
