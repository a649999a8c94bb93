//! The unsatisfied bonds of a replica. Each bond has one end of colour 0, so those of that colour's sites
//! are all of them.

ghost use Rattle.std.specs.Prelude.{◌≡◌, ℕ, ◌+◌, ◌*◌, ◌%◌, ◌^◌, ◌<◌, ◌≤◌, ◌==◌, length, All};
ghost use Rattle.bit_totals.specs.Counted.{unsatisfied_from};
ghost use Rattle.bit_totals.specs.RowBonds.{plane_count};
ghost use Rattle.bit_totals.specs.Tallies.{tallied};
ghost use Rattle.coupling_set.specs.CouplingWords.{bonds_of};
ghost use Rattle.multispin_word.specs.Planes.{number};
ghost use Rattle.plane_sweep.specs.Packed.{spins_of, FitsDuo, FitsPlane, FitsReplica};
ghost use Rattle.scalar_rule.specs.Sums as model;
ghost use Rattle.spin_model.specs.Lattice.{bond_count, half_plane, IsLawfulSize};

use crate::bonds::add_rows;
use crate::overlap::words_of;
use crate::tally::Tally;
use coupling_set::Couplings;
use multispin_word::Planes;
use plane_sweep::{Duo, Plane, Replica, by_size, first_row, lend, row_behind};
use scalar_rule::Plan;

/// U of each disorder sample: the number of bonds with J s s' = -1, of 3V. Takes no memory.
pub fn unsatisfied(replica: &Replica, plan: &Plan) -> Planes<20>
    requires { FitsReplica plan.now.size replica.now }
    ensures value { (b : ℕ) → b < 64 → number result.words b
        ≡ model.unsatisfied plan.now.size (bonds_of plan.now.couplings b)
        (spins_of plan.now.size b replica.now.planes) }
    ensures within { (b : ℕ) → b < 64 → number result.words b ≤ bond_count plan.now.size }
{
    count_planes(replica, plan).total()
}

/// U of each disorder sample, the number of bonds with J s s' = -1, of 3V, in each of both replicas of a
/// slot: plane by plane in turn, so that a plane's couplings are read from afar once for both. Takes no
/// memory.
pub fn unsatisfied_duo(duo: &Duo, plan: &Plan) -> (Planes<20>, Planes<20>)
    requires { FitsDuo plan.now.size duo.now }
    ensures first { (b : ℕ) → b < 64 → number result.0.words b
        ≡ model.unsatisfied plan.now.size (bonds_of plan.now.couplings b)
        (spins_of plan.now.size b duo.now.first.planes) }
    ensures second { (b : ℕ) → b < 64 → number result.1.words b
        ≡ model.unsatisfied plan.now.size (bonds_of plan.now.couplings b)
        (spins_of plan.now.size b duo.now.second.planes) }
    ensures within { (b : ℕ) → b < 64
        → (number result.0.words b ≤ bond_count plan.now.size) × (number result.1.words b ≤ bond_count plan.now.size) }
{
    let (first, second) = count_both(duo, plan);
    (first.total(), second.total())
}

// U, not yet in planes: the bonds of all sites of colour 0.
fn count_planes(replica: &Replica, plan: &Plan) -> Tally
    requires fits { FitsReplica plan.now.size replica.now }
    ensures counted { (b : ℕ) → b < 64 → tallied result.rows b
        ≡ unsatisfied_from plan.now.size (bonds_of plan.now.couplings b)
        (spins_of plan.now.size b replica.now.planes) 0 (plan.now.size * half_plane plan.now.size) }
    ensures lawful { IsLawfulSize plan.now.size }
{
    let size = plan.lattice().size();
    let mut tally = Tally::none();
    'planes: for z in 0..size {
        add_plane(&mut tally, replica, plan, z);
    }
    tally
}

fn count_both(duo: &Duo, plan: &Plan) -> (Tally, Tally)
    requires fits { FitsDuo plan.now.size duo.now }
    ensures first { (b : ℕ) → b < 64 → tallied result.0.rows b
        ≡ unsatisfied_from plan.now.size (bonds_of plan.now.couplings b)
        (spins_of plan.now.size b duo.now.first.planes) 0 (plan.now.size * half_plane plan.now.size) }
    ensures second { (b : ℕ) → b < 64 → tallied result.1.rows b
        ≡ unsatisfied_from plan.now.size (bonds_of plan.now.couplings b)
        (spins_of plan.now.size b duo.now.second.planes) 0 (plan.now.size * half_plane plan.now.size) }
    ensures lawful { IsLawfulSize plan.now.size }
{
    let size = plan.lattice().size();
    let mut first = Tally::none();
    let mut second = Tally::none();
    'planes: for z in 0..size {
        add_plane(&mut first, &duo.first, plan, z);
        add_plane(&mut second, &duo.second, plan, z);
    }
    (first, second)
}

// Adds the bonds of the sites of colour 0 in plane z to those of the planes before it.
fn add_plane(tally: &mut Tally, replica: &Replica, plan: &Plan, z: u32)
    requires fits { FitsReplica plan.now.size replica.now }
    requires plane { z < plan.now.size }
    requires counted { (b : ℕ) → b < 64 → tallied tally.old.rows b
        ≡ unsatisfied_from plan.now.size (bonds_of plan.now.couplings b)
        (spins_of plan.now.size b replica.now.planes) 0 (z * half_plane plan.now.size) }
    ensures { (b : ℕ) → b < 64 → tallied tally.new.rows b
        ≡ unsatisfied_from plan.now.size (bonds_of plan.now.couplings b)
        (spins_of plan.now.size b replica.now.planes) 0 ((z + 1) * half_plane plan.now.size) }
{
    let size = plan.lattice().size();
    let plane = ColourPlane {
        own: words_of(replica, z),
        other: &replica.planes.as_slice()[size as usize..],
        couplings: plan.couplings(),
        colour: 0,
        z,
    };
    count_plane(&mut tally.rows, &plane);
}

/// Plane z of a colour, and what the bonds of its sites depend on.
#[derive(Clone, Copy)]
pub(crate) struct ColourPlane<'a> {
    /// The words of the plane.
    pub(crate) own: &'a [u64],
    /// The planes of the other colour.
    pub(crate) other: &'a [Plane],
    pub(crate) couplings: &'a Couplings,
    pub(crate) colour: u32,
    pub(crate) z: u32,
}

// Adds to each sample's number the unsatisfied bonds of the sites of a plane.
fn count_plane(counts: &mut [[u64; 4]; 20], plane: &ColourPlane)
    requires lawful { IsLawfulSize plane.now.couplings.now.size }
    requires own { length plane.now.own.now ≡ half_plane plane.now.couplings.now.size }
    requires count { length plane.now.other.now ≡ plane.now.couplings.now.size }
    requires planes { All (FitsPlane plane.now.couplings.now.size) plane.now.other.now }
    requires colour { plane.now.colour < 2 }
    requires plane { plane.now.z < plane.now.couplings.now.size }
    requires room { (b : ℕ) → b < 64
        → tallied counts.old b + 6 * half_plane plane.now.couplings.now.size < 2 ^ 20 }
    ensures { (b : ℕ) → b < 64 → tallied counts.new b ≡ tallied counts.old b
        + plane_count plane.now.couplings.now plane.now.other.now plane.now.colour plane.now.z
        plane.now.own.now b (half_plane plane.now.couplings.now.size) }
{
    by_size!(plane.couplings.size(), count_sized(counts, plane));
}

/// What `count_plane` adds, at multiples of 8 with code for a size and for planes whose first row begins at x = 0 or at
/// x = 1: both are then known in its loops. A size of 0 stands for any.
pub(crate) fn count_sized<const SIZE: usize>(counts: &mut [[u64; 4]; 20], plane: &ColourPlane)
    requires size { 0 < SIZE → plane.now.couplings.now.size ≡ SIZE }
    requires lawful { IsLawfulSize plane.now.couplings.now.size }
    requires own { length plane.now.own.now ≡ half_plane plane.now.couplings.now.size }
    requires count { length plane.now.other.now ≡ plane.now.couplings.now.size }
    requires planes { All (FitsPlane plane.now.couplings.now.size) plane.now.other.now }
    requires colour { plane.now.colour < 2 }
    requires plane { plane.now.z < plane.now.couplings.now.size }
    requires room { (b : ℕ) → b < 64
        → tallied counts.old b + 6 * half_plane plane.now.couplings.now.size < 2 ^ 20 }
    ensures { (b : ℕ) → b < 64 → tallied counts.new b ≡ tallied counts.old b
        + plane_count plane.now.couplings.now plane.now.other.now plane.now.colour plane.now.z
        plane.now.own.now b (half_plane plane.now.couplings.now.size) }
{
    let even = (plane.colour + plane.z) % 2 == 0;
    if SIZE == 0 || SIZE % 8 != 0 {
        count_pairs::<0, false>(counts, plane, plane.couplings.size() as usize, even);
    } else if even {
        count_alike::<SIZE, true>(counts, plane);
    } else {
        count_alike::<SIZE, false>(counts, plane);
    }
}

// Not expanded where it is called, so that each size and parity stays a function.
#[inline(never)]
fn count_alike<const SIZE: usize, const EVEN: bool>(
    counts: &mut [[u64; 4]; 20],
    plane: &ColourPlane,
)
    requires size { plane.now.couplings.now.size ≡ SIZE }
    requires lawful { IsLawfulSize plane.now.couplings.now.size }
    requires even { EVEN ≡ ((plane.now.colour + plane.now.z) % 2 == 0) }
    requires own { length plane.now.own.now ≡ half_plane plane.now.couplings.now.size }
    requires count { length plane.now.other.now ≡ plane.now.couplings.now.size }
    requires planes { All (FitsPlane plane.now.couplings.now.size) plane.now.other.now }
    requires colour { plane.now.colour < 2 }
    requires plane { plane.now.z < plane.now.couplings.now.size }
    requires room { (b : ℕ) → b < 64
        → tallied counts.old b + 6 * half_plane plane.now.couplings.now.size < 2 ^ 20 }
    ensures { (b : ℕ) → b < 64 → tallied counts.new b ≡ tallied counts.old b
        + plane_count plane.now.couplings.now plane.now.other.now plane.now.colour plane.now.z
        plane.now.own.now b (half_plane plane.now.couplings.now.size) }
{
    count_pairs::<SIZE, EVEN>(counts, plane, SIZE, EVEN);
}

// The bonds of a plane, two rows at a time: an even plane's first row begins at x = 0. The code's own size and parity
// only tell its copies apart.
#[inline(always)]
fn count_pairs<const SIZE: usize, const EVEN: bool>(
    counts: &mut [[u64; 4]; 20],
    plane: &ColourPlane,
    size: usize,
    even: bool,
)
    requires size { size ≡ plane.now.couplings.now.size }
    requires lawful { IsLawfulSize plane.now.couplings.now.size }
    requires even { even ≡ ((plane.now.colour + plane.now.z) % 2 == 0) }
    requires own { length plane.now.own.now ≡ half_plane plane.now.couplings.now.size }
    requires count { length plane.now.other.now ≡ plane.now.couplings.now.size }
    requires planes { All (FitsPlane plane.now.couplings.now.size) plane.now.other.now }
    requires colour { plane.now.colour < 2 }
    requires plane { plane.now.z < plane.now.couplings.now.size }
    requires room { (b : ℕ) → b < 64
        → tallied counts.old b + 6 * half_plane plane.now.couplings.now.size < 2 ^ 20 }
    ensures { (b : ℕ) → b < 64 → tallied counts.new b ≡ tallied counts.old b
        + plane_count plane.now.couplings.now plane.now.other.now plane.now.colour plane.now.z
        plane.now.own.now b (half_plane plane.now.couplings.now.size) }
{
    let own = plane.own;
    let around = lend(plane.other, plane.couplings, plane.colour, plane.z, size);
    let words = size * (size / 2);
    let mut row = first_row(size, even);
    'pairs: for i in 0..size / 2 {
        let behind = row_behind(&row, words);
        add_rows::<SIZE, EVEN>(counts, own, &around, &row, &behind);
        row = row_behind(&behind, words);
    }
}
