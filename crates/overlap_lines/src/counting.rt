//! The counts of terms: over all bonds, and over all pairs of sites some steps apart.

ghost use Rattle.std.specs.Prelude.{◌≡◌, ℕ, ◌+◌, ◌*◌, ◌/◌, ◌^◌, ◌<◌, ◌≤◌, length, slice_index};
ghost use Rattle.bit_totals.specs.Tallies.{tallied};
ghost use Rattle.multispin_word.specs.Planes.{is_set, number};
ghost use Rattle.overlap_lines.specs.Counted.{line_from};
ghost use Rattle.overlap_lines.specs.Overlaps as model;
ghost use Rattle.plane_sweep.specs.Packed.{spins_of, FitsDuo, FitsReplica};
ghost use Rattle.scalar_rule.specs.Neighbours.{agree};
ghost use Rattle.spin_model.specs.Lattice.{bond_count, half_plane, volume, IsLawfulSize};

use crate::shifting::{Shift, plane_on, turn_plane};
use bit_totals::{Tally, words_of};
use lattice_geometry::Lattice;
use multispin_word::Planes;
use plane_sweep::{Duo, Replica};
use spin_model::GREATEST_HALF_PLANE;

/// In each disorder sample the number of bonds with q q' = +1, of 3V, where q is the product of the two
/// replicas' spins at a site. Takes no memory.
pub fn agreeing_bonds(duo: &Duo, lattice: Lattice) -> Planes<20>
    requires { FitsDuo lattice duo.now }
    ensures value { (b : ℕ) → b < 64 → number result.words b ≡ model.agreeing_bonds lattice
        (spins_of lattice b duo.now.first.planes) (spins_of lattice b duo.now.second.planes) }
    ensures within { (b : ℕ) → b < 64 → number result.words b ≤ bond_count lattice }
{
    agreeing_bonds_between(&duo.first, &duo.second, lattice)
}

/// What `agreeing_bonds` counts, of any two replicas.
pub fn agreeing_bonds_between(first: &Replica, second: &Replica, lattice: Lattice) -> Planes<20>
    requires first { FitsReplica lattice first.now }
    requires second { FitsReplica lattice second.now }
    ensures value { (b : ℕ) → b < 64 → number result.words b ≡ model.agreeing_bonds lattice
        (spins_of lattice b first.now.planes) (spins_of lattice b second.now.planes) }
    ensures within { (b : ℕ) → b < 64 → number result.words b ≤ bond_count lattice }
{
    // A lattice has at most 64^3 sites, so no count reaches 2^20.
    let _ = lattice.sites();
    let mut tally = Tally::none();
    add_line(&mut tally, first, second, &lattice, along(0, 1));
    add_line(&mut tally, first, second, &lattice, along(1, 1));
    add_line(&mut tally, first, second, &lattice, along(2, 1));
    tally.total()
}

/// In each disorder sample the number of sites, of V, with q q' = +1, where q is the product of the two
/// replicas' spins at the site and q' that at the site r steps on in direction d, around the boundary.
/// Directions are 0 for x, 1 for y and 2 for z; r is from 1 to half the size. Takes no memory.
pub fn agreeing_line(duo: &Duo, lattice: Lattice, d: u32, r: u32) -> Planes<20>
    requires fits { FitsDuo lattice duo.now }
    requires direction { d < 3 }
    requires some { 1 ≤ r }
    requires far { r ≤ lattice / 2 }
    ensures value { (b : ℕ) → b < 64 → number result.words b ≡ model.agreeing_line lattice
        (spins_of lattice b duo.now.first.planes) (spins_of lattice b duo.now.second.planes) d r }
    ensures within { (b : ℕ) → b < 64 → number result.words b ≤ volume lattice }
{
    // A lattice has at most 64^3 sites, so no count reaches 2^20.
    let _ = lattice.sites();
    let mut tally = Tally::none();
    add_line(&mut tally, &duo.first, &duo.second, &lattice, along(d, r));
    tally.total()
}

// So many steps in a direction.
fn along(direction: u32, distance: u32) -> Shift
    ensures direction { result.direction ≡ direction }
    ensures distance { result.distance ≡ distance }
{
    Shift {
        direction,
        distance,
    }
}

// The pairs of sites of two replicas that are so far apart.
#[derive(Clone, Copy)]
struct Pairs<'a> {
    first: &'a Replica,
    second: &'a Replica,
    lattice: &'a Lattice,
    shift: Shift,
}

// Adds the sites with q q' = +1, where q' is at the site so far on.
fn add_line(tally: &mut Tally, first: &Replica, second: &Replica, lattice: &Lattice, shift: Shift)
    requires first { FitsReplica lattice.now first.now }
    requires second { FitsReplica lattice.now second.now }
    requires direction { shift.direction < 3 }
    requires distance { shift.distance ≤ lattice.now / 2 }
    requires room { (b : ℕ) → b < 64 → tallied tally.old.rows b + volume lattice.now + 64 < 2 ^ 20 }
    ensures { (b : ℕ) → b < 64 → tallied tally.new.rows b ≡ tallied tally.old.rows b
        + model.agreeing_line lattice.now (spins_of lattice.now b first.now.planes)
        (spins_of lattice.now b second.now.planes) shift.direction shift.distance }
{
    let pairs = Pairs {
        first,
        second,
        lattice,
        shift,
    };
    let mut overlaps = [0u64; GREATEST_HALF_PLANE];
    let mut ahead = [0u64; GREATEST_HALF_PLANE];
    add_planes(tally, &pairs, &mut overlaps, &mut ahead);
}

// Adds these sites plane by plane, with buffers for the overlaps in a plane.
fn add_planes(tally: &mut Tally, pairs: &Pairs, overlaps: &mut [u64], ahead: &mut [u64])
    requires first { FitsReplica pairs.now.lattice.now pairs.now.first.now }
    requires second { FitsReplica pairs.now.lattice.now pairs.now.second.now }
    requires direction { pairs.now.shift.direction < 3 }
    requires distance { pairs.now.shift.distance ≤ pairs.now.lattice.now / 2 }
    requires overlaps { length overlaps.old ≡ GREATEST_HALF_PLANE }
    requires ahead { length ahead.old ≡ GREATEST_HALF_PLANE }
    requires room { (b : ℕ) → b < 64
        → tallied tally.old.rows b + volume pairs.now.lattice.now + 64 < 2 ^ 20 }
    ensures counted { (b : ℕ) → b < 64 → tallied tally.new.rows b ≡ tallied tally.old.rows b
        + line_from pairs.now.lattice.now (spins_of pairs.now.lattice.now b pairs.now.first.now.planes)
        (spins_of pairs.now.lattice.now b pairs.now.second.now.planes) pairs.now.shift.direction pairs.now.shift.distance
        (2 * pairs.now.lattice.now * half_plane pairs.now.lattice.now) }
    ensures lawful { IsLawfulSize pairs.now.lattice.now }
{
    let size = pairs.lattice.size();
    let half_plane = (size * (size / 2)) as usize;
    let overlaps = &mut overlaps[..half_plane];
    let ahead = &mut ahead[..half_plane];
    'planes: for q in 0..2 * size {
        add_plane(tally, pairs, q, overlaps, ahead);
    }
}

// The sites of plane q.
fn add_plane(tally: &mut Tally, pairs: &Pairs, q: u32, overlaps: &mut [u64], ahead: &mut [u64])
    requires first { FitsReplica pairs.now.lattice.now pairs.now.first.now }
    requires second { FitsReplica pairs.now.lattice.now pairs.now.second.now }
    requires direction { pairs.now.shift.direction < 3 }
    requires distance { pairs.now.shift.distance ≤ pairs.now.lattice.now / 2 }
    requires plane { q < 2 * pairs.now.lattice.now }
    requires overlaps { length overlaps.old ≡ half_plane pairs.now.lattice.now }
    requires ahead { length ahead.old ≡ half_plane pairs.now.lattice.now }
    requires room { (b : ℕ) → b < 64
        → tallied tally.old.rows b + half_plane pairs.now.lattice.now + 64 < 2 ^ 20 }
    ensures { (b : ℕ) → b < 64 → tallied tally.new.rows b
        + line_from pairs.now.lattice.now (spins_of pairs.now.lattice.now b pairs.now.first.now.planes)
        (spins_of pairs.now.lattice.now b pairs.now.second.now.planes) pairs.now.shift.direction pairs.now.shift.distance
        (q * half_plane pairs.now.lattice.now)
        ≡ tallied tally.old.rows b
        + line_from pairs.now.lattice.now (spins_of pairs.now.lattice.now b pairs.now.first.now.planes)
        (spins_of pairs.now.lattice.now b pairs.now.second.now.planes) pairs.now.shift.direction pairs.now.shift.distance
        ((q + 1) * half_plane pairs.now.lattice.now) }
{
    let size = pairs.lattice.size();
    let first = pairs.first;
    let second = pairs.second;
    let shift = pairs.shift;
    let plane = plane_on(size, q, shift);
    find_overlaps(overlaps, words_of(first, plane), words_of(second, plane));
    turn_plane(ahead, overlaps, size, q, shift);
    tally.add(words_of(first, q), words_of(second, q), ahead);
}

// The samples with q = +1 at each site of a plane.
fn find_overlaps(out: &mut [u64], first: &[u64], second: &[u64])
    requires first { length first.now ≡ length out.old }
    requires second { length second.now ≡ length out.old }
    ensures { (j b : ℕ) → j < length out.old → b < 64 → is_set (slice_index out.new j) b
        ≡ agree (is_set (slice_index first.now j) b) (is_set (slice_index second.now j) b) }
{
    'words: for j in 0..out.len() {
        out[j] = overlap(first[j], second[j]);
    }
}

// The samples in which two spins are equal.
#[inline]
fn overlap(first: u64, second: u64) -> u64
    ensures { (b : ℕ) → b < 64 → is_set result b ≡ agree (is_set first b) (is_set second b) }
{
    !first ^ second
}
