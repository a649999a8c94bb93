//! Four sites of a class side by side in a row: at x, x + 2, x + 4 and x + 6.

ghost use Rattle.std.specs.Prelude.{◌≡◌, ℕ, ◌+◌, ◌*◌, ◌%◌, ◌^◌, ◌<◌, ◌≤◌, [], length, slice_index, slice_index_or, slice_set};
ghost use Rattle.coupling_set.specs.CouplingWords.{bonds_of};
ghost use Rattle.potts_glass.specs.PackedColours.{colour_in};
ghost use Rattle.potts_glass.specs.Potts as model;
ghost use Rattle.potts_glass.specs.SitesBeside.{bit_in, site_in, AreBonds};
ghost use Rattle.spin_model.specs.Lattice.{volume, site_at};

use crate::surroundings::{next, plane_of, previous};
use coupling_set::Couplings;
use lattice_geometry::Lattice;
use plain_list::Items;

/// The words of the bonds of a class's sites in a plane: those that lead ahead in x, y and z, and those
/// that lead to them from behind. Each is in the order of the sites that it leaves.
#[derive(Clone, Copy)]
pub(crate) struct Bonds<'a> {
    pub ahead_x: &'a [u64],
    pub ahead_y: &'a [u64],
    pub ahead_z: &'a [u64],
    pub behind_x: &'a [u64],
    pub behind_y: &'a [u64],
    pub behind_z: &'a [u64],
}

/// The bonds of a class's sites in plane z.
pub(crate) fn lend<'a>(couplings: &'a Couplings, lattice: &Lattice, class: u32, z: u32) -> Bonds<'a>
    requires size { lattice.now ≡ couplings.now.size }
    requires class { class < 2 }
    requires plane { z < lattice.now }
    ensures { AreBonds couplings.now class z result }
{
    let other = 1 - class;
    let below = previous(lattice.size(), z);
    Bonds {
        ahead_x: plane_of(couplings, lattice, class, z, 0),
        ahead_y: plane_of(couplings, lattice, class, z, 1),
        ahead_z: plane_of(couplings, lattice, class, z, 2),
        behind_x: plane_of(couplings, lattice, other, z, 0),
        behind_y: plane_of(couplings, lattice, other, z, 1),
        behind_z: plane_of(couplings, lattice, other, below, 2),
    }
}

/// The words of the six neighbours of four sites.
#[inline(always)]
pub(crate) fn near_four(
    sites: &Items<[u64; 2]>,
    lattice: &Lattice,
    at: (u32, u32, u32),
) -> [[[u64; 4]; 2]; 6]
    requires sites { length sites.now ≡ volume lattice.now }
    requires x { at.0 + 6 < lattice.now }
    requires y { at.1 < lattice.now }
    requires z { at.2 < lattice.now }
    ensures { (i k b : ℕ) → i < 4 → k < 6 → colour_in (site_in (slice_index_or result k []) i) b
        ≡ colour_in (slice_index_or sites.now
        (model.neighbour lattice.now (site_at lattice.now (at.0 + 2 * i) at.1 at.2) k) []) b }
{
    let (x, y, z) = at;
    let size = lattice.size();
    let here = lattice.site(0, y, z) as usize;
    let first = here + x as usize;
    let ahead = here + next(size, x + 6) as usize;
    let behind = here + previous(size, x) as usize;
    let x = x as usize;
    [
        words_of(sites, &[first + 1, first + 3, first + 5, ahead]),
        words_from(sites, lattice.site(0, next(size, y), z) as usize + x),
        words_from(sites, lattice.site(0, y, next(size, z)) as usize + x),
        words_of(sites, &[behind, first + 1, first + 3, first + 5]),
        words_from(sites, lattice.site(0, previous(size, y), z) as usize + x),
        words_from(sites, lattice.site(0, y, previous(size, z)) as usize + x),
    ]
}

/// The words of every second site, four from a place on.
#[inline(always)]
pub(crate) fn words_from(sites: &Items<[u64; 2]>, first: usize) -> [[u64; 4]; 2]
    requires few { first < 2 ^ 62 }
    requires within { first + 6 < length sites.now }
    ensures { (i b : ℕ) → i < 4 → colour_in (site_in result i) b
        ≡ colour_in (slice_index_or sites.now (first + 2 * i) []) b }
{
    words_of(sites, &[first, first + 2, first + 4, first + 6])
}

/// The words of four sites.
#[inline(always)]
fn words_of(sites: &Items<[u64; 2]>, at: &[usize; 4]) -> [[u64; 4]; 2]
    requires { (i : ℕ) → i < 4 → slice_index at.now i < length sites.now }
    ensures { (i b : ℕ) → i < 4 → colour_in (site_in result i) b
        ≡ colour_in (slice_index_or sites.now (slice_index at.now i) []) b }
{
    let (a, b) = (*sites.at(at[0]), *sites.at(at[1]));
    let (c, d) = (*sites.at(at[2]), *sites.at(at[3]));
    [[a[0], b[0], c[0], d[0]], [a[1], b[1], c[1], d[1]]]
}

/// The words of the six bonds of four sites.
#[inline(always)]
pub(crate) fn negative_four(
    bonds: &Bonds,
    couplings: &Couplings,
    class: u32,
    at: (u32, u32, u32),
) -> [[u64; 4]; 6]
    requires bonds { AreBonds couplings.now class at.2 bonds.now }
    requires class { (at.0 + at.1 + at.2) % 2 ≡ class }
    requires x { at.0 + 6 < couplings.now.size }
    requires y { at.1 < couplings.now.size }
    requires z { at.2 < couplings.now.size }
    ensures { (i k b : ℕ) → i < 4 → k < 6 → bit_in result k i b
        ≡ bonds_of couplings.now b
        (model.joint couplings.now.size (site_at couplings.now.size (at.0 + 2 * i) at.1 at.2) k) }
{
    let (x, y, _) = at;
    let size = couplings.size();
    let half = size / 2;
    let row = (y * half) as usize;
    let place = row + (x / 2) as usize;
    let back = row + ((x + 1) / 2) as usize;
    let first = row + (previous(size, x) / 2) as usize;
    let down = (previous(size, y) * half + x / 2) as usize;
    let behind = bonds.behind_x;
    [
        four_from(bonds.ahead_x, place),
        four_from(bonds.ahead_y, place),
        four_from(bonds.ahead_z, place),
        [
            behind[first],
            behind[back],
            behind[back + 1],
            behind[back + 2],
        ],
        four_from(bonds.behind_y, down),
        four_from(bonds.behind_z, place),
    ]
}

/// Four words from a place on.
#[inline(always)]
fn four_from(words: &[u64], at: usize) -> [u64; 4]
    requires { at + 4 ≤ length words.now }
    ensures { (i : ℕ) → i < 4 → slice_index result i ≡ slice_index words.now (at + i) }
{
    [words[at], words[at + 1], words[at + 2], words[at + 3]]
}

/// The first and the second draws of four sites, two draws a site from a place on.
#[inline(always)]
pub(crate) fn four_draws(draws: &[u32], at: usize) -> [[u32; 4]; 2]
    requires { at + 8 ≤ length draws.now }
    ensures { (i m : ℕ) → i < 4 → m < 2 → slice_index (slice_index_or result m []) i
        ≡ slice_index draws.now (at + 2 * i + m) }
{
    [
        [draws[at], draws[at + 2], draws[at + 4], draws[at + 6]],
        [draws[at + 1], draws[at + 3], draws[at + 5], draws[at + 7]],
    ]
}

/// Writes the words of every second site, four from a place on.
#[inline(always)]
pub(crate) fn put_from(sites: &mut Items<[u64; 2]>, first: usize, new: &[[u64; 4]; 2])
    requires few { first < 2 ^ 62 }
    requires within { first + 6 < length sites.old }
    ensures { sites.new ≡ slice_set (slice_set (slice_set (slice_set sites.old
        first (site_in new.now 0))
        (first + 2) (site_in new.now 1))
        (first + 4) (site_in new.now 2))
        (first + 6) (site_in new.now 3) }
{
    *sites.at_mut(first) = [new[0][0], new[1][0]];
    *sites.at_mut(first + 2) = [new[0][1], new[1][1]];
    *sites.at_mut(first + 4) = [new[0][2], new[1][2]];
    *sites.at_mut(first + 6) = [new[0][3], new[1][3]];
}
