//! What a site sees: the words of its six neighbours, and those of the six bonds. The site is given
//! by its coordinates, so that no site's number has to be divided.

ghost use Rattle.std.specs.Prelude.{◌≡◌, ℕ, ◌+◌, ◌-◌, ◌*◌, ◌/◌, ◌%◌, ◌<◌, ◌≤◌, [], length, slice_index, slice_index_or};
ghost use Rattle.spin_model.specs.Lattice.{volume, site_at, z_of, colour as class_of, place_in_plane, half_plane, next as next_of, previous as previous_of};
ghost use Rattle.spin_model.specs.Words.{is_set};
ghost use Rattle.coupling_set.specs.CouplingWords.{bond_word, bonds_of};
ghost use Rattle.potts_glass.specs.Potts as model;
ghost use Rattle.potts_glass.specs.SitesBeside.{HoldsPlane};

use coupling_set::Couplings;
use lattice_geometry::Lattice;
use plain_list::Items;

/// The words of the six neighbours.
#[inline]
pub(crate) fn near(sites: &Items<[u64; 2]>, lattice: &Lattice, at: (u32, u32, u32)) -> [[u64; 2]; 6]
    requires sites { length sites.now ≡ volume lattice.now }
    requires x { at.0 < lattice.now }
    requires y { at.1 < lattice.now }
    requires z { at.2 < lattice.now }
    ensures near { (k : ℕ) → k < 6 → slice_index_or result k []
        ≡ slice_index_or sites.now
        (model.neighbour lattice.now (site_at lattice.now at.0 at.1 at.2) k) [] }
    ensures within { (k : ℕ) → k < 6
        → model.neighbour lattice.now (site_at lattice.now at.0 at.1 at.2) k < volume lattice.now }
{
    let (x, y, z) = at;
    let size = lattice.size();
    [
        *sites.at(lattice.site(next(size, x), y, z) as usize),
        *sites.at(lattice.site(x, next(size, y), z) as usize),
        *sites.at(lattice.site(x, y, next(size, z)) as usize),
        *sites.at(lattice.site(previous(size, x), y, z) as usize),
        *sites.at(lattice.site(x, previous(size, y), z) as usize),
        *sites.at(lattice.site(x, y, previous(size, z)) as usize),
    ]
}

/// The words of the six bonds: the site's own, and those that lead to it from the other class.
#[inline]
pub(crate) fn negative(couplings: &Couplings, lattice: &Lattice, at: (u32, u32, u32)) -> [u64; 6]
    requires size { lattice.now ≡ couplings.now.size }
    requires x { at.0 < lattice.now }
    requires y { at.1 < lattice.now }
    requires z { at.2 < lattice.now }
    ensures { (b k : ℕ) → k < 6 → is_set (slice_index result k) b
        ≡ bonds_of couplings.now b
        (model.joint lattice.now (site_at lattice.now at.0 at.1 at.2) k) }
{
    let (x, y, z) = at;
    let size = lattice.size();
    let half = size / 2;
    let place = y * half + x / 2;
    let behind_x = y * half + previous(size, x) / 2;
    let behind_y = previous(size, y) * half + x / 2;
    let class = (x + y + z) % 2;
    let other = 1 - class;
    [
        word_in_plane(couplings, lattice, class, z, 0, place),
        word_in_plane(couplings, lattice, class, z, 1, place),
        word_in_plane(couplings, lattice, class, z, 2, place),
        word_in_plane(couplings, lattice, other, z, 0, behind_x),
        word_in_plane(couplings, lattice, other, z, 1, behind_y),
        word_in_plane(couplings, lattice, other, previous(size, z), 2, place),
    ]
}

// The word of the bond from a site in direction d, by the place of the site among those of its
// class in its plane.
#[inline]
fn word_in_plane(
    couplings: &Couplings,
    lattice: &Lattice,
    class: u32,
    z: u32,
    d: u32,
    place: u32,
) -> u64
    requires size { lattice.now ≡ couplings.now.size }
    requires class { class < 2 }
    requires plane { z < lattice.now }
    requires direction { d < 3 }
    requires place { place < half_plane lattice.now }
    ensures { (j : ℕ) → j < volume lattice.now → class_of lattice.now j ≡ class
        → z_of lattice.now j ≡ z → place_in_plane lattice.now j ≡ place
        → result ≡ bond_word couplings.now j d }
{
    plane_of(couplings, lattice, class, z, d)[place as usize]
}

/// The words of the bonds in direction d from the sites of a class in plane z, in their order.
#[inline]
pub(crate) fn plane_of<'a>(
    couplings: &'a Couplings,
    lattice: &Lattice,
    class: u32,
    z: u32,
    d: u32,
) -> &'a [u64]
    requires size { lattice.now ≡ couplings.now.size }
    requires class { class < 2 }
    requires plane { z < lattice.now }
    requires direction { d < 3 }
    ensures { HoldsPlane couplings.now class z d result.now }
{
    let _ = lattice.size();
    couplings.plane(class, z, d)
}

/// A coordinate one step on, around the boundary.
#[inline]
pub(crate) fn next(size: u32, c: u32) -> u32
    requires size { size ≤ 64 }
    requires c { c < size }
    ensures value { result ≡ next_of size c }
    ensures within { result < size }
{
    if c + 1 < size { c + 1 } else { 0 }
}

/// And one step back.
#[inline]
pub(crate) fn previous(size: u32, c: u32) -> u32
    requires size { size ≤ 64 }
    requires c { c < size }
    ensures value { result ≡ previous_of size c }
    ensures within { result < size }
{
    if c > 0 { c - 1 } else { size - 1 }
}
