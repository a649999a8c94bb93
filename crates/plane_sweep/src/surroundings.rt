//! What the sites of one colour in a plane read of the other colour's sites and of the bonds.

ghost use Rattle.std.specs.Prelude.{◌≡◌, ◌-◌, ◌<◌, length, All};
ghost use Rattle.plane_sweep.specs.Packed.{FitsPlane};
ghost use Rattle.plane_sweep.specs.Neighbourhood.{Surrounds};
ghost use Rattle.spin_model.specs.Lattice.{next, previous, IsLawfulSize};

use crate::replica::Plane;
use coupling_set::Couplings;

/// The words around the sites of one colour in plane z, each list in order of y, then x.
#[derive(Drop)]
pub struct Surroundings<'a> {
    /// The spins of the other colour in plane z, one plane on, and one plane back.
    pub here: &'a [u64],
    pub above: &'a [u64],
    pub below: &'a [u64],
    /// The bonds from the sites one step on in x, y and z.
    pub ahead_x: &'a [u64],
    pub ahead_y: &'a [u64],
    pub ahead_z: &'a [u64],
    /// The bonds one step on from the other colour's sites: x and y in plane z, z one plane back.
    pub here_x: &'a [u64],
    pub here_y: &'a [u64],
    pub below_z: &'a [u64],
}

/// The surroundings of the sites of a colour in plane `z`, from the planes of the other colour.
#[inline]
pub fn lend<'a>(
    other: &'a [Plane],
    couplings: &'a Couplings,
    colour: u32,
    z: u32,
    size: usize,
) -> Surroundings<'a>
    requires size { size ≡ couplings.now.size }
    requires lawful { IsLawfulSize couplings.now.size }
    requires colour { colour < 2 }
    requires plane { z < couplings.now.size }
    requires count { length other.now ≡ couplings.now.size }
    requires planes { All (FitsPlane couplings.now.size) other.now }
    ensures { Surrounds couplings.now other.now colour z result }
{
    let at = z as usize;
    let (on, back) = (next(size, at), previous(size, at));
    Surroundings {
        here: other[at].words.as_slice(),
        above: other[on].words.as_slice(),
        below: other[back].words.as_slice(),
        ahead_x: couplings.plane_of_size(size, colour, z, 0),
        ahead_y: couplings.plane_of_size(size, colour, z, 1),
        ahead_z: couplings.plane_of_size(size, colour, z, 2),
        here_x: couplings.plane_of_size(size, 1 - colour, z, 0),
        here_y: couplings.plane_of_size(size, 1 - colour, z, 1),
        below_z: couplings.plane_of_size(size, 1 - colour, back as u32, 2),
    }
}

/// One step on around a boundary of n places.
#[inline]
pub(crate) fn next(n: usize, x: usize) -> usize
    requires { x < n }
    ensures value { result ≡ next n x }
    ensures within { result < n }
{
    if x < n - 1 { x + 1 } else { 0 }
}

/// One step back.
#[inline]
pub(crate) fn previous(n: usize, x: usize) -> usize
    requires { x < n }
    ensures value { result ≡ previous n x }
    ensures within { result < n }
{
    if x > 0 { x - 1 } else { n - 1 }
}
