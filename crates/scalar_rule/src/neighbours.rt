//! The counts at a site that the spin rule needs.

ghost use Rattle.std.specs.Prelude.{◌≡◌, ◌<◌, ◌≤◌, length};
ghost use Rattle.spin_model.specs.Lattice.{volume};
ghost use Rattle.spin_model.specs.Words.{one_if};
ghost use Rattle.scalar_rule.specs.Neighbours as model;
ghost use Rattle.scalar_rule.specs.Neighbours.{ahead, behind, pull, coupled};

use crate::bonds::Bonds;
use lattice_geometry::Lattice;

/// 1 where the test holds, else 0.
pub(crate) fn one_if(test: bool) -> u32
    ensures value { result ≡ one_if test }
    ensures within { result ≤ 1 }
{
    if test { 1 } else { 0 }
}

/// J times a spin, true for +1.
pub(crate) fn coupled(negative: bool, spin: bool) -> bool
    ensures { result ≡ coupled negative spin }
{
    negative != spin
}

// 1 where J s' of the neighbour one step on is +1.
fn pull_ahead<B: Bonds>(lattice: &Lattice, bonds: &B, spins: &[bool], site: u32, d: u32) -> u32
    requires size { B.size bonds.now ≡ lattice.now }
    requires spins { length spins.now ≡ volume lattice.now }
    requires site { site < volume lattice.now }
    requires direction { d < 3 }
    ensures value { result ≡ one_if (pull (B.negative bonds.now) spins.now (ahead lattice.now site d)) }
    ensures within { result ≤ 1 }
{
    let neighbour = lattice.forward(site, d) as usize;
    one_if(coupled(bonds.is_negative(site, d), spins[neighbour]))
}

// 1 where J s' of the neighbour one step back is +1.
fn pull_behind<B: Bonds>(lattice: &Lattice, bonds: &B, spins: &[bool], site: u32, d: u32) -> u32
    requires size { B.size bonds.now ≡ lattice.now }
    requires spins { length spins.now ≡ volume lattice.now }
    requires site { site < volume lattice.now }
    requires direction { d < 3 }
    ensures value { result ≡ one_if (pull (B.negative bonds.now) spins.now (behind lattice.now site d)) }
    ensures within { result ≤ 1 }
{
    let neighbour = lattice.backward(site, d);
    let negative = bonds.is_negative(neighbour, d);
    one_if(coupled(negative, spins[neighbour as usize]))
}

/// How many of the six neighbours have J s' = +1.
#[tactic(auto, unfolding(crate::specs::Neighbours::aligned))]
pub(crate) fn aligned<B: Bonds>(lattice: &Lattice, bonds: &B, spins: &[bool], site: u32) -> u32
    requires size { B.size bonds.now ≡ lattice.now }
    requires spins { length spins.now ≡ volume lattice.now }
    requires site { site < volume lattice.now }
    ensures value { result ≡ model.aligned lattice.now (B.negative bonds.now) spins.now site }
    ensures within { result ≤ 6 }
{
    pull_ahead(lattice, bonds, spins, site, 0)
        + pull_ahead(lattice, bonds, spins, site, 1)
        + pull_ahead(lattice, bonds, spins, site, 2)
        + pull_behind(lattice, bonds, spins, site, 0)
        + pull_behind(lattice, bonds, spins, site, 1)
        + pull_behind(lattice, bonds, spins, site, 2)
}

/// How many of the six bonds have J s s' = +1, with s the spin at the site.
pub(crate) fn satisfied<B: Bonds>(lattice: &Lattice, bonds: &B, spins: &[bool], site: u32) -> u32
    requires size { B.size bonds.now ≡ lattice.now }
    requires spins { length spins.now ≡ volume lattice.now }
    requires site { site < volume lattice.now }
    ensures value { result ≡ model.satisfied lattice.now (B.negative bonds.now) spins.now site }
    ensures within { result ≤ 6 }
{
    let up = aligned(lattice, bonds, spins, site);
    if spins[site as usize] { up } else { 6 - up }
}
