//! A lattice by its size, and the numbering of its sites.

ghost use Rattle.std.specs.Prelude.{◌≡◌, ℕ, ◌+◌, ◌*◌, ◌/◌, ◌%◌, ◌<◌, IfOk, IfErr};
ghost use Rattle.spin_model.specs.Lattice.{volume, site_at, x_of, y_of, z_of, forward, backward, colour, compact, from_compact, IsLawfulSize};

use spin_model::is_lawful_size;
use std::marker::Model;
use thiserror::Error;

/// Why a size is no lattice's.
#[derive(Clone, Copy, Debug, PartialEq, Eq, Drop, Error)]
pub enum SizeRefused {
    /// The size is odd, below 4 or above 64.
    #[error("the size {size} is not an even number from 4 to 64")]
    OddOrOutOfRange { size: u32 },
}

/// The simple cubic lattice of L^3 sites with periodic boundaries, L its size. Contracts see L.
///
/// Site (x, y, z) has the number x + L y + L^2 z. Direction 0 is x, 1 is y and 2 is z.
#[derive(Clone, Copy)]
pub struct Lattice {
    size: u32,
}

impl Model for Lattice {
    ghost Value = { ℕ };

    ghost view = { λ lattice. lattice.size };

    ghost inverse = { λ l. record { size = l } };

    ghost invariant = { λ lattice. IsLawfulSize lattice.size };
}

impl Lattice {
    /// The lattice of this size.
    ///
    /// # Errors
    ///
    /// Refuses exactly the sizes that are odd, below 4 or above 64.
    pub fn of(size: u32) -> Result<Lattice, SizeRefused>
        ensures accepted { IfOk result (λ lattice. (lattice ≡ size) × IsLawfulSize size) }
        ensures refused { IfErr result (λ e. (e ≡ SizeRefused.OddOrOutOfRange size) × ¬ (IsLawfulSize size)) }
    {
        if !is_lawful_size(size as u64) {
            return Err(SizeRefused::OddOrOutOfRange { size });
        }
        Ok(Lattice { size })
    }

    /// The number of sites along an edge.
    pub fn size(&self) -> u32
        ensures value { result ≡ self.now }
        ensures lawful { IsLawfulSize self.now }
    {
        self.size
    }

    /// The number of sites.
    pub fn sites(&self) -> u32
        ensures value { result ≡ volume self.now }
        ensures lawful { IsLawfulSize self.now }
    {
        self.size * self.size * self.size
    }

    /// The site at three coordinates.
    pub fn site(&self, x: u32, y: u32, z: u32) -> u32
        requires x { x < self.now }
        requires y { y < self.now }
        requires z { z < self.now }
        ensures value { result ≡ site_at self.now x y z }
        ensures within { result < volume self.now }
    {
        x + self.size * y + self.size * self.size * z
    }

    /// The coordinates x, y and z of a site.
    pub fn coordinates(&self, site: u32) -> (u32, u32, u32)
        requires { site < volume self.now }
        ensures x { result.0 ≡ x_of self.now site }
        ensures y { result.1 ≡ y_of self.now site }
        ensures z { result.2 ≡ z_of self.now site }
        ensures within { (result.0 < self.now) × (result.1 < self.now) × (result.2 < self.now) }
    {
        (
            site % self.size,
            site / self.size % self.size,
            site / (self.size * self.size),
        )
    }

    /// The neighbour one step on in direction d, around the boundary.
    #[tactic(auto, unfolding(spin_model::specs::Lattice::forward))]
    pub fn forward(&self, site: u32, d: u32) -> u32
        requires site { site < volume self.now }
        requires direction { d < 3 }
        ensures value { result ≡ forward self.now site d }
        ensures within { result < volume self.now }
    {
        let (x, y, z) = self.coordinates(site);
        match d {
            0 => self.site((x + 1) % self.size, y, z),
            1 => self.site(x, (y + 1) % self.size, z),
            _ => self.site(x, y, (z + 1) % self.size),
        }
    }

    /// The neighbour one step back in direction d, around the boundary.
    #[tactic(auto, unfolding(spin_model::specs::Lattice::backward))]
    pub fn backward(&self, site: u32, d: u32) -> u32
        requires site { site < volume self.now }
        requires direction { d < 3 }
        ensures value { result ≡ backward self.now site d }
        ensures within { result < volume self.now }
    {
        let (x, y, z) = self.coordinates(site);
        match d {
            0 => self.site((x + self.size - 1) % self.size, y, z),
            1 => self.site(x, (y + self.size - 1) % self.size, z),
            _ => self.site(x, y, (z + self.size - 1) % self.size),
        }
    }

    /// The checkerboard colour of a site: 0 where x + y + z is even, 1 where it is odd.
    pub fn colour(&self, site: u32) -> u32
        requires { site < volume self.now }
        ensures value { result ≡ colour self.now site }
        ensures within { result < 2 }
    {
        let (x, y, z) = self.coordinates(site);
        (x + y + z) % 2
    }

    /// The place of a site in the compact order: by colour, then z, y and x.
    pub fn compact(&self, site: u32) -> u32
        requires { site < volume self.now }
        ensures value { result ≡ compact self.now site }
        ensures within { result < volume self.now }
    {
        let (x, y, z) = self.coordinates(site);
        let half = self.size / 2;
        let half_plane = self.size * half;
        let half_volume = self.size * half_plane;
        self.colour(site) * half_volume + z * half_plane + (y * half + x / 2)
    }

    /// The site at a place of the compact order.
    pub fn from_compact(&self, place: u32) -> u32
        requires { place < volume self.now }
        ensures value { result ≡ from_compact self.now place }
        ensures within { result < volume self.now }
        ensures place { compact self.now result ≡ place }
        ensures only { (site : ℕ) → site < volume self.now → compact self.now site ≡ place → site ≡ result }
    {
        let half = self.size / 2;
        let half_plane = self.size * half;
        let half_volume = self.size * half_plane;
        let colour = place / half_volume;
        let z = place % half_volume / half_plane;
        let y = place % half_plane / half;
        let x = 2 * (place % half) + (colour + y + z) % 2;
        self.site(x, y, z)
    }
}
