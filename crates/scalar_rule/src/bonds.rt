//! The couplings of one disorder sample, as the serial dynamics asks for them.

ghost use Rattle.std.specs.Prelude.{◌≡◌, ℕ, ◌<◌, Bool};
ghost use Rattle.spin_model.specs.Lattice.{volume, bond};

use coupling_set::Couplings;
use lattice_geometry::Lattice;
use multispin_word::bit;

/// The couplings of one disorder sample: of each bond, whether J is -1.
pub(crate) trait Bonds {
    /// The size of the lattice.
    ghost size: { Self → ℕ };

    /// At a bond's number, true where J is -1.
    ghost negative: { Self → ℕ → Bool };

    /// Whether J is -1 at the bond from a site to its forward neighbour in direction `d`.
    fn is_negative(&self, site: u32, d: u32) -> bool
        requires site { site < volume (size self.now) }
        requires direction { d < 3 }
        ensures { result ≡ negative self.now (bond site d) };
}

/// The ferromagnet: J is +1 at every bond.
#[derive(Clone, Copy)]
pub(crate) struct Ferromagnet {
    pub(crate) lattice: Lattice,
}

impl Bonds for Ferromagnet {
    ghost use Rattle.spin_model.specs.Couplings.{plus};

    ghost size = { λ ferromagnet. ferromagnet.lattice };

    ghost negative = { λ _. plus 0 };

    fn is_negative(&self, _site: u32, _d: u32) -> bool {
        false
    }
}

/// The couplings of one of 64 disorder samples: bit `bit` of each bond's word.
#[derive(Clone, Copy)]
pub(crate) struct SampleBonds<'a> {
    couplings: &'a Couplings,
    bit: u32,
    ghost one_of_64: { bit < 64 },
}

impl<'a> SampleBonds<'a> {
    /// The couplings of sample `bit`.
    pub fn of(couplings: &'a Couplings, bit: u32) -> SampleBonds<'a>
        requires { bit < 64 }
        ensures couplings { result.couplings.now ≡ couplings.now }
        ensures bit { result.bit ≡ bit }
    {
        SampleBonds { couplings, bit }
    }
}

impl Bonds for SampleBonds<'_> {
    ghost use Rattle.coupling_set.specs.CouplingWords.{bonds_of};

    ghost size = { λ sample. sample.couplings.now.size };

    ghost negative = { λ sample. bonds_of sample.couplings.now sample.bit };

    fn is_negative(&self, site: u32, d: u32) -> bool {
        bit(self.couplings.negative(site, d), self.bit)
    }
}
