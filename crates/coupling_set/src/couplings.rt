//! The couplings of 64 disorder samples.

ghost use Rattle.std.specs.Prelude.{◌≡◌, ℕ, ◌+◌, ◌*◌, ◌^◌, ◌<◌, ◌≤◌, IfOk, length, slice_index};
ghost use Rattle.coupling_set.specs.BondsAsWords.{bank_of};
ghost use Rattle.coupling_set.specs.CouplingWords.{bond_word, HasBonds, AreCouplings};
ghost use Rattle.coupling_set.specs.KeptWords.{kept_count, kept_on};
ghost use Rattle.spin_model.specs.Couplings.{plus, random};
ghost use Rattle.spin_model.specs.Lattice.{volume, half_plane, half_volume, from_compact, IsLawfulSize};

use crate::bond_words::{place, plane_start, word_count};
use crate::drawing::draw_samples;
use glass_edges::NoMemory;
use lattice_geometry::Lattice;
use plain_list::Items;
use spin_model::BANK_SAMPLES;
use std::alloc::Global;
use std::marker::Model;

/// The quenched couplings of 64 disorder samples on one lattice: for each bond a word, whose bit b
/// is set where J of sample b is -1.
#[derive(Drop)]
pub struct Couplings {
    lattice: Lattice,
    words: Items<u64>,
}

impl Model for Couplings {
    ghost use Rattle.coupling_set.specs.CouplingWords.{CouplingsView};

    ghost Value = { CouplingsView };

    ghost use Rattle.coupling_set.specs.Kept.{view_of, KeepsCouplings};

    ghost view = { view_of };

    ghost invariant = { KeepsCouplings };
}

impl Couplings {
    /// The ferromagnet: J is +1 at every bond of every sample.
    ///
    /// # Errors
    ///
    /// Refuses only for lack of memory.
    pub fn plus(alloc: Global, lattice: Lattice) -> Result<Couplings, NoMemory>
        ensures size { IfOk result (λ couplings. couplings.size ≡ lattice) }
        ensures bonds { IfOk result (λ couplings. HasBonds couplings plus) }
    {
        let words = vec![in alloc; 0u64; word_count(&lattice)]?;
        Ok(Couplings::of(lattice, words))
    }

    /// Couplings +1 and -1 with equal probability (Edwards and Anderson, J. Phys. F 5, 965 (1975)):
    /// each sample has a generator of its own, labelled by the seed and the sample's number. Draw
    /// 3i + d is that of the bond from site i in direction d, and J is -1 where its top bit is 1.
    ///
    /// # Errors
    ///
    /// Refuses only for lack of memory.
    pub fn random(alloc: Global, lattice: Lattice, seed: u64) -> Result<Couplings, NoMemory>
        ensures size { IfOk result (λ couplings. couplings.size ≡ lattice) }
        ensures bonds { IfOk result (λ couplings. HasBonds couplings (random seed)) }
    {
        Couplings::random_from(alloc, lattice, seed, 0)
    }

    /// The random couplings of a bank of 64 samples: those of sample 64 bank + m are in bit m. There
    /// are four banks.
    ///
    /// # Errors
    ///
    /// Refuses only for lack of memory.
    pub fn random_bank(
        alloc: Global,
        lattice: Lattice,
        seed: u64,
        bank: u32,
    ) -> Result<Couplings, NoMemory>
        requires { bank < 4 }
        ensures size { IfOk result (λ couplings. couplings.size ≡ lattice) }
        ensures bonds { IfOk result (λ couplings. HasBonds couplings (bank_of bank (random seed))) }
    {
        Couplings::random_from(alloc, lattice, seed, BANK_SAMPLES * bank)
    }

    // The random couplings of 64 samples, of which sample 0 has this number.
    fn random_from(
        alloc: Global,
        lattice: Lattice,
        seed: u64,
        first: u32,
    ) -> Result<Couplings, NoMemory>
        requires { first + 64 ≤ 2 ^ 32 }
        ensures size { IfOk result (λ couplings. couplings.size ≡ lattice) }
        ensures bonds { IfOk result (λ couplings. HasBonds couplings (λ b. random seed (first + b))) }
    {
        let mut words = vec![in alloc; 0u64; word_count(&lattice)]?;
        draw_samples(alloc, words.as_mut_slice(), &lattice, seed, first)?;
        Ok(Couplings::of(lattice, words))
    }

    // The couplings in these words.
    pub(crate) fn of(lattice: Lattice, words: Vec<u64>) -> Couplings
        requires { length words.items ≡ kept_count lattice }
        ensures { result ≡ kept_on lattice words.items }
    {
        Couplings {
            lattice,
            words: Items::of(words),
        }
    }

    /// The side of the lattice.
    pub fn size(&self) -> u32
        ensures value { result ≡ self.now.size }
        ensures lawful { AreCouplings self.now }
    {
        self.lattice.size()
    }

    /// The word of the bond from a site to its forward neighbour in direction `d`, 0 for x, 1 for y
    /// and 2 for z: bit b is set exactly where J of sample b is -1. Bit 0 is the lowest.
    pub fn negative(&self, site: u32, d: u32) -> u64
        requires site { site < volume self.now.size }
        requires direction { d < 3 }
        ensures { result ≡ bond_word self.now site d }
    {
        *self.words.at(place(&self.lattice, site, d))
    }

    /// The words of the bonds in direction `d` from the sites of one checkerboard colour in plane
    /// `z`, in order of y, then x.
    pub fn plane(&self, colour: u32, z: u32, d: u32) -> &[u64]
        requires colour { colour < 2 }
        requires plane { z < self.now.size }
        requires direction { d < 3 }
        ensures sized { length result.now ≡ half_plane self.now.size }
        ensures words { (k : ℕ) → k < half_plane self.now.size → slice_index result.now k
            ≡ bond_word self.now
            (from_compact self.now.size (colour * half_volume self.now.size + z * half_plane self.now.size + k))
            d }
    {
        self.plane_of_size(self.size() as usize, colour, z, d)
    }

    /// What `plane` gives, for a caller that knows the size: where that is a constant, the compiler reaches
    /// the planes of all directions from one address.
    #[inline]
    pub fn plane_of_size(&self, size: usize, colour: u32, z: u32, d: u32) -> &[u64]
        requires size { size ≡ self.now.size }
        requires lawful { IsLawfulSize self.now.size }
        requires colour { colour < 2 }
        requires plane { z < self.now.size }
        requires direction { d < 3 }
        ensures sized { length result.now ≡ half_plane self.now.size }
        ensures words { (k : ℕ) → k < half_plane self.now.size → slice_index result.now k
            ≡ bond_word self.now
            (from_compact self.now.size (colour * half_volume self.now.size + z * half_plane self.now.size + k))
            d }
    {
        let first = plane_start(size, colour, z, d);
        &self.words.as_slice()[first..first + size * (size / 2)]
    }
}
