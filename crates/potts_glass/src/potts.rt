//! The Potts glass: its state and what it answers.

ghost use Rattle.std.specs.Prelude.{◌≡◌, ◌+◌, ◌*◌, ◌<◌, ◌≤◌, IfOk, slice_index};
ghost use Rattle.spin_model.specs.Lattice.{volume, IsLawfulSize};
ghost use Rattle.spin_model.specs.Steps.{table};
ghost use Rattle.spin_model.specs.Words.{one_if};
ghost use Rattle.potts_glass.specs.PottsStates.{opened, state_of, energy_of, half_swept, swept};

use crate::energy::write_energies;
use crate::start::{PottsStart, seeded_wheels, start_sites};
use crate::sweeping::half_sweep;
use crate::update::PottsRow;
use coupling_set::Couplings;
use glass_edges::NoMemory;
use lattice_geometry::Lattice;
use multispin_word::bit;
use plain_list::Items;
use pr_generator::Wheel;
use std::alloc::Global;
use std::marker::Model;

/// The four-state Potts glass in 64 disorder samples, two words a site. Contracts see the
/// couplings, the colours of each sample in the order of the sites, and the words of the
/// generators.
#[derive(Drop)]
pub struct Potts {
    lattice: Lattice,
    couplings: Couplings,
    sites: Items<[u64; 2]>,
    wheels: Items<Wheel>,
}

impl Model for Potts {
    ghost use Rattle.potts_glass.specs.PottsStates.{PottsView};

    ghost Value = { PottsView };

    ghost use Rattle.potts_glass.specs.Kept.{view_of, KeepsPotts};

    ghost view = { view_of };

    ghost invariant = { KeepsPotts };
}

impl Potts {
    /// The glass with these couplings at the start, its generators seeded.
    ///
    /// # Errors
    ///
    /// Refuses only for lack of memory.
    pub fn open(
        alloc: Global,
        lattice: Lattice,
        couplings: Couplings,
        seed: u64,
        start: PottsStart,
    ) -> Result<Potts, NoMemory>
        requires { couplings.size ≡ lattice }
        ensures { IfOk result (λ potts. potts ≡ opened couplings seed start) }
    {
        let sites = start_sites(alloc, &lattice, seed, start)?;
        let wheels = seeded_wheels(alloc, &lattice, seed)?;
        Ok(Potts {
            lattice,
            couplings,
            sites,
            wheels,
        })
    }

    /// The number of sites along an edge of the lattice.
    pub fn size(&self) -> u32
        ensures value { result ≡ self.now.couplings.size }
        ensures lawful { IsLawfulSize self.now.couplings.size }
    {
        self.lattice.size()
    }

    /// The number of sites.
    pub fn sites(&self) -> u32
        ensures value { result ≡ volume self.now.couplings.size }
        ensures lawful { IsLawfulSize self.now.couplings.size }
    {
        self.lattice.sites()
    }

    /// A sweep of all samples: the checkerboard class 0, and then class 1, which sees the new
    /// colours of class 0. Each site has two draws, the same in all samples. Takes no memory.
    pub fn sweep(&mut self, row: &PottsRow)
        ensures { self.new ≡ swept row.now.values self.old }
    {
        self.half_sweep(row, 0);
        self.half_sweep(row, 1);
    }

    // The half sweep of a class.
    fn half_sweep(&mut self, row: &PottsRow, class: u32)
        requires { class < 2 }
        ensures { self.new ≡ half_swept row.now.values class self.old }
    {
        half_sweep(
            &mut self.sites,
            &mut self.wheels,
            &self.lattice,
            &self.couplings,
            row,
            class,
        );
    }

    /// The energy of each sample in units of the coupling, from -3V to 3V for V sites. Takes no
    /// memory.
    pub fn energies(&self, out: &mut [i32; 64])
        ensures { out.new ≡ table (energy_of self.now) 64 }
    {
        write_energies(&self.lattice, &self.couplings, &self.sites, out);
    }

    /// The colour of a sample at a site, 0 to 3.
    pub fn colour_of(&self, sample: u32, site: u32) -> u32
        requires sample { sample < 64 }
        requires site { site < volume self.now.couplings.size }
        ensures value { result ≡ slice_index (state_of self.now sample) site }
        ensures within { result < 4 }
    {
        let [low, high] = *self.sites.at(site as usize);
        worth(bit(low, sample)) + 2 * worth(bit(high, sample))
    }
}

/// What a bit counts.
fn worth(set: bool) -> u32
    ensures value { result ≡ one_if set }
    ensures within { result ≤ 1 }
{
    if set { 1 } else { 0 }
}
