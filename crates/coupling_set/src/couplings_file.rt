//! Couplings from a file and as a file.

ghost use Rattle.std.specs.Prelude.{◌≡◌, ℕ, ◌<◌, ◌≤◌, length, IfOk, Ok};
ghost use Rattle.coupling_set.specs.BondsAsWords.{couplings_with, bank_of};
ghost use Rattle.coupling_set.specs.CouplingWords.{HasBonds};
ghost use Rattle.coupling_set.specs.CouplingsFile.{couplings_in, file_length, of_file, samples_in, written, IsFileOf};
ghost use Rattle.glass_edges.specs.Refusals.{GivesAfterTests};
ghost use Rattle.spin_model.specs.Couplings.{Bonds};

use crate::bond_words::word_count;
use crate::couplings::Couplings;
use crate::file_checks::file_refusal;
use crate::file_reading::read_samples;
use crate::file_writing::{file_of, samples_of};
use crate::refused::CouplingsRefused;
use glass_edges::NoMemory;
use lattice_geometry::Lattice;
use spin_model::BANK_SAMPLES;
use std::alloc::Global;

impl Couplings {
    /// The couplings of the first 64 samples of a couplings file (docs/specification/couplings.md).
    /// Samples that the file hasn't are the ferromagnet's.
    ///
    /// # Errors
    ///
    /// The first test that the bytes don't pass; `NoMemory` only where they pass all.
    pub fn read(
        alloc: Global,
        lattice: Lattice,
        bytes: &[u8],
    ) -> Result<Couplings, CouplingsRefused>
        ensures value { GivesAfterTests CouplingsRefused.NoMemory (λ couplings. couplings) result
            (couplings_in lattice 0 bytes.now) }
        ensures size { IfOk result (λ couplings. couplings.size ≡ lattice) }
        ensures bonds { IfOk result (λ couplings.
            HasBonds couplings (bank_of 0 (of_file lattice bytes.now))) }
        // What is read is a file, and every file is read.
        ensures found { IfOk result (λ couplings.
            IsFileOf lattice (samples_in bytes.now) (of_file lattice bytes.now) bytes.now) }
        ensures only { (n : ℕ) (bonds : ℕ → Bonds) → IsFileOf lattice n bonds bytes.now
            → GivesAfterTests CouplingsRefused.NoMemory (λ couplings. couplings) result
            (Ok (couplings_with lattice (bank_of 0 bonds))) }
        // Written again it is the same bytes.
        ensures again { IfOk result (λ couplings. samples_in bytes.now ≤ 64
            → written couplings (samples_in bytes.now) ≡ bytes.now) }
    {
        Couplings::read_bank(alloc, lattice, 0, bytes)
    }

    /// The couplings of a bank of 64 samples of a couplings file: those of sample 64 bank + m are in
    /// bit m. There are four banks.
    ///
    /// # Errors
    ///
    /// As `read`, by the whole file.
    pub fn read_bank(
        alloc: Global,
        lattice: Lattice,
        bank: u32,
        bytes: &[u8],
    ) -> Result<Couplings, CouplingsRefused>
        requires { bank < 4 }
        ensures value { GivesAfterTests CouplingsRefused.NoMemory (λ couplings. couplings) result
            (couplings_in lattice bank bytes.now) }
        ensures size { IfOk result (λ couplings. couplings.size ≡ lattice) }
        ensures bonds { IfOk result (λ couplings.
            HasBonds couplings (bank_of bank (of_file lattice bytes.now))) }
        ensures found { IfOk result (λ couplings.
            IsFileOf lattice (samples_in bytes.now) (of_file lattice bytes.now) bytes.now) }
        ensures only { (n : ℕ) (bonds : ℕ → Bonds) → IsFileOf lattice n bonds bytes.now
            → GivesAfterTests CouplingsRefused.NoMemory (λ couplings. couplings) result
            (Ok (couplings_with lattice (bank_of bank bonds))) }
    {
        if let Some(refused) = file_refusal(lattice.size(), bytes) {
            return Err(refused);
        }
        let couplings = stored(alloc, lattice, bank, bytes)?;
        couplings_are_their_bonds(&couplings);
        Ok(couplings)
    }

    /// The couplings file of the first samples, 1 to 64.
    ///
    /// # Errors
    ///
    /// Refuses only for lack of memory.
    pub fn write(&self, alloc: Global, samples: u32) -> Result<Vec<u8>, NoMemory>
        requires some { 1 ≤ samples }
        requires few { samples ≤ 64 }
        ensures { IfOk result (λ bytes. bytes.items ≡ written self.now samples) }
    {
        let stored = samples_of(alloc, self, samples)?;
        file_of(alloc, self.size(), samples, stored.as_slice())
    }
}

// The couplings of a bank by bytes that passed the tests.
fn stored(alloc: Global, lattice: Lattice, bank: u32, bytes: &[u8]) -> Result<Couplings, NoMemory>
    requires bank { bank < 4 }
    requires few { samples_in bytes.now ≤ 256 }
    requires len { length bytes.now ≡ file_length lattice (samples_in bytes.now) }
    ensures size { IfOk result (λ couplings. couplings.size ≡ lattice) }
    ensures bonds { IfOk result (λ couplings.
        HasBonds couplings (bank_of bank (of_file lattice bytes.now))) }
{
    let mut words = vec![in alloc; 0u64; word_count(&lattice)]?;
    read_samples(words.as_mut_slice(), &lattice, bytes, BANK_SAMPLES * bank);
    Ok(Couplings::of(lattice, words))
}

/// The law that couplings are fixed by J of each sample and bond.
pub fn couplings_are_their_bonds(couplings: &Couplings)
    ensures { (bonds : ℕ → Bonds) → HasBonds couplings.now bonds →
        couplings.now ≡ couplings_with couplings.now.size bonds }
{
    let _ = couplings.size();
}
