//! Random couplings: a row of sites at a time, in all samples.

ghost use Rattle.std.specs.Prelude.{◌≡◌, ◌≢◌, ℕ, ◌+◌, ◌*◌, ◌^◌, ◌<◌, ◌≤◌, [], IfOk, OnOk, length, slice_index, slice_index_or};
ghost use Rattle.coupling_set.specs.CouplingWords.{bonds_of, HasBonds};
ghost use Rattle.coupling_set.specs.KeptWords.{kept_count, kept_on};
ghost use Rattle.spin_model.specs.Couplings.{random};
ghost use Rattle.spin_model.specs.Lattice.{bond_count, IsLawfulSize};
ghost use Rattle.spin_model.specs.Seeding.{coupling_words};
ghost use Rattle.spin_model.specs.Steps.{table};
ghost use Rattle.spin_model.specs.Stream.{advanced, draw};
ghost use Rattle.spin_model.specs.Words.{is_set};

use crate::bond_words::write_word;
use glass_edges::NoMemory;
use lattice_geometry::Lattice;
use multispin_word::with_bit;
use plain_list::Items;
use pr_generator::Wheel;
use spin_model::COUPLINGS_LABEL;
use std::alloc::Global;

/// The greatest number of bonds of a row of sites.
const ROW: usize = 192;

/// Draws the couplings of 64 samples, of which the first has this number.
pub(crate) fn draw_samples(
    alloc: Global,
    words: &mut [u64],
    lattice: &Lattice,
    seed: u64,
    first: u32,
) -> Result<(), NoMemory>
    requires sized { length words.old ≡ kept_count lattice.now }
    requires first { first + 64 ≤ 2 ^ 32 }
    ensures { OnOk result (HasBonds (kept_on lattice.now words.new) (λ b. random seed (first + b))) }
{
    let mut wheels = seeded_wheels(alloc, seed, first)?;
    let mut draws = [0u32; ROW];
    let mut row = [0u64; ROW];
    let count = 3 * lattice.size() as usize;
    draw_rows(
        words,
        lattice,
        &mut wheels,
        &mut draws[..count],
        &mut row[..count],
    );
    Ok(())
}

// The generators of 64 samples.
fn seeded_wheels(alloc: Global, seed: u64, first: u32) -> Result<Items<Wheel>, NoMemory>
    requires { first + 64 ≤ 2 ^ 32 }
    ensures { IfOk result (λ wheels. wheels ≡ table (λ b. coupling_words seed (first + b)) 64) }
{
    let mut wheels = Vec::with_capacity(alloc, 64)?;
    'samples: for b in 0..64u32 {
        wheels.push(Wheel::seeded(seed, COUPLINGS_LABEL, first + b, 0, 0))?;
    }
    Ok(Items::of(wheels))
}

// The couplings of each sample by its generator, one draw a bond.
fn draw_rows(
    words: &mut [u64],
    lattice: &Lattice,
    wheels: &mut Items<Wheel>,
    draws: &mut [u32],
    row: &mut [u64],
)
    requires sized { length words.old ≡ kept_count lattice.now }
    requires samples { length wheels.old ≡ 64 }
    requires draws { length draws.old ≡ 3 * lattice.now }
    requires row { length row.old ≡ 3 * lattice.now }
    ensures { HasBonds (kept_on lattice.now words.new)
        (λ b n. is_set (draw (slice_index_or wheels.old b []) n) 31) }
{
    let size = lattice.size();
    'rows: for r in 0..size * size {
        next_row(wheels, draws, row);
        write_row(words, lattice, row, 3 * size * r);
    }
}

// The words of the next bonds, by the next draws of each sample's generator.
fn next_row(wheels: &mut Items<Wheel>, draws: &mut [u32], row: &mut [u64])
    requires samples { length wheels.old ≡ 64 }
    requires room { length row.old ≡ length draws.old }
    ensures samples { length wheels.new ≡ 64 }
    ensures moved { (b : ℕ) → b < 64 → slice_index_or wheels.new b []
        ≡ advanced (slice_index_or wheels.old b []) (length draws.old) }
    ensures bits { (b k : ℕ) → b < 64 → k < length draws.old → is_set (slice_index row.new k) b
        ≡ is_set (draw (slice_index_or wheels.old b []) k) 31 }
{
    'samples: for b in 0..64u32 {
        wheels.at_mut(b as usize).fill(draws);
        set_sample(row, draws, b);
    }
}

// The bits of one sample, each by its draw. A loop without a call, so that it goes by vectors.
fn set_sample(row: &mut [u64], draws: &[u32], sample: u32)
    requires room { length row.old ≡ length draws.now }
    requires sample { sample < 64 }
    ensures bits { (k : ℕ) → k < length draws.now
        → is_set (slice_index row.new k) sample ≡ is_set (slice_index draws.now k) 31 }
    ensures others { (b k : ℕ) → b < 64 → b ≢ sample → k < length draws.now
        → is_set (slice_index row.new k) b ≡ is_set (slice_index row.old k) b }
{
    'bonds: for k in 0..row.len() {
        row[k] = with_bit(row[k], sample, is_negative(draws[k]));
    }
}

// Writes the words of the bonds from a number on.
fn write_row(words: &mut [u64], lattice: &Lattice, row: &[u64], start: u32)
    requires sized { length words.old ≡ kept_count lattice.now }
    requires lawful { IsLawfulSize lattice.now }
    requires bonds { start + length row.now ≤ bond_count lattice.now }
    ensures written { (b k : ℕ) → k < length row.now
        → bonds_of (kept_on lattice.now words.new) b (start + k) ≡ is_set (slice_index row.now k) b }
    ensures before { (b n : ℕ) → n < start
        → bonds_of (kept_on lattice.now words.new) b n ≡ bonds_of (kept_on lattice.now words.old) b n }
{
    'bonds: for k in 0..row.len() {
        write_word(words, lattice, start + k as u32, row[k]);
    }
}

// Whether a draw makes J -1: by its top bit.
#[inline]
fn is_negative(draw: u32) -> bool
    ensures { result ≡ is_set draw 31 }
{
    draw >> 31 == 1
}
