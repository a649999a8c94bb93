//! The colours and the generators at the start.

ghost use Rattle.std.specs.Prelude.{◌≡◌, ℕ, ◌*◌, ◌<◌, IfOk, length};
ghost use Rattle.spin_model.specs.Lattice.{volume};
ghost use Rattle.spin_model.specs.Steps.{table};
ghost use Rattle.spin_model.specs.Stream.{advanced};
ghost use Rattle.potts_glass.specs.PackedColours.{colour_in, colours_of};
ghost use Rattle.potts_glass.specs.PottsStates as model;

use glass_edges::NoMemory;
use lattice_geometry::Lattice;
use multispin_word::joined;
use plain_list::Items;
use pr_generator::Wheel;
use spin_model::{POTTS_STARTS_LABEL, POTTS_SWEEPS_LABEL};
use std::alloc::Global;

/// How the sites are coloured at the start.
#[derive(Clone, Copy, Debug, PartialEq, Eq)]
pub enum PottsStart {
    /// Every site has colour 0.
    Zero,
    /// Each site has a colour of its own at random.
    Random,
}

/// The words of all sites at the start.
#[tactic(auto, unfolding(crate::specs::PottsStates::start_colours))]
pub(crate) fn start_sites(
    alloc: Global,
    lattice: &Lattice,
    seed: u64,
    start: PottsStart,
) -> Result<Items<[u64; 2]>, NoMemory>
    ensures sized { IfOk result (λ sites. length sites ≡ volume lattice.now) }
    ensures colours { IfOk result (λ sites. (b : ℕ) → b < 64
        → colours_of lattice.now sites b ≡ model.start_colours lattice.now start seed b) }
{
    match start {
        PottsStart::Zero => zero_sites(alloc, lattice),
        PottsStart::Random => {
            let mut wheel = Wheel::seeded(seed, POTTS_STARTS_LABEL, 0, 0, 0);
            random_sites(alloc, lattice, &mut wheel)
        }
    }
}

// Colour 0 at each site.
fn zero_sites(alloc: Global, lattice: &Lattice) -> Result<Items<[u64; 2]>, NoMemory>
    ensures sized { IfOk result (λ sites. length sites ≡ volume lattice.now) }
    ensures colours { IfOk result (λ sites. (b : ℕ) → b < 64
        → colours_of lattice.now sites b ≡ table (λ i. 0) (volume lattice.now)) }
{
    let mut sites = Vec::with_capacity(alloc, lattice.sites() as usize)?;
    'sites: for _ in 0..lattice.sites() {
        sites.push([0, 0])?;
    }
    Ok(Items::of(sites))
}

// Colours at random, four draws a site.
fn random_sites(
    alloc: Global,
    lattice: &Lattice,
    wheel: &mut Wheel,
) -> Result<Items<[u64; 2]>, NoMemory>
    ensures sized { IfOk result (λ sites. length sites ≡ volume lattice.now) }
    ensures colours { IfOk result (λ sites. (b : ℕ) → b < 64
        → colours_of lattice.now sites b
        ≡ table (model.random_colour wheel.old b) (volume lattice.now)) }
{
    let mut sites = Vec::with_capacity(alloc, lattice.sites() as usize)?;
    'sites: for _ in 0..lattice.sites() {
        sites.push(random_site(wheel))?;
    }
    Ok(Items::of(sites))
}

// The two words of a site by the next four draws: two for the low bits, two for the high bits.
fn random_site(wheel: &mut Wheel) -> [u64; 2]
    ensures moved { wheel.new ≡ advanced wheel.old 4 }
    ensures colours { (b : ℕ) → b < 64 → colour_in result b ≡ model.random_colour wheel.old b 0 }
{
    let mut draws = [0u32; 4];
    wheel.fill(&mut draws);
    [joined(draws[0], draws[1]), joined(draws[2], draws[3])]
}

/// The generators of the sweeps: the one at `class * L + z` serves that checkerboard class in plane
/// z.
pub(crate) fn seeded_wheels(
    alloc: Global,
    lattice: &Lattice,
    seed: u64,
) -> Result<Items<Wheel>, NoMemory>
    ensures { IfOk result (λ wheels. wheels ≡ model.seeded_words lattice.now seed) }
{
    let size = lattice.size();
    let mut wheels = Vec::with_capacity(alloc, 2 * size as usize)?;
    'wheels: for k in 0..2 * size {
        wheels.push(Wheel::seeded(seed, POTTS_SWEEPS_LABEL, k / size, k % size, 0))?;
    }
    Ok(Items::of(wheels))
}
