//! The words of a plane at a random start.

ghost use Rattle.std.specs.Prelude.{◌≡◌, ℕ, ◌+◌, ◌*◌, ◌/◌, ◌%◌, ◌<◌, IfOk, length, slice_index};
ghost use Rattle.plane_sweep.specs.Beginnings.{site_of, ArePlaneWords, HasDraws};
ghost use Rattle.spin_model.specs.Lattice.{half_plane};
ghost use Rattle.spin_model.specs.Stream.{advanced, draws};
ghost use Rattle.spin_model.specs.Words.{is_set};

use glass_edges::NoMemory;
use lattice_geometry::Lattice;
use multispin_word::joined;
use plain_list::Items;
use pr_generator::Wheel;
use std::alloc::Global;

/// The words of plane `z` of a colour, by the next draws: two for each site of the plane, of either
/// colour.
pub(crate) fn random_words(
    alloc: Global,
    lattice: &Lattice,
    wheel: &mut Wheel,
    colour: u32,
    z: u32,
) -> Result<Items<u64>, NoMemory>
    requires colour { colour < 2 }
    requires plane { z < lattice.now }
    ensures words { IfOk result (ArePlaneWords lattice.now) }
    ensures bits { IfOk result (HasDraws lattice.now wheel.old colour z) }
    ensures moved { wheel.new ≡ advanced wheel.old (2 * (lattice.now * lattice.now)) }
{
    let mut buffer = [0u32; 8192];
    let draws = &mut buffer[..(2 * lattice.size() * lattice.size()) as usize];
    wheel.fill(draws);
    words_by(alloc, lattice, draws, colour, z)
}

// The words of the plane by these draws.
fn words_by(
    alloc: Global,
    lattice: &Lattice,
    draws: &[u32],
    colour: u32,
    z: u32,
) -> Result<Items<u64>, NoMemory>
    requires draws { length draws.now ≡ 2 * (lattice.now * lattice.now) }
    requires colour { colour < 2 }
    requires plane { z < lattice.now }
    ensures words { IfOk result (ArePlaneWords lattice.now) }
    ensures bits { IfOk result (λ words. (b k : ℕ) → b < 64 → k < half_plane lattice.now
        → is_set (slice_index words k) b
        ≡ is_set (slice_index draws.now (2 * (site_of lattice.now colour z k % (lattice.now * lattice.now)) + b / 32)) (b % 32)) }
{
    let size = lattice.size();
    let half = size / 2;
    let mut words = Vec::with_capacity(alloc, (size * half) as usize)?;
    'rows: for y in 0..size {
        'columns: for column in 0..half {
            words.push(word_by(lattice, draws, colour, z, y, column))?;
        }
    }
    Ok(Items::of(words))
}

// The word of one site of row `y`: of the two sites of a column the one that has the colour.
#[inline]
fn word_by(lattice: &Lattice, draws: &[u32], colour: u32, z: u32, y: u32, column: u32) -> u64
    requires draws { length draws.now ≡ 2 * (lattice.now * lattice.now) }
    requires colour { colour < 2 }
    requires plane { z < lattice.now }
    requires row { y < lattice.now }
    requires column { column < lattice.now / 2 }
    ensures { (b : ℕ) → b < 64 → is_set result b
        ≡ is_set (slice_index draws.now (2 * (site_of lattice.now colour z (y * (lattice.now / 2) + column) % (lattice.now * lattice.now)) + b / 32)) (b % 32) }
{
    let x = 2 * column + (colour + y + z) % 2;
    let first = 2 * (y * lattice.size() + x) as usize;
    joined(draws[first], draws[first + 1])
}
