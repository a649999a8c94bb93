//! The sums of the field of two replicas, which need not be of one slot.

ghost use Rattle.std.specs.Prelude.{◌≡◌, ℕ, ◌*◌, ◌<◌, ◌≤◌, pos, ◌-ℤ◌};
ghost use Rattle.measured_sums.specs.OverlapField.{link_overlap, site_overlap};
ghost use Rattle.multispin_word.specs.Planes.{number};
ghost use Rattle.plane_sums.specs.Correlations.{signed_at};
ghost use Rattle.plane_sums.specs.Fields.{TellsField};
ghost use Rattle.plane_sweep.specs.Packed.{spins_of, FitsReplica};

use crate::numbers::plane_numbers_between;
use crate::overlaps::sum_planes;
use crate::products::correlations;
use crate::room::Planes3;
use glass_edges::NoMemory;
use lattice_geometry::Lattice;
use multispin_word::Planes;
use overlap_lines::agreeing_bonds_between;
use plane_sweep::Replica;
use scalar_rule::excess;
use std::alloc::Global;

/// The sums of the field of two replicas, which is +1 where their spins are equal and -1 elsewhere, in 64
/// samples, 34 KB.
#[derive(Drop)]
pub struct FieldSums {
    /// The link sums: of the field at both ends, over all bonds.
    pub links: [i32; 64],
    /// The overlaps: over all sites.
    pub overlaps: [i32; 64],
    /// The correlations across the axes, by distance from 0 to half the side.
    pub axis: [[i64; 64]; 33],
    /// Those across the diagonals of the faces.
    pub face: [[i64; 64]; 33],
}

impl FieldSums {
    /// All numbers 0.
    pub fn none() -> FieldSums {
        FieldSums {
            links: [0i32; 64],
            overlaps: [0i32; 64],
            axis: [[0i64; 64]; 33],
            face: [[0i64; 64]; 33],
        }
    }
}

/// Room in which fields are measured, one after the other, 1.7 MB.
#[derive(Drop)]
pub struct FieldRoom {
    planes: Planes3,
    numbers: Box<[[[i16; 64]; 64]; 9], Global>,
}

impl FieldRoom {
    /// Room for any lattice.
    ///
    /// # Errors
    ///
    /// Refuses only for lack of memory.
    pub fn none(alloc: Global) -> Result<FieldRoom, NoMemory> {
        Ok(FieldRoom {
            planes: Planes3::none(alloc)?,
            numbers: Box::new(alloc, [[[0i16; 64]; 64]; 9])?,
        })
    }
}

/// Measures the field of two replicas: in each sample the link sum, the overlap, and the correlations up to
/// half the side. Takes no memory.
pub fn measure_field(
    sums: &mut FieldSums,
    first: &Replica,
    second: &Replica,
    lattice: Lattice,
    room: &mut FieldRoom,
)
    requires first { FitsReplica lattice first.now }
    requires second { FitsReplica lattice second.now }
    ensures { TellsField lattice sums.new
        (λ b. site_overlap (spins_of lattice b first.now.planes) (spins_of lattice b second.now.planes)) }
{
    write_field(
        sums,
        first,
        second,
        lattice,
        &mut room.planes,
        &mut room.numbers,
    );
}

// The sums of the field from those over its planes.
fn write_field(
    sums: &mut FieldSums,
    first: &Replica,
    second: &Replica,
    lattice: Lattice,
    planes: &mut Planes3,
    numbers: &mut [[[i16; 64]; 64]; 9],
)
    requires first { FitsReplica lattice first.now }
    requires second { FitsReplica lattice second.now }
    ensures { TellsField lattice sums.new
        (λ b. site_overlap (spins_of lattice b first.now.planes) (spins_of lattice b second.now.planes)) }
{
    write_links(&mut sums.links, first, second, lattice);
    plane_numbers_between(first, second, lattice, planes, numbers);
    sum_planes(&mut sums.overlaps, &numbers[0], lattice.size() as usize);
    correlations(numbers, lattice, &mut sums.axis, &mut sums.face);
}

// The link sums: twice the bonds at both ends of which the replicas agree or both differ, less all bonds.
fn write_links(out: &mut [i32; 64], first: &Replica, second: &Replica, lattice: Lattice)
    requires first { FitsReplica lattice first.now }
    requires second { FitsReplica lattice second.now }
    ensures { (b : ℕ) → b < 64 → signed_at out.new b ≡ link_overlap lattice
        (site_overlap (spins_of lattice b first.now.planes) (spins_of lattice b second.now.planes)) }
{
    let bonds = 3 * lattice.sites();
    write_excesses(out, &agreeing_bonds_between(first, second, lattice), bonds);
}

/// Twice each count, less the whole.
pub(crate) fn write_excesses(out: &mut [i32; 64], counts: &Planes<20>, whole: u32)
    requires counts { (b : ℕ) → b < 64 → number counts.now.words b ≤ whole }
    requires whole { whole ≤ 786432 }
    ensures { (b : ℕ) → b < 64 → signed_at out.new b ≡ pos (2 * number counts.now.words b) -ℤ pos whole }
{
    let mut numbers = [0u32; 64];
    counts.to_numbers(&mut numbers);
    'samples: for b in 0..64usize {
        out[b] = excess(numbers[b], whole);
    }
}
