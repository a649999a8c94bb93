//! The overlap summed over the planes of all families, as numbers.

ghost use Rattle.std.specs.Prelude.{◌≡◌, ℕ, ◌+◌, ◌*◌, ◌<◌, ◌≤◌, ℤ, pos, nat_abs, ◌-ℤ◌, [], length, slice_index, slice_index_or};
ghost use Rattle.measured_sums.specs.OverlapField.{site_overlap};
ghost use Rattle.measured_sums.specs.PlaneFamilies.{plane_sum};
ghost use Rattle.plane_sums.specs.Counts.{count_at, line_at};
ghost use Rattle.plane_sums.specs.Families.{family_at};
ghost use Rattle.plane_sums.specs.Rooms.{number_in};
ghost use Rattle.plane_sweep.specs.Packed.{spins_of, FitsDuo, FitsReplica};

use crate::counts::Counts;
use crate::families::{FAMILIES, sum_families};
use crate::room::Planes3;
use lattice_geometry::Lattice;
use plain_list::Items;
use plane_sweep::{Duo, Replica};

/// The sums of the overlap of a slot's two replicas over the planes of each family: by family (across x,
/// y and z, then across the diagonals x + y, x - y, x + z, x - z, y + z and y - z of the faces), plane
/// below the side, and sample. None is above L^2 in absolute value. Takes no memory.
pub fn plane_numbers(
    duo: &Duo,
    lattice: Lattice,
    room: &mut Planes3,
    out: &mut [[[i16; 64]; 64]; 9],
)
    requires { FitsDuo lattice duo.now }
    ensures value { (f m b : ℕ) → f < 9 → m < lattice → b < 64 → number_in out.new f m b
        ≡ plane_sum lattice (site_overlap (spins_of lattice b duo.now.first.planes)
        (spins_of lattice b duo.now.second.planes)) (family_at f) m }
    ensures within { (f m b : ℕ) → f < 9 → m < lattice → b < 64
        → nat_abs (number_in out.new f m b) ≤ 4096 }
{
    plane_numbers_between(&duo.first, &duo.second, lattice, room, out);
}

/// What `plane_numbers` writes, of any two replicas.
pub fn plane_numbers_between(
    first: &Replica,
    second: &Replica,
    lattice: Lattice,
    room: &mut Planes3,
    out: &mut [[[i16; 64]; 64]; 9],
)
    requires first { FitsReplica lattice first.now }
    requires second { FitsReplica lattice second.now }
    ensures value { (f m b : ℕ) → f < 9 → m < lattice → b < 64 → number_in out.new f m b
        ≡ plane_sum lattice (site_overlap (spins_of lattice b first.now.planes)
        (spins_of lattice b second.now.planes)) (family_at f) m }
    ensures within { (f m b : ℕ) → f < 9 → m < lattice → b < 64
        → nat_abs (number_in out.new f m b) ≤ 4096 }
{
    let size = lattice.size() as usize;
    room.lines.project(&mut room.sheets, first, second, size);
    sum_families(&mut room.totals, &room.lines, size);
    write_families(out, &room.totals, size);
}

// The numbers of all families' planes.
fn write_families(out: &mut [[[i16; 64]; 64]; 9], totals: &Items<Counts<13>>, size: usize)
    requires size { size ≤ 64 }
    requires totals { length totals.now ≡ 9 }
    ensures { (f m b : ℕ) → f < 9 → m < size → b < 64 → number_in out.new f m b
        ≡ pos (2 * count_at (line_at totals.now f) m b) -ℤ pos (size * size) }
{
    'families: for family in 0..FAMILIES {
        write_family(&mut out[family], totals.at(family), size);
    }
}

// The numbers of a family's planes.
fn write_family(out: &mut [[i16; 64]; 64], total: &Counts<13>, size: usize)
    requires { size ≤ 64 }
    ensures { (m b : ℕ) → m < size → b < 64 → slice_index_or (slice_index_or out.new m []) b (pos 0)
        ≡ pos (2 * count_at total.now.planes m b) -ℤ pos (size * size) }
{
    'planes: for m in 0..size {
        write_plane(&mut out[m], total, m, size);
    }
}

// The numbers of a plane.
fn write_plane(out: &mut [i16; 64], total: &Counts<13>, plane: usize, size: usize)
    requires size { size ≤ 64 }
    requires plane { plane < 64 }
    ensures { (b : ℕ) → b < 64 → slice_index_or out.new b (pos 0)
        ≡ pos (2 * count_at total.now.planes plane b) -ℤ pos (size * size) }
{
    let mut counts = [0u32; 64];
    total.number(plane).to_numbers(&mut counts);
    excesses(out, &counts, (size * size) as u32);
}

// Twice each count, less the number of sites.
fn excesses(out: &mut [i16; 64], counts: &[u32; 64], sites: u32)
    requires counts { (b : ℕ) → b < 64 → slice_index counts.now b < 8192 }
    requires sites { sites ≤ 4096 }
    ensures { (b : ℕ) → b < 64 → slice_index_or out.new b (pos 0)
        ≡ pos (2 * slice_index counts.now b) -ℤ pos sites }
{
    'samples: for b in 0..64usize {
        out[b] = (2 * counts[b]) as i16 - sites as i16;
    }
}
