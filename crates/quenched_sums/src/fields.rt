//! Sums of the overlap field of a slot's two replicas: over the sites, over the bonds, and over the pairs of
//! sites some steps apart along an axis.

ghost use Rattle.std.specs.Prelude.{◌≡◌, ℕ, ◌/◌, ◌<◌, ◌≤◌};
ghost use Rattle.measured_sums.specs.OverlapField.{distance_correlation, link_overlap, site_overlap, total_overlap};
ghost use Rattle.plane_sums.specs.Correlations.{signed_at};
ghost use Rattle.plane_sweep.specs.Packed.{spins_of, FitsDuo};

use crate::excesses::{add_excesses, nothing, write_excesses};
use bit_totals::agreeing;
use lattice_geometry::Lattice;
use overlap_lines::{agreeing_bonds, agreeing_line};
use plane_sweep::Duo;

/// The sum over all sites.
pub(crate) fn write_overlaps(out: &mut [i32; 64], duo: &Duo, lattice: Lattice)
    requires { FitsDuo lattice duo.now }
    ensures { (b : ℕ) → b < 64 → signed_at out.new b ≡ total_overlap lattice
        (site_overlap (spins_of lattice b duo.now.first.planes) (spins_of lattice b duo.now.second.planes)) }
{
    let sites = lattice.sites();
    write_excesses(out, &agreeing(&duo.first, &duo.second), sites);
}

/// The sum over all bonds of the product at both ends.
pub(crate) fn write_links(out: &mut [i32; 64], duo: &Duo, lattice: Lattice)
    requires { FitsDuo lattice duo.now }
    ensures { (b : ℕ) → b < 64 → signed_at out.new b ≡ link_overlap lattice
        (site_overlap (spins_of lattice b duo.now.first.planes) (spins_of lattice b duo.now.second.planes)) }
{
    let bonds = 3 * lattice.sites();
    write_excesses(out, &agreeing_bonds(duo, lattice), bonds);
}

/// The sum over the three directions and all sites of the product with the site so many steps on.
pub(crate) fn write_distance(out: &mut [i32; 64], duo: &Duo, lattice: Lattice, distance: u32)
    requires fits { FitsDuo lattice duo.now }
    requires some { 1 ≤ distance }
    requires far { distance ≤ lattice / 2 }
    ensures { (b : ℕ) → b < 64 → signed_at out.new b ≡ distance_correlation lattice
        (site_overlap (spins_of lattice b duo.now.first.planes) (spins_of lattice b duo.now.second.planes)) distance }
{
    let sites = lattice.sites();
    *out = nothing();
    'directions: for d in 0..3u32 {
        add_excesses(out, &agreeing_line(duo, lattice, d, distance), sites);
    }
}
