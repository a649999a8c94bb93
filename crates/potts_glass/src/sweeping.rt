//! A half sweep in all samples at once: plane by plane, row by row, in place.

ghost use Rattle.std.specs.Prelude.{◌≡◌, ℕ, ◌+◌, ◌*◌, ◌%◌, ◌<◌, length, slice_index, slice_set};
ghost use Rattle.spin_model.specs.Lattice.{volume, site_at, place_in_plane};
ghost use Rattle.spin_model.specs.Steps.{steps};
ghost use Rattle.coupling_set.specs.CouplingWords.{bonds_of};
ghost use Rattle.potts_glass.specs.PackedColours.{colours_of};
ghost use Rattle.potts_glass.specs.Potts as model;
ghost use Rattle.potts_glass.specs.PottsStates.{dynamics_on};
ghost use Rattle.potts_glass.specs.SitesBeside.{renewed, AreBonds};

use crate::beside::{steps_of, update_sites};
use crate::fours::{Bonds, four_draws, lend, near_four, negative_four, put_from, words_from};
use crate::surroundings::{near, negative};
use crate::update::{PottsRow, potts_update};
use coupling_set::Couplings;
use lattice_geometry::Lattice;
use plain_list::Items;
use pr_generator::Wheel;
use spin_model::GREATEST_HALF_PLANE;

/// The most draws of a plane: two for each of its sites of one class.
const DRAWS: usize = 2 * GREATEST_HALF_PLANE;

/// What all sites of a half sweep share: where they stand, their bonds, the thresholds of their
/// update, and the class that is swept.
#[derive(Clone, Copy)]
struct Sweep<'a> {
    lattice: &'a Lattice,
    couplings: &'a Couplings,
    row: &'a PottsRow,
    class: u32,
}

/// The half sweep of a class: its sites in rising order, two draws a site. Takes no memory.
pub(crate) fn half_sweep(
    sites: &mut Items<[u64; 2]>,
    wheels: &mut Items<Wheel>,
    lattice: &Lattice,
    couplings: &Couplings,
    row: &PottsRow,
    class: u32,
)
    requires size { lattice.now ≡ couplings.now.size }
    requires sites { length sites.old ≡ volume lattice.now }
    requires wheels { length wheels.old ≡ 2 * lattice.now }
    requires class { class < 2 }
    ensures colours { (b : ℕ) → b < 64 → colours_of lattice.now sites.new b ≡ steps
        (model.visit
        (dynamics_on lattice.now couplings.now row.now.values b)
        (model.site_draw lattice.now wheels.old)
        class)
        0
        (volume lattice.now)
        (colours_of lattice.now sites.old b) }
    ensures words { wheels.new
        ≡ steps (model.plane_drawn lattice.now class) 0 lattice.now wheels.old }
    ensures sites { length sites.new ≡ length sites.old }
    ensures wheels { length wheels.new ≡ length wheels.old }
{
    let mut draws = [0u32; DRAWS];
    let sweep = Sweep {
        lattice,
        couplings,
        row,
        class,
    };
    half_sweep_with(sites, wheels, &sweep, &mut draws);
}

// The half sweep by way of a buffer for the draws of a plane.
fn half_sweep_with(
    sites: &mut Items<[u64; 2]>,
    wheels: &mut Items<Wheel>,
    sweep: &Sweep,
    draws: &mut [u32],
)
    requires size { sweep.now.lattice.now ≡ sweep.now.couplings.now.size }
    requires sites { length sites.old ≡ volume sweep.now.lattice.now }
    requires wheels { length wheels.old ≡ 2 * sweep.now.lattice.now }
    requires class { sweep.now.class < 2 }
    requires room { length draws.old ≡ DRAWS }
    ensures colours { (b : ℕ) → b < 64 → colours_of sweep.now.lattice.now sites.new b ≡ steps
        (model.visit
        (dynamics_on sweep.now.lattice.now sweep.now.couplings.now sweep.now.row.now.values b)
        (model.site_draw sweep.now.lattice.now wheels.old)
        sweep.now.class)
        0
        (volume sweep.now.lattice.now)
        (colours_of sweep.now.lattice.now sites.old b) }
    ensures words { wheels.new
        ≡ steps (model.plane_drawn sweep.now.lattice.now sweep.now.class) 0 sweep.now.lattice.now wheels.old }
    ensures sites { length sites.new ≡ length sites.old }
    ensures wheels { length wheels.new ≡ length wheels.old }
{
    let size = sweep.lattice.size();
    let plane_draws = &mut draws[..(size * size) as usize];
    'planes: for z in 0..size {
        // Each site of the class has its draws, used or not, so that all samples can share them.
        wheels
            .at_mut((sweep.class * size + z) as usize)
            .fill(plane_draws);
        sweep_plane(sites, sweep, plane_draws, z);
    }
}

// The sites of plane z, row by row.
fn sweep_plane(sites: &mut Items<[u64; 2]>, sweep: &Sweep, draws: &[u32], z: u32)
    requires size { sweep.now.lattice.now ≡ sweep.now.couplings.now.size }
    requires sites { length sites.old ≡ volume sweep.now.lattice.now }
    requires draws { length draws.now ≡ sweep.now.lattice.now * sweep.now.lattice.now }
    requires class { sweep.now.class < 2 }
    requires plane { z < sweep.now.lattice.now }
    ensures colours { (b : ℕ) → b < 64 → colours_of sweep.now.lattice.now sites.new b ≡ steps
        (model.visit
        (dynamics_on sweep.now.lattice.now sweep.now.couplings.now sweep.now.row.now.values b)
        (λ i m. slice_index draws.now (2 * place_in_plane sweep.now.lattice.now i + m))
        sweep.now.class)
        (z * (sweep.now.lattice.now * sweep.now.lattice.now))
        (sweep.now.lattice.now * sweep.now.lattice.now)
        (colours_of sweep.now.lattice.now sites.old b) }
    ensures sites { length sites.new ≡ length sites.old }
{
    let bonds = lend(sweep.couplings, sweep.lattice, sweep.class, z);
    'rows: for y in 0..sweep.lattice.size() {
        sweep_row(sites, sweep, &bonds, draws, y, z);
    }
}

// The sites of the class in row y of plane z: one of each two neighbours in x.
fn sweep_row(
    sites: &mut Items<[u64; 2]>,
    sweep: &Sweep,
    bonds: &Bonds,
    draws: &[u32],
    y: u32,
    z: u32,
)
    requires bonds { AreBonds sweep.now.couplings.now sweep.now.class z bonds.now }
    requires size { sweep.now.lattice.now ≡ sweep.now.couplings.now.size }
    requires sites { length sites.old ≡ volume sweep.now.lattice.now }
    requires draws { length draws.now ≡ sweep.now.lattice.now * sweep.now.lattice.now }
    requires class { sweep.now.class < 2 }
    requires row { y < sweep.now.lattice.now }
    requires plane { z < sweep.now.lattice.now }
    ensures colours { (b : ℕ) → b < 64 → colours_of sweep.now.lattice.now sites.new b ≡ steps
        (model.visit
        (dynamics_on sweep.now.lattice.now sweep.now.couplings.now sweep.now.row.now.values b)
        (λ i m. slice_index draws.now (2 * place_in_plane sweep.now.lattice.now i + m))
        sweep.now.class)
        (z * (sweep.now.lattice.now * sweep.now.lattice.now) + y * sweep.now.lattice.now)
        sweep.now.lattice.now
        (colours_of sweep.now.lattice.now sites.old b) }
    ensures sites { length sites.new ≡ length sites.old }
{
    let half = sweep.lattice.size() / 2;
    let parity = (sweep.class + y + z) % 2;
    'fours: for j in 0..half / 4 {
        update_four(sites, sweep, bonds, draws, (8 * j + parity, y, z));
    }
    'pairs: for k in half / 4 * 4..half {
        let first = 2 * (y * half + k) as usize;
        update_site(
            sites,
            sweep,
            (2 * k + parity, y, z),
            draws[first],
            draws[first + 1],
        );
    }
}

// The new colours of four sites of the row, every second one from these coordinates on.
#[inline(always)]
fn update_four(
    sites: &mut Items<[u64; 2]>,
    sweep: &Sweep,
    bonds: &Bonds,
    draws: &[u32],
    at: (u32, u32, u32),
)
    requires bonds { AreBonds sweep.now.couplings.now sweep.now.class at.2 bonds.now }
    requires size { sweep.now.lattice.now ≡ sweep.now.couplings.now.size }
    requires sites { length sites.old ≡ volume sweep.now.lattice.now }
    requires draws { length draws.now ≡ sweep.now.lattice.now * sweep.now.lattice.now }
    requires class { (at.0 + at.1 + at.2) % 2 ≡ sweep.now.class }
    requires x { at.0 + 6 < sweep.now.lattice.now }
    requires y { at.1 < sweep.now.lattice.now }
    requires z { at.2 < sweep.now.lattice.now }
    ensures colours { (b : ℕ) → b < 64 → colours_of sweep.now.lattice.now sites.new b ≡ renewed
        (dynamics_on sweep.now.lattice.now sweep.now.couplings.now sweep.now.row.now.values b)
        (λ i m. slice_index draws.now (2 * place_in_plane sweep.now.lattice.now i + m))
        at.0 at.1 at.2 4
        (colours_of sweep.now.lattice.now sites.old b) }
    ensures sites { length sites.new ≡ length sites.old }
{
    let (x, y, z) = at;
    let half = sweep.lattice.size() / 2;
    let [firsts, seconds] = four_draws(draws, 2 * (y * half + x / 2) as usize);
    let first = sweep.lattice.site(x, y, z) as usize;
    let own = words_from(sites, first);
    let near = near_four(sites, sweep.lattice, at);
    let negative = negative_four(bonds, sweep.couplings, sweep.class, at);
    let steps = steps_of(&firsts);
    let new = update_sites(&steps, &seconds, sweep.row, &own, &near, &negative);
    put_from(sites, first, &new);
}

// The new colours of the site at these coordinates.
fn update_site(
    sites: &mut Items<[u64; 2]>,
    sweep: &Sweep,
    at: (u32, u32, u32),
    first: u32,
    second: u32,
)
    requires size { sweep.now.lattice.now ≡ sweep.now.couplings.now.size }
    requires sites { length sites.old ≡ volume sweep.now.lattice.now }
    requires x { at.0 < sweep.now.lattice.now }
    requires y { at.1 < sweep.now.lattice.now }
    requires z { at.2 < sweep.now.lattice.now }
    ensures colours { (b : ℕ) → b < 64 → colours_of sweep.now.lattice.now sites.new b ≡ slice_set
        (colours_of sweep.now.lattice.now sites.old b)
        (site_at sweep.now.lattice.now at.0 at.1 at.2)
        (model.new_colour sweep.now.row.now.values (model.step_of first) second
        (model.around sweep.now.lattice.now (bonds_of sweep.now.couplings.now b) (colours_of sweep.now.lattice.now sites.old b)
        (site_at sweep.now.lattice.now at.0 at.1 at.2))
        (slice_index (colours_of sweep.now.lattice.now sites.old b) (site_at sweep.now.lattice.now at.0 at.1 at.2))) }
    ensures sites { length sites.new ≡ length sites.old }
{
    let near = near(sites, sweep.lattice, at);
    let negative = negative(sweep.couplings, sweep.lattice, at);
    let site = sweep.lattice.site(at.0, at.1, at.2) as usize;
    let own = *sites.at(site);
    *sites.at_mut(site) = potts_update(step_of(first), second, sweep.row, own, &near, &negative);
}

// The step of a draw: 0, 1 or 2.
fn step_of(draw: u32) -> u32
    ensures value { result ≡ model.step_of draw }
    ensures within { result < 3 }
{
    (3 * draw as u64 / 4294967296) as u32
}
