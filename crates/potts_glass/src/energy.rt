//! The energies of all samples: the bonds between sites of one colour, counted in bit planes.

ghost use Rattle.std.specs.Prelude.{◌≡◌, ℕ, ◌+◌, ◌*◌, ◌^◌, ◌<◌, ◌≤◌, pos, ◌-ℤ◌, length};
ghost use Rattle.multispin_word.specs.Planes.{number, is_set, one_if};
ghost use Rattle.spin_model.specs.Lattice.{volume, bond, bond_count, IsLawfulSize};
ghost use Rattle.spin_model.specs.Steps.{count_below, table};
ghost use Rattle.coupling_set.specs.CouplingWords.{bonds_of};
ghost use Rattle.potts_glass.specs.PackedColours.{colours_of};
ghost use Rattle.potts_glass.specs.Potts as model;

use crate::update::{others, same};
use bit_compare::{add_count, count6};
use coupling_set::Couplings;
use lattice_geometry::Lattice;
use multispin_word::Planes;
use plain_list::Items;

/// Bonds of each sample that join sites of one colour: those with J = -1, and those with J = +1.
#[derive(Drop)]
struct EqualBonds {
    raising: Planes<20>,
    lowering: Planes<20>,
}

/// Writes the energy of each sample.
pub(crate) fn write_energies(
    lattice: &Lattice,
    couplings: &Couplings,
    sites: &Items<[u64; 2]>,
    out: &mut [i32; 64],
)
    requires size { lattice.now ≡ couplings.now.size }
    requires sites { length sites.now ≡ volume lattice.now }
    ensures { out.new ≡ table
        (λ b. model.energy lattice.now (bonds_of couplings.now b)
        (colours_of lattice.now sites.now b))
        64 }
{
    let bonds = count_bonds(lattice, couplings, sites);
    'samples: for b in 0..64u32 {
        out[b as usize] = excess(bonds.raising.number_at(b), bonds.lowering.number_at(b));
    }
}

/// One number less another.
fn excess(more: u32, less: u32) -> i32
    requires more { more < 2 ^ 20 }
    requires less { less < 2 ^ 20 }
    ensures { result ≡ pos more -ℤ pos less }
{
    more as i32 - less as i32
}

// All bonds of equal colours.
fn count_bonds(lattice: &Lattice, couplings: &Couplings, sites: &Items<[u64; 2]>) -> EqualBonds
    requires size { lattice.now ≡ couplings.now.size }
    requires sites { length sites.now ≡ volume lattice.now }
    ensures raising { (b : ℕ) → b < 64 → number result.raising.words b ≡ count_below
        (model.is_raising lattice.now (bonds_of couplings.now b)
        (colours_of lattice.now sites.now b))
        (bond_count lattice.now) }
    ensures lowering { (b : ℕ) → b < 64 → number result.lowering.words b ≡ count_below
        (model.is_lowering lattice.now (bonds_of couplings.now b)
        (colours_of lattice.now sites.now b))
        (bond_count lattice.now) }
{
    let mut bonds = EqualBonds {
        raising: Planes::zero(),
        lowering: Planes::zero(),
    };
    'sites: for site in 0..lattice.sites() {
        count_site(&mut bonds, lattice, couplings, sites, site);
    }
    bonds
}

// The three bonds that leave a site forwards, behind those of all sites before it.
fn count_site(
    bonds: &mut EqualBonds,
    lattice: &Lattice,
    couplings: &Couplings,
    sites: &Items<[u64; 2]>,
    site: u32,
)
    requires size { lattice.now ≡ couplings.now.size }
    requires sites { length sites.now ≡ volume lattice.now }
    requires lawful { IsLawfulSize lattice.now }
    requires site { site < volume lattice.now }
    requires raising { (b : ℕ) → b < 64 → number bonds.old.raising.words b ≡ count_below
        (model.is_raising lattice.now (bonds_of couplings.now b)
        (colours_of lattice.now sites.now b))
        (3 * site) }
    requires lowering { (b : ℕ) → b < 64 → number bonds.old.lowering.words b ≡ count_below
        (model.is_lowering lattice.now (bonds_of couplings.now b)
        (colours_of lattice.now sites.now b))
        (3 * site) }
    ensures raising { (b : ℕ) → b < 64 → number bonds.new.raising.words b ≡ count_below
        (model.is_raising lattice.now (bonds_of couplings.now b)
        (colours_of lattice.now sites.now b))
        (3 * (site + 1)) }
    ensures lowering { (b : ℕ) → b < 64 → number bonds.new.lowering.words b ≡ count_below
        (model.is_lowering lattice.now (bonds_of couplings.now b)
        (colours_of lattice.now sites.now b))
        (3 * (site + 1)) }
{
    let (x_raising, x_lowering) = equal_bond(lattice, couplings, sites, site, 0);
    let (y_raising, y_lowering) = equal_bond(lattice, couplings, sites, site, 1);
    let (z_raising, z_lowering) = equal_bond(lattice, couplings, sites, site, 2);
    count_three(&mut bonds.raising, x_raising, y_raising, z_raising);
    count_three(&mut bonds.lowering, x_lowering, y_lowering, z_lowering);
}

// The samples in which a bond joins sites of one colour: with J = -1, and with J = +1.
fn equal_bond(
    lattice: &Lattice,
    couplings: &Couplings,
    sites: &Items<[u64; 2]>,
    site: u32,
    d: u32,
) -> (u64, u64)
    requires size { lattice.now ≡ couplings.now.size }
    requires sites { length sites.now ≡ volume lattice.now }
    requires site { site < volume lattice.now }
    requires direction { d < 3 }
    ensures raising { (b : ℕ) → b < 64 → is_set result.0 b
        ≡ model.is_raising lattice.now (bonds_of couplings.now b)
        (colours_of lattice.now sites.now b)
        (bond site d) }
    ensures lowering { (b : ℕ) → b < 64 → is_set result.1 b
        ≡ model.is_lowering lattice.now (bonds_of couplings.now b)
        (colours_of lattice.now sites.now b)
        (bond site d) }
{
    let equal = equal_ahead(lattice, sites, site, d);
    let negative = couplings.negative(site, d);
    (negative & equal, others(negative) & equal)
}

// The samples in which a site and its forward neighbour in a direction have one colour.
fn equal_ahead(lattice: &Lattice, sites: &Items<[u64; 2]>, site: u32, d: u32) -> u64
    requires sites { length sites.now ≡ volume lattice.now }
    requires site { site < volume lattice.now }
    requires direction { d < 3 }
    ensures { (b : ℕ) → b < 64 → is_set result b
        ≡ model.is_equal lattice.now (colours_of lattice.now sites.now b) (bond site d) }
{
    let here = *sites.at(site as usize);
    same(here, *sites.at(lattice.forward(site, d) as usize))
}

// Counts the bits of three words.
fn count_three(total: &mut Planes<20>, x: u64, y: u64, z: u64)
    requires { (b : ℕ) → b < 64 → number total.old.words b ≤ 786432 }
    ensures { (b : ℕ) → b < 64 → number total.new.words b
        ≡ number total.old.words b
        + one_if (is_set x b) + one_if (is_set y b) + one_if (is_set z b) }
{
    add_count(total, &count6(&[x, y, z, 0, 0, 0]));
}
