//! The energy of one configuration, bond by bond, and the overlap of two, site by site.

ghost use Rattle.std.specs.Prelude.{◌≡◌, ℕ, ◌+◌, ◌*◌, ◌<◌, ◌≤◌, ◌-ℤ◌, pos, length};
ghost use Rattle.spin_model.specs.Lattice.{volume, bond_count};
ghost use Rattle.spin_model.specs.Words.{one_if};
ghost use Rattle.coupling_set.specs.CouplingWords.{bonds_of};
ghost use Rattle.scalar_rule.specs.Neighbours.{agree, spin};
ghost use Rattle.scalar_rule.specs.Shape.{IsLatticeVolume};
ghost use Rattle.scalar_rule.specs.Sums as model;

use crate::bonds::{Bonds, SampleBonds};
use crate::neighbours::{coupled, one_if};
use crate::plain_copy::PlainCopy;
use crate::plan::Plan;
use lattice_geometry::Lattice;

/// U of one replica in the disorder sample that is bit `bit` of its bank: the number of bonds with
/// J s s' = -1, of 3V. Takes no memory.
pub fn unsatisfied(copy: &PlainCopy, plan: &Plan, bit: u32) -> u32
    requires spins { length copy.now.spins ≡ volume plan.now.size }
    requires bit { bit < 64 }
    ensures value { result ≡ model.unsatisfied plan.now.size (bonds_of plan.now.couplings bit) copy.now.spins }
    ensures within { result ≤ bond_count plan.now.size }
{
    let bonds = SampleBonds::of(plan.couplings(), bit);
    unsatisfied_by(&plan.lattice(), &bonds, copy.spins.as_slice())
}

/// Q: at how many of V sites two replicas agree. Both have V spins of one lattice. Takes no memory.
pub fn agreeing(a: &PlainCopy, b: &PlainCopy) -> u32
    requires sites { IsLatticeVolume (length a.now.spins) }
    requires same { length b.now.spins ≡ length a.now.spins }
    ensures value { (l : ℕ) → length a.now.spins ≡ volume l
        → result ≡ model.agreeing l a.now.spins b.now.spins }
    ensures within { result ≤ length a.now.spins }
{
    let (first, second) = (a.spins.as_slice(), b.spins.as_slice());
    let mut count = 0;
    'sites: for site in 0..first.len() {
        count += agreeing_at(first, second, site);
    }
    count
}

// 1 where two configurations agree.
fn agreeing_at(first: &[bool], second: &[bool], site: usize) -> u32
    requires first { site < length first.now }
    requires second { site < length second.now }
    ensures value { result ≡ one_if (agree (spin first.now site) (spin second.now site)) }
    ensures within { result ≤ 1 }
{
    one_if(first[site] == second[site])
}

/// The energy in units of the coupling, from -3V to 3V for V sites.
pub(crate) fn energy<B: Bonds>(lattice: &Lattice, bonds: &B, spins: &[bool]) -> i32
    requires size { B.size bonds.now ≡ lattice.now }
    requires spins { length spins.now ≡ volume lattice.now }
    ensures { result ≡ model.energy lattice.now (B.negative bonds.now) spins.now }
{
    let count = unsatisfied_by(lattice, bonds, spins);
    excess(count, 3 * lattice.sites())
}

/// Twice a part, less the whole: the energy of 3V bonds from U, the overlap of V sites from Q.
pub fn excess(part: u32, whole: u32) -> i32
    requires part { part ≤ whole }
    requires whole { whole ≤ 786432 }
    ensures { result ≡ pos (2 * part) -ℤ pos whole }
{
    (2 * part) as i32 - whole as i32
}

/// The number of bonds with J s s' = -1.
pub(crate) fn unsatisfied_by<B: Bonds>(lattice: &Lattice, bonds: &B, spins: &[bool]) -> u32
    requires size { B.size bonds.now ≡ lattice.now }
    requires spins { length spins.now ≡ volume lattice.now }
    ensures value { result ≡ model.unsatisfied lattice.now (B.negative bonds.now) spins.now }
    ensures within { result ≤ bond_count lattice.now }
{
    let mut count = 0;
    'bonds: for n in 0..3 * lattice.sites() {
        count += unsatisfied_at(lattice, bonds, spins, n);
    }
    count
}

// 1 where bond n has J s s' = -1.
fn unsatisfied_at<B: Bonds>(lattice: &Lattice, bonds: &B, spins: &[bool], n: u32) -> u32
    requires size { B.size bonds.now ≡ lattice.now }
    requires spins { length spins.now ≡ volume lattice.now }
    requires bond { n < bond_count lattice.now }
    ensures value { result ≡ one_if (model.is_unsatisfied lattice.now (B.negative bonds.now) spins.now n) }
    ensures within { result ≤ 1 }
{
    let site = n / 3;
    let neighbour = lattice.forward(site, n % 3) as usize;
    let other = coupled(bonds.is_negative(site, n % 3), spins[neighbour]);
    one_if(other != spins[site as usize])
}
