//! The update of one spin by the rule of its temperature slot.

ghost use Rattle.std.specs.Prelude.{◌≡◌, ◌<◌, ◌≤◌, length};
ghost use Rattle.spin_model.specs.Lattice.{volume};
ghost use Rattle.spin_model.specs.SiteRule as rules;
ghost use Rattle.threshold_table.specs.Tables.{rule_of};
ghost use Rattle.scalar_rule.specs.Neighbours as model;

use crate::bonds::Bonds;
use crate::neighbours::{aligned, satisfied};
use lattice_geometry::Lattice;
use threshold_table::{RuleKind, RuleRow, SlotRule};

/// The new spin of a site, by its draw.
pub(crate) fn new_spin<B: Bonds>(
    lattice: &Lattice,
    bonds: &B,
    rule: &SlotRule,
    spins: &[bool],
    draw: u32,
    site: u32,
) -> bool
    requires size { B.size bonds.now ≡ lattice.now }
    requires spins { length spins.now ≡ volume lattice.now }
    requires site { site < volume lattice.now }
    ensures { result ≡ rules.new_spin
        (rule_of rule.now.kind)
        rule.now.row.values
        (model.aligned lattice.now (B.negative bonds.now) spins.now site)
        (model.satisfied lattice.now (B.negative bonds.now) spins.now site)
        draw
        (model.spin spins.now site) }
{
    match rule.kind {
        RuleKind::Heat => heat_bath(&rule.row, aligned(lattice, bonds, spins, site), draw),
        RuleKind::Metropolis => {
            let count = satisfied(lattice, bonds, spins, site);
            metropolis(&rule.row, count, draw, spins[site as usize])
        }
    }
}

// Heat bath: the old spin does not matter.
fn heat_bath(row: &RuleRow, aligned: u32, draw: u32) -> bool
    requires { aligned ≤ 6 }
    ensures { result ≡ rules.heat_bath row.now.values aligned draw }
{
    (draw as u64) < row.values[aligned as usize]
}

// Metropolis: a flip that costs nothing is always made.
fn metropolis(row: &RuleRow, satisfied: u32, draw: u32, spin: bool) -> bool
    requires { satisfied ≤ 6 }
    ensures { result ≡ rules.metropolis row.now.values satisfied draw spin }
{
    let flips = satisfied <= 3 || (draw as u64) < row.values[(satisfied - 4) as usize];
    if flips { !spin } else { spin }
}
