//! One replica of the ferromagnet under heat bath, from its start to its energy.

ghost use Rattle.std.specs.Prelude.{◌≡◌, ◌*◌, ◌<◌, length, IfOk};
ghost use Rattle.spin_model.specs.Couplings.{plus};
ghost use Rattle.spin_model.specs.Lattice.{volume};
ghost use Rattle.scalar_rule.specs.Opening.{all_up, seeded_words};
ghost use Rattle.scalar_rule.specs.PlainRun.{plain_configuration};
ghost use Rattle.scalar_rule.specs.Sums as sums;

use crate::bonds::{Bonds, Ferromagnet};
use crate::opening::{all_up, seeded_wheels};
use crate::plain_copy::PlainCopy;
use crate::sums::energy;
use crate::sweeps::sweep_often;
use glass_edges::NoMemory;
use lattice_geometry::Lattice;
use plain_list::Items;
use std::alloc::Global;
use threshold_table::{RuleKind, RuleRow, SlotRule};

/// What a plain run ends with.
#[derive(Drop)]
pub struct PlainOut {
    /// The energy in units of the coupling, from -3V to 3V for V sites.
    pub energy: i32,
    /// V spins in the order of the sites, true for +1.
    pub spins: Items<bool>,
}

/// Sweeps replica 0 of temperature slot 0 of the ferromagnet by heat bath, begun with every spin
/// +1, by the generators that the seed gives.
///
/// A threshold stands for a probability times 2^32, one for each count of aligned neighbours.
///
/// # Errors
///
/// Refuses only for lack of memory.
pub fn plain_run(
    alloc: Global,
    lattice: Lattice,
    sweeps: u32,
    seed: u64,
    thresholds: &[u64; 7],
) -> Result<PlainOut, NoMemory>
    ensures spins { IfOk result (λ out.
        out.spins ≡ (plain_configuration lattice sweeps seed thresholds.now).spins) }
    ensures energy { IfOk result (λ out.
        out.energy ≡ sums.energy lattice (plus 0)
        (plain_configuration lattice sweeps seed thresholds.now).spins) }
    ensures sites { IfOk result (λ out. length out.spins ≡ volume lattice) }
{
    let mut replica = opening(alloc, &lattice, seed)?;
    let bonds = Ferromagnet { lattice };
    let rule = SlotRule {
        kind: RuleKind::Heat,
        row: RuleRow {
            values: *thresholds,
        },
    };
    sweep_often(&mut replica, &lattice, &bonds, &rule, sweeps);
    let energy = energy(&lattice, &bonds, replica.spins.as_slice());
    Ok(PlainOut {
        energy,
        spins: replica.spins,
    })
}

// Replica 0 of slot 0 as it begins.
fn opening(alloc: Global, lattice: &Lattice, seed: u64) -> Result<PlainCopy, NoMemory>
    ensures spins { IfOk result (λ replica. replica.spins ≡ all_up lattice.now) }
    ensures words { IfOk result (λ replica. replica.wheels ≡ seeded_words lattice.now seed 0 0) }
{
    Ok(PlainCopy {
        spins: all_up(alloc, lattice)?,
        wheels: seeded_wheels(alloc, lattice, seed, 0, 0)?,
        replica: 0,
    })
}
