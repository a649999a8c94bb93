//! The plans of what is timed, and their thresholds.

ghost use Rattle.std.specs.Prelude.{◌≡◌, IfOk};
ghost use Rattle.scalar_rule.specs.Plan.{slots_of};

use anyhow::Result;
use coupling_set::Couplings;
use lattice_geometry::Lattice;
use scalar_rule::Plan;
use std::alloc::Global;
use threshold_table::{RuleKind, RuleRow, RuleTable, SwapTable};

/// The seed of the couplings, of the start and of the generators.
pub const SEED: u64 = 7;

/// Heat bath at the inverse temperature 0.9.
const HEAT: RuleRow = RuleRow {
    values: [
        87613, 3204169, 114233218, 2147483648, 4180734078, 4291763127, 4294879683,
    ],
};

/// Metropolis at the inverse temperature 0.9.
const METROPOLIS: RuleRow = RuleRow {
    values: [117354494, 3206562, 87615, 0, 0, 0, 0],
};

/// A plan of one temperature slot with random couplings, the same as in bench/sweep.c.
pub fn swept_plan(alloc: Global, lattice: Lattice, kind: RuleKind) -> Result<Plan>
    ensures size { IfOk result (λ plan. plan.size ≡ lattice) }
    ensures slots { IfOk result (λ plan. slots_of plan ≡ 1) }
{
    let rules = match kind {
        RuleKind::Heat => RuleTable::from_rows(alloc, kind, &[HEAT])?,
        RuleKind::Metropolis => RuleTable::from_rows(alloc, kind, &[METROPOLIS])?,
    };
    let swaps = SwapTable::from_rows(alloc, &[[0; 1]; 0])?;
    let couplings = Couplings::random(alloc, lattice, SEED)?;
    Ok(Plan::new(lattice, rules, swaps, couplings, 1, SEED))
}

/// A plan of 32 slots, the most of all, with random couplings.
pub fn greatest_plan(alloc: Global, size: u32) -> Result<Plan> {
    let lattice = Lattice::of(size)?;
    let rules = RuleTable::from_rows(alloc, RuleKind::Metropolis, &[METROPOLIS; 32])?;
    let swaps = SwapTable::from_rows(alloc, &[[0; 1]; 31])?;
    let couplings = Couplings::random(alloc, lattice, SEED)?;
    Ok(Plan::new(lattice, rules, swaps, couplings, 1, SEED))
}

/// A plan of one slot with these couplings, whose rule is not used.
pub fn summed_plan(alloc: Global, lattice: Lattice, couplings: Couplings) -> Result<Plan>
    requires { couplings.size ≡ lattice }
    ensures { IfOk result (λ plan. plan.size ≡ lattice) }
{
    let rules = RuleTable::from_rows(alloc, RuleKind::Heat, &[RuleRow { values: [0; 7] }])?;
    let swaps = SwapTable::from_rows(alloc, &[[0; 1]; 0])?;
    Ok(Plan::new(lattice, rules, swaps, couplings, 1, 7))
}
