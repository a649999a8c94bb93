//! The state that an aging run begins with, and its room.

ghost use Rattle.std.specs.Prelude.{IfOk};
ghost use Rattle.plane_sweep.specs.Packed.{StandsFor, StandFits};
ghost use Rattle.scalar_rule.specs.Opening as model;

use glass_edges::NoMemory;
use plane_sweep::{Replica, Stand};
use scalar_rule::{Plan, Start};
use std::alloc::Global;
use std::marker::Model;

/// An aging run that has not begun: the state of 64 disorder samples at the quench, and room for the
/// spins of one replica.
#[derive(Drop)]
pub struct Aging {
    pub(crate) stand: Stand,
    pub(crate) kept: Replica,
}

impl Model for Aging {
    ghost use Rattle.plane_sweep.specs.declared.stand.Stand.{Stand};

    ghost Value = { Stand };

    ghost use Rattle.aging_run.specs.Keeping.{HasRoom};

    ghost view = { λ a. a.stand };

    ghost invariant = { HasRoom };
}

/// An aging run of a plan from the states that its samples begin with. All memory that it needs is
/// taken here.
///
/// # Errors
///
/// Refuses only for lack of memory.
pub fn open_aging(alloc: Global, plan: &Plan, start: Start) -> Result<Aging, NoMemory>
    ensures opening { IfOk result (StandsFor plan.now (model.opening plan.now start 0)) }
    ensures fits { IfOk result (StandFits plan.now) }
{
    let stand = Stand::opening(alloc, plan, start)?;
    let _ = plan.slots();
    let kept = stand.slots.at(0).first.copy(alloc)?;
    Ok(Aging { stand, kept })
}
