//! What a sweep depends on besides spins and draws.

ghost use Rattle.std.specs.Prelude.{◌≡◌, ◌<◌};
ghost use Rattle.scalar_rule.specs.Plan.{slots_of};
ghost use Rattle.scalar_rule.specs.SlotRules.{HasThresholds};

use crate::order::Turn;
use coupling_set::Couplings;
use local_rule::ReadyRule;
use scalar_rule::Plan;

/// What the sweep of a replica depends on besides spins and draws.
#[derive(Clone, Copy)]
pub struct Dynamics<'a> {
    pub couplings: &'a Couplings,
    pub rule: &'a ReadyRule,
}

/// The sites of a colour in plane `z`, and what their new spins depend on besides spins and draws.
#[derive(Clone, Copy)]
pub struct HalfPlane<'a> {
    pub couplings: &'a Couplings,
    pub rule: &'a ReadyRule,
    /// 0 or 1.
    pub colour: u32,
    /// From 0, below the lattice's size.
    pub z: u32,
}

/// The spin rule of a temperature slot, made ready for any number of sweeps.
pub fn rule_of_slot(plan: &Plan, slot: u32) -> ReadyRule
    requires { slot < slots_of plan.now }
    ensures { HasThresholds plan.now.rules slot result }
{
    ReadyRule::of(&plan.rules().rule(slot))
}

/// The sites of the plane of a turn.
#[inline(always)]
pub fn sites_of<'a>(dynamics: &Dynamics<'a>, turn: &Turn) -> HalfPlane<'a>
    ensures { result ≡ (record { couplings = dynamics.now.couplings; rule = dynamics.now.rule; colour = turn.now.colour; z = turn.now.z }) }
{
    HalfPlane {
        couplings: dynamics.couplings,
        rule: dynamics.rule,
        colour: turn.colour,
        z: turn.z,
    }
}
