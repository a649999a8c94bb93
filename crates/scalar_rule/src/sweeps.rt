//! The sweeps of one replica of one disorder sample.

ghost use Rattle.std.specs.Prelude.{◌≡◌, ◌*◌, ◌<◌, length};
ghost use Rattle.spin_model.specs.Lattice.{volume};
ghost use Rattle.scalar_rule.specs.Epoch.{swept_copy};
ghost use Rattle.scalar_rule.specs.Plan.{dynamics_of, slots_of};
ghost use Rattle.scalar_rule.specs.Replica.{configuration_of, with_configuration};
ghost use Rattle.scalar_rule.specs.Shape.{FitsCopy};
ghost use Rattle.scalar_rule.specs.SlotRules.{dynamics_with, HasThresholds};
ghost use Rattle.scalar_rule.specs.Sweep as model;

use crate::bonds::{Bonds, SampleBonds};
use crate::plain_copy::PlainCopy;
use crate::plan::Plan;
use crate::planes::half_sweep_by;
use lattice_geometry::Lattice;
use threshold_table::SlotRule;

/// The half sweep of a checkerboard colour in one replica of a temperature slot, in the disorder
/// sample that is bit `bit` of its bank: the colour's sites in rising order, one draw a site. Takes
/// no memory.
pub fn half_sweep(copy: &mut PlainCopy, plan: &Plan, bit: u32, slot: u32, colour: u32)
    requires copy { FitsCopy plan.now.size copy.old }
    requires bit { bit < 64 }
    requires slot { slot < slots_of plan.now }
    requires colour { colour < 2 }
    ensures swept { copy.new ≡ with_configuration copy.old
        (model.half_sweep (dynamics_of plan.now bit slot) colour (configuration_of copy.old)) }
    ensures fits { FitsCopy plan.now.size copy.new }
{
    let bonds = SampleBonds::of(plan.couplings(), bit);
    half_sweep_by(
        copy,
        &plan.lattice(),
        &bonds,
        &slot_rule(plan, slot),
        colour,
    );
}

/// A sweep of one replica of a temperature slot: the half sweep of colour 0, then that of colour 1,
/// which sees the new spins of colour 0. Takes no memory.
pub fn sweep(copy: &mut PlainCopy, plan: &Plan, bit: u32, slot: u32)
    requires copy { FitsCopy plan.now.size copy.old }
    requires bit { bit < 64 }
    requires slot { slot < slots_of plan.now }
    ensures swept { copy.new ≡ with_configuration copy.old
        (model.sweep (dynamics_of plan.now bit slot) (configuration_of copy.old)) }
    ensures fits { FitsCopy plan.now.size copy.new }
{
    let bonds = SampleBonds::of(plan.couplings(), bit);
    sweep_by(copy, &plan.lattice(), &bonds, &slot_rule(plan, slot));
}

/// The sweeps of an epoch of one replica of a temperature slot.
pub(crate) fn epoch_sweeps(copy: &mut PlainCopy, plan: &Plan, bit: u32, slot: u32)
    requires copy { FitsCopy plan.now.size copy.old }
    requires bit { bit < 64 }
    requires slot { slot < slots_of plan.now }
    ensures swept { copy.new ≡ swept_copy plan.now bit slot copy.old }
    ensures fits { FitsCopy plan.now.size copy.new }
{
    let bonds = SampleBonds::of(plan.couplings(), bit);
    sweep_often(
        copy,
        &plan.lattice(),
        &bonds,
        &slot_rule(plan, slot),
        plan.sweeps(),
    );
}

// The spin rule of a slot.
fn slot_rule(plan: &Plan, slot: u32) -> SlotRule
    requires { slot < slots_of plan.now }
    ensures { HasThresholds plan.now.rules slot result }
{
    plan.rules().rule(slot)
}

/// That many sweeps.
pub(crate) fn sweep_often<B: Bonds>(
    replica: &mut PlainCopy,
    lattice: &Lattice,
    bonds: &B,
    rule: &SlotRule,
    count: u32,
)
    requires size { B.size bonds.now ≡ lattice.now }
    requires spins { length replica.old.spins ≡ volume lattice.now }
    requires wheels { length replica.old.wheels ≡ 2 * lattice.now }
    ensures swept { configuration_of replica.new ≡ model.sweeps
        (dynamics_with lattice.now rule.now (B.negative bonds.now))
        count
        (configuration_of replica.old) }
    ensures spins { length replica.new.spins ≡ length replica.old.spins }
    ensures wheels { length replica.new.wheels ≡ length replica.old.wheels }
    ensures label { replica.new.replica ≡ replica.old.replica }
{
    'sweeps: for _ in 0..count {
        sweep_by(replica, lattice, bonds, rule);
    }
}

// A sweep: colour 0, then colour 1.
fn sweep_by<B: Bonds>(replica: &mut PlainCopy, lattice: &Lattice, bonds: &B, rule: &SlotRule)
    requires size { B.size bonds.now ≡ lattice.now }
    requires spins { length replica.old.spins ≡ volume lattice.now }
    requires wheels { length replica.old.wheels ≡ 2 * lattice.now }
    ensures swept { configuration_of replica.new ≡ model.sweep
        (dynamics_with lattice.now rule.now (B.negative bonds.now))
        (configuration_of replica.old) }
    ensures spins { length replica.new.spins ≡ length replica.old.spins }
    ensures wheels { length replica.new.wheels ≡ length replica.old.wheels }
    ensures label { replica.new.replica ≡ replica.old.replica }
{
    half_sweep_by(replica, lattice, bonds, rule, 0);
    half_sweep_by(replica, lattice, bonds, rule, 1);
}
