//! The sweep of all 64 samples of one replica.

ghost use Rattle.std.specs.Prelude.{◌≡◌, ℕ, ◌*◌, ◌<◌, ◌≤◌, ◌&&◌, nat_le, nat_lt, length, All};
ghost use Rattle.plane_sweep.specs.Order.{FitsColours, SweepsTurn};
ghost use Rattle.plane_sweep.specs.Packed.{part_copy, FitsPlane, FitsReplica};
ghost use Rattle.plane_sweep.specs.PlaneSweep.{CanSweep, SweepsPlane, SweepsColours};
ghost use Rattle.plane_sweep.specs.Storing.{Changed};
ghost use Rattle.scalar_rule.specs.Plan.{dynamics_of, slots_of};
ghost use Rattle.scalar_rule.specs.Replica.{configuration_of, with_configuration};
ghost use Rattle.scalar_rule.specs.SlotRules.{HasThresholds};
ghost use Rattle.scalar_rule.specs.Sweep as model;
ghost use Rattle.spin_model.specs.Lattice.{half_plane, IsLawfulSize};

use crate::by_size;
use crate::draws::{PLANE_DRAWS, SMALL_DRAWS, is_small};
use crate::dynamics::{Dynamics, HalfPlane, rule_of_slot, sites_of};
use crate::order::{Turn, first_turn, turn_after};
use crate::replica::{Plane, Replica};
use crate::rows::sweep_words;
use crate::sizes::side_of;
use local_rule::ReadyRule;
use scalar_rule::Plan;
use std::thread;
use std::thread::Threads;

// The least size whose planes are cut in pieces, which threads sweep: a smaller lattice is done sooner than
// they start.
const LEAST_FORKED: usize = 48;

/// Whether the planes of a lattice of this size are cut where there may be so many pieces.
#[inline]
pub fn is_forked(size: usize, pieces: usize) -> bool
    ensures { result ≡ (nat_lt 1 pieces && nat_le 48 size) }
{
    pieces > 1 && size >= LEAST_FORKED
}

/// A sweep of one replica of a temperature slot, in all 64 samples at once: the half sweep of colour
/// 0, then that of colour 1, which sees the new spins of colour 0. The planes of a colour are cut into
/// at most as many runs as there are `pieces`, 1 to 16, which are swept by fork and join; those of a
/// lattice too small to gain are one run. What it leaves does not depend on `pieces`. Takes no memory.
pub fn sweep<R: Threads + Sync>(rt: &R, replica: &mut Replica, plan: &Plan, slot: u32, pieces: u32)
    requires replica { FitsReplica plan.now.size replica.old }
    requires slot { slot < slots_of plan.now }
    requires some_pieces { 1 ≤ pieces }
    requires few_pieces { pieces ≤ 16 }
    ensures swept { (b : ℕ) → b < 64 → part_copy plan.now.size b replica.new
        ≡ with_configuration (part_copy plan.now.size b replica.old)
        (model.sweep (dynamics_of plan.now b slot) (configuration_of (part_copy plan.now.size b replica.old))) }
    ensures fits { FitsReplica plan.now.size replica.new }
{
    let rule = rule_of_slot(plan, slot);
    sweep_replica(rt, replica, plan, &rule, pieces as usize);
}

/// That many sweeps of a replica of a temperature slot, as `sweep` makes one.
pub fn sweep_often<R: Threads + Sync>(
    rt: &R,
    replica: &mut Replica,
    plan: &Plan,
    slot: u32,
    pieces: u32,
    count: u32,
)
    requires replica { FitsReplica plan.now.size replica.old }
    requires slot { slot < slots_of plan.now }
    requires some_pieces { 1 ≤ pieces }
    requires few_pieces { pieces ≤ 16 }
    ensures swept { (b : ℕ) → b < 64 → part_copy plan.now.size b replica.new
        ≡ with_configuration (part_copy plan.now.size b replica.old)
        (model.sweeps (dynamics_of plan.now b slot) count (configuration_of (part_copy plan.now.size b replica.old))) }
    ensures fits { FitsReplica plan.now.size replica.new }
{
    let rule = rule_of_slot(plan, slot);
    'sweeps: for _ in 0..count {
        sweep_replica(rt, replica, plan, &rule, pieces as usize);
    }
}

// A sweep by the rule of a slot.
fn sweep_replica<R: Threads + Sync>(
    rt: &R,
    replica: &mut Replica,
    plan: &Plan,
    rule: &ReadyRule,
    pieces: usize,
)
    requires replica { FitsReplica plan.now.size replica.old }
    requires pieces { 1 ≤ pieces }
    ensures swept { (slot b : ℕ) → HasThresholds plan.now.rules slot rule.now → b < 64
        → part_copy plan.now.size b replica.new
        ≡ with_configuration (part_copy plan.now.size b replica.old)
        (model.sweep (dynamics_of plan.now b slot) (configuration_of (part_copy plan.now.size b replica.old))) }
    ensures fits { FitsReplica plan.now.size replica.new }
{
    let dynamics = Dynamics {
        couplings: plan.couplings(),
        rule,
    };
    let size = plan.lattice().size() as usize;
    let planes = replica.planes.as_mut_slice();
    sweep_colours(rt, planes, &dynamics, size, pieces);
}

// A sweep of a list of planes. The room for the draws is cleared in each sweep, so a small lattice
// takes less of it.
fn sweep_colours<R: Threads + Sync>(
    rt: &R,
    planes: &mut [Plane],
    dynamics: &Dynamics,
    size: usize,
    pieces: usize,
)
    requires size { size ≡ dynamics.now.couplings.now.size }
    requires pieces { 1 ≤ pieces }
    requires lawful { IsLawfulSize dynamics.now.couplings.now.size }
    requires planes { FitsColours dynamics.now.couplings.now.size planes.old }
    ensures { SweepsColours dynamics.now.couplings.now dynamics.now.rule.now planes.old planes.new }
{
    if is_forked(size, pieces) {
        fork_both(rt, planes, dynamics, size, pieces);
    } else if is_small(size) {
        sweep_in_order(planes, dynamics, &mut [0u32; SMALL_DRAWS]);
    } else {
        sweep_in_order(planes, dynamics, &mut [0u32; PLANE_DRAWS]);
    }
}

// A sweep in one run, by code of its own for many sizes.
fn sweep_in_order(planes: &mut [Plane], dynamics: &Dynamics, draws: &mut [u32])
    requires lawful { IsLawfulSize dynamics.now.couplings.now.size }
    requires room { half_plane dynamics.now.couplings.now.size ≤ length draws.old }
    requires planes { FitsColours dynamics.now.couplings.now.size planes.old }
    ensures { SweepsColours dynamics.now.couplings.now dynamics.now.rule.now planes.old planes.new }
{
    by_size!(
        dynamics.couplings.size(),
        sweep_turns(planes, dynamics, draws)
    );
}

// All turns of a sweep, by code for a size, or for any where that is 0.
fn sweep_turns<const SIZE: usize>(planes: &mut [Plane], dynamics: &Dynamics, draws: &mut [u32])
    requires size { 0 < SIZE → dynamics.now.couplings.now.size ≡ SIZE }
    requires lawful { IsLawfulSize dynamics.now.couplings.now.size }
    requires room { half_plane dynamics.now.couplings.now.size ≤ length draws.old }
    requires planes { FitsColours dynamics.now.couplings.now.size planes.old }
    ensures { SweepsColours dynamics.now.couplings.now dynamics.now.rule.now planes.old planes.new }
{
    let size = side_of::<SIZE>(dynamics.couplings);
    let mut turn = first_turn();
    'turns: for i in 0..2 * size {
        sweep_turn::<SIZE>(planes, &sites_of(dynamics, &turn), draws);
        turn = turn_after(&turn, size);
    }
}

// The plane of a turn, by the planes of the other colour.
#[inline(always)]
fn sweep_turn<const SIZE: usize>(planes: &mut [Plane], sites: &HalfPlane, draws: &mut [u32])
    requires size { 0 < SIZE → sites.now.couplings.now.size ≡ SIZE }
    requires lawful { IsLawfulSize sites.now.couplings.now.size }
    requires planes { FitsColours sites.now.couplings.now.size planes.old }
    requires room { half_plane sites.now.couplings.now.size ≤ length draws.old }
    requires colour { sites.now.colour < 2 }
    requires plane { sites.now.z < sites.now.couplings.now.size }
    ensures { SweepsTurn sites.now.couplings.now sites.now.rule.now sites.now.colour sites.now.z planes.old planes.new }
{
    let z = sites.z as usize;
    let (first, second) = planes.split_at_mut(side_of::<SIZE>(sites.couplings) as usize);
    if sites.colour == 0 {
        sweep_plane::<SIZE>(&mut first[z], second, sites, draws);
    } else {
        sweep_plane::<SIZE>(&mut second[z], first, sites, draws);
    }
}

// Colour 0 and then colour 1, each in at most so many runs of planes.
fn fork_both<R: Threads + Sync>(
    rt: &R,
    planes: &mut [Plane],
    dynamics: &Dynamics,
    size: usize,
    pieces: usize,
)
    requires size { size ≡ dynamics.now.couplings.now.size }
    requires lawful { IsLawfulSize dynamics.now.couplings.now.size }
    requires pieces { 1 ≤ pieces }
    requires planes { FitsColours dynamics.now.couplings.now.size planes.old }
    ensures { SweepsColours dynamics.now.couplings.now dynamics.now.rule.now planes.old planes.new }
{
    let (first, second) = planes.split_at_mut(size);
    fork_colour(rt, first, second, dynamics, pieces, 0);
    fork_colour(rt, second, first, dynamics, pieces, 1);
}

// The planes of a colour, in at most so many runs. Where no thread can be started, the caller sweeps
// its run.
fn fork_colour<R: Threads + Sync>(
    rt: &R,
    own: &mut [Plane],
    other: &[Plane],
    dynamics: &Dynamics,
    pieces: usize,
    colour: u32,
)
    requires own { length own.old ≡ dynamics.now.couplings.now.size }
    requires lawful { IsLawfulSize dynamics.now.couplings.now.size }
    requires planes { All (FitsPlane dynamics.now.couplings.now.size) own.old }
    requires other { length other.now ≡ dynamics.now.couplings.now.size }
    requires others { All (FitsPlane dynamics.now.couplings.now.size) other.now }
    requires pieces { 1 ≤ pieces }
    requires colour { colour < 2 }
    ensures { Changed (SweepsPlane dynamics.now.couplings.now other.now dynamics.now.rule.now colour) dynamics.now.couplings.now.size own.old own.new }
{
    thread::for_each_mut(
        rt,
        own,
        pieces,
        &|z, plane| -> ()
            requires { CanSweep dynamics.now.couplings.now other.now colour z plane.now }
            ensures { SweepsPlane dynamics.entry.now.couplings.now other.entry.now dynamics.entry.now.rule.now colour z plane.entry.now plane.exit.now }
        {
            let turn = Turn {
                colour,
                z: z as u32,
            };
            sweep_alone(plane, other, dynamics, &turn)
        },
    );
}

// A plane with a room for draws of its own, since another thread sweeps another plane.
fn sweep_alone(plane: &mut Plane, other: &[Plane], dynamics: &Dynamics, turn: &Turn)
    requires ready { CanSweep dynamics.now.couplings.now other.now turn.now.colour turn.now.z plane.old }
    ensures { SweepsPlane dynamics.now.couplings.now other.now dynamics.now.rule.now turn.now.colour turn.now.z plane.old plane.new }
{
    let sites = sites_of(dynamics, turn);
    let draws: &mut [u32] = &mut [0u32; PLANE_DRAWS];
    by_size!(
        dynamics.couplings.size(),
        sweep_plane(plane, other, &sites, draws)
    );
}

// The sites of a colour in a plane, by the planes of the other colour. Each site has a draw, used
// or not, so that all samples can share it; `draws` is the room for them.
#[inline(always)]
fn sweep_plane<const SIZE: usize>(
    plane: &mut Plane,
    other: &[Plane],
    sites: &HalfPlane,
    draws: &mut [u32],
)
    requires size { 0 < SIZE → sites.now.couplings.now.size ≡ SIZE }
    requires own { FitsPlane sites.now.couplings.now.size plane.old }
    requires other { length other.now ≡ sites.now.couplings.now.size }
    requires others { All (FitsPlane sites.now.couplings.now.size) other.now }
    requires room { half_plane sites.now.couplings.now.size ≤ length draws.old }
    requires colour { sites.now.colour < 2 }
    requires plane { sites.now.z < sites.now.couplings.now.size }
    ensures { SweepsPlane sites.now.couplings.now other.now sites.now.rule.now sites.now.colour sites.now.z plane.old plane.new }
{
    let size = side_of::<SIZE>(sites.couplings);
    let draws = &mut draws[..(size * (size / 2)) as usize];
    plane.wheel.fill(draws);
    sweep_words::<SIZE>(plane.words.as_mut_slice(), other, sites, draws);
}
