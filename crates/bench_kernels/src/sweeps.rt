//! The packed sweep of one replica, or of both of a slot, as bench/sweep.c has it.

ghost use Rattle.std.specs.Prelude.{◌≡◌};
ghost use Rattle.plane_sweep.specs.Packed.{FitsDuo, FitsReplica};
ghost use Rattle.scalar_rule.specs.Plan.{slots_of};

use crate::plans::swept_plan;
use anyhow::Result;
use lattice_geometry::Lattice;
use plane_sweep::{Duo, Replica, Stand, sweep_duo_often, sweep_often};
use scalar_rule::{Plan, Start};
use std::io;
use std::thread::Threads;
use std::time::{Clock, Instant};
use threshold_table::RuleKind;

/// Prints the least nanoseconds of a pass, those of both replicas halved, and the spins that all passes
/// left in the first replica in one number.
pub fn measure<R: AllocGlobal + Print + Clock + Threads + Sync>(
    rt: &R,
    size: u32,
    kind: RuleKind,
    sweeps: u32,
    passes: u32,
    both: bool,
) -> Result<()> {
    let plan = swept_plan(rt.alloc(), Lattice::of(size)?, kind)?;
    let mut stand = Stand::opening(rt.alloc(), &plan, Start::Random)?;
    let duo = stand.slots.at_mut(0);
    let least = if both {
        least_of_both(rt, duo, &plan, sweeps, passes)? / 2
    } else {
        least_of(rt, &mut duo.first, &plan, sweeps, passes)?
    };
    println!(rt; "{least} {}", all_words(&duo.first))?;
    Ok(())
}

/// Sweeps the replica in all 64 samples, that many times in each pass. Gives the least nanoseconds of a
/// pass.
fn least_of<R: Clock + Threads + Sync>(
    rt: &R,
    replica: &mut Replica,
    plan: &Plan,
    sweeps: u32,
    passes: u32,
) -> io::Result<u128>
    requires replica { FitsReplica plan.now.size replica.old }
    requires slots { slots_of plan.now ≡ 1 }
    ensures { FitsReplica plan.now.size replica.new }
{
    let mut least = u128::MAX;
    'passes: for _ in 0..passes {
        let start = Instant::now(rt)?;
        sweep_often(rt, replica, plan, 0, 1, sweeps);
        least = least.min(start.elapsed(rt)?.as_nanos());
    }
    Ok(least)
}

/// Sweeps both replicas of the slot that many times in each pass, in turn where the lattice is large
/// enough. Gives the least nanoseconds of a pass.
fn least_of_both<R: Clock + Threads + Sync>(
    rt: &R,
    duo: &mut Duo,
    plan: &Plan,
    sweeps: u32,
    passes: u32,
) -> io::Result<u128>
    requires duo { FitsDuo plan.now.size duo.old }
    requires slots { slots_of plan.now ≡ 1 }
    ensures { FitsDuo plan.now.size duo.new }
{
    let mut least = u128::MAX;
    'passes: for _ in 0..passes {
        let start = Instant::now(rt)?;
        sweep_duo_often(rt, duo, plan, 0, 1, sweeps);
        least = least.min(start.elapsed(rt)?.as_nanos());
    }
    Ok(least)
}

/// All words in one number, which depends on their order too.
fn all_words(replica: &Replica) -> u64 {
    let mut all = 0u64;
    for plane in replica.planes.as_slice() {
        for word in plane.words.as_slice() {
            all = (all ^ *word).wrapping_mul(31).rotate_left(1);
        }
    }
    all
}
