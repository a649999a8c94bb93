//! The packed sums `unsatisfied` and `agreeing` at one size, as bench/totals.c has them.

ghost use Rattle.bit_totals.specs.Counted.{HaveOneSize};
ghost use Rattle.plane_sweep.specs.Packed.{FitsReplica};

use crate::plans::summed_plan;
use crate::replicas::{random_words, replica_of};
use crate::words::FIRST;
use anyhow::Result;
use bit_totals::{agreeing, unsatisfied};
use coupling_set::Couplings;
use lattice_geometry::Lattice;
use multispin_word::Planes;
use plane_sweep::Replica;
use scalar_rule::Plan;
use std::time::Instant;

/// All planes in one number.
fn all_planes(total: &Planes<20>) -> u64 {
    let mut all = 0u64;
    for w in 0..20usize {
        all = all.wrapping_mul(3) ^ total.words[w];
    }
    all
}

/// Prints the least nanoseconds of a pass of `unsatisfied` and the planes that it left.
fn time_unsatisfied(rt: &HostRuntime, replica: &Replica, plan: &Plan, passes: u32) -> Result<()>
    requires { FitsReplica plan.now.size replica.now }
{
    let mut total = Planes::zero();
    let mut least = u128::MAX;
    for _ in 0..passes {
        let start = Instant::now(rt)?;
        total = unsatisfied(replica, plan);
        least = least.min(start.elapsed(rt)?.as_nanos());
    }
    println!(rt; "unsatisfied {least} {}", all_planes(&total))?;
    Ok(())
}

/// Prints the least nanoseconds of a pass of `agreeing` and the planes that it left.
fn time_agreeing(rt: &HostRuntime, a: &Replica, b: &Replica, passes: u32) -> Result<()>
    requires { HaveOneSize a.now b.now }
{
    let mut total = Planes::zero();
    let mut least = u128::MAX;
    for _ in 0..passes {
        let start = Instant::now(rt)?;
        total = agreeing(a, b);
        least = least.min(start.elapsed(rt)?.as_nanos());
    }
    println!(rt; "agreeing {least} {}", all_planes(&total))?;
    Ok(())
}

/// Times both functions on random words.
pub fn measure(rt: &HostRuntime, size: u32, passes: u32) -> Result<()> {
    let alloc = rt.alloc();
    let lattice = Lattice::of(size)?;
    let _ = lattice.size();
    let plan = summed_plan(alloc, lattice, Couplings::plus(alloc, lattice)?)?;
    let mut state = FIRST;
    let first = random_words(alloc, &lattice, &mut state)?;
    let second = random_words(alloc, &lattice, &mut state)?;
    let a = replica_of(alloc, &lattice, first.as_slice())?;
    let b = replica_of(alloc, &lattice, second.as_slice())?;
    time_unsatisfied(rt, &a, &plan, passes)?;
    time_agreeing(rt, &a, &b, passes)
}
