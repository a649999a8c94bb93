//! The sums over planes and their correlations at one size, as bench/planes.c has them.

ghost use Rattle.std.specs.Prelude.{◌≡◌};
ghost use Rattle.plane_sweep.specs.Packed.{FitsReplica};

use crate::replicas::{random_words, replica_of};
use crate::words::FIRST;
use anyhow::Result;
use lattice_geometry::Lattice;
use plane_sums::{Planes3, correlations, plane_numbers_between};
use plane_sweep::Replica;
use std::time::Instant;

/// All correlations up to half the side in one number.
fn all_correlations(axis: &[[i64; 64]; 33], face: &[[i64; 64]; 33], lattice: Lattice) -> u64 {
    let mut all = 0u64;
    for r in 0..lattice.size() as usize / 2 + 1 {
        for b in 0..64usize {
            all = all.wrapping_mul(3) ^ axis[r][b].cast_unsigned();
            all = all.wrapping_mul(3) ^ face[r][b].cast_unsigned();
        }
    }
    all
}

/// Prints the least nanoseconds of a pass of both calls together and the correlations that it left.
fn time_planes(
    rt: &HostRuntime,
    a: &Replica,
    b: &Replica,
    lattice: Lattice,
    passes: u32,
) -> Result<()>
    requires first { FitsReplica lattice a.now }
    requires second { FitsReplica lattice b.now }
{
    let mut room = Planes3::none(rt.alloc())?;
    let mut numbers = Box::new(rt.alloc(), [[[0i16; 64]; 64]; 9])?;
    let mut axis = Box::new(rt.alloc(), [[0i64; 64]; 33])?;
    let mut face = Box::new(rt.alloc(), [[0i64; 64]; 33])?;
    let mut least = u128::MAX;
    for _ in 0..passes {
        let start = Instant::now(rt)?;
        plane_numbers_between(a, b, lattice, &mut room, &mut numbers);
        correlations(&numbers, lattice, &mut axis, &mut face);
        least = least.min(start.elapsed(rt)?.as_nanos());
    }
    println!(rt;
        "planes {least} {}",
        all_correlations(&axis, &face, lattice)
    )?;
    Ok(())
}

/// Times both calls on random words.
pub fn measure(rt: &HostRuntime, size: u32, passes: u32) -> Result<()> {
    let alloc = rt.alloc();
    let lattice = Lattice::of(size)?;
    let _ = lattice.size();
    let mut state = FIRST;
    let first = random_words(alloc, &lattice, &mut state)?;
    let second = random_words(alloc, &lattice, &mut state)?;
    let a = replica_of(alloc, &lattice, first.as_slice())?;
    let b = replica_of(alloc, &lattice, second.as_slice())?;
    time_planes(rt, &a, &b, lattice, passes)
}
