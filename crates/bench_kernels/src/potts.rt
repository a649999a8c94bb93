//! The sweep of the Potts glass, as bench/potts.c has it.

ghost use Rattle.std.specs.Prelude.{◌≡◌};

use crate::plans::SEED;
use anyhow::Result;
use coupling_set::Couplings;
use lattice_geometry::Lattice;
use potts_glass::{Potts, PottsRow, PottsStart};
use std::io;
use std::time::{Clock, Instant};

/// Metropolis at the inverse temperature 0.9.
const ROW: PottsRow = PottsRow {
    values: [
        1746203392, 709953319, 288645479, 117354494, 47712777, 19398567,
    ],
};

/// Prints the least nanoseconds of a pass, and the colours that all passes left in one number.
pub fn measure<R: AllocGlobal + Print + Clock>(
    rt: &R,
    size: u32,
    sweeps: u32,
    passes: u32,
) -> Result<()> {
    let lattice = Lattice::of(size)?;
    let couplings = Couplings::random(rt.alloc(), lattice, SEED)?;
    let mut potts = Potts::open(rt.alloc(), lattice, couplings, SEED, PottsStart::Random)?;
    let least = least_of(rt, &mut potts, &ROW, sweeps, passes)?;
    println!(rt; "{least} {}", all_colours(&potts))?;
    Ok(())
}

/// Sweeps the glass in all 64 samples, that many times in each pass. Gives the least nanoseconds of a pass.
fn least_of<R: Clock>(
    rt: &R,
    potts: &mut Potts,
    row: &PottsRow,
    sweeps: u32,
    passes: u32,
) -> io::Result<u128> {
    let mut least = u128::MAX;
    for _ in 0..passes {
        let start = Instant::now(rt)?;
        for _ in 0..sweeps {
            potts.sweep(row);
        }
        least = least.min(start.elapsed(rt)?.as_nanos());
    }
    Ok(least)
}

/// The colours of all samples at all sites in one number, which depends on their order too.
fn all_colours(potts: &Potts) -> u64 {
    let mut all = 0u64;
    for site in 0..potts.sites() {
        for sample in 0..64 {
            all = (all ^ potts.colour_of(sample, site) as u64)
                .wrapping_mul(31)
                .rotate_left(1);
        }
    }
    all
}
