//! `count6` and `add_count` over a megabyte of words each, as bench/bit_arithmetic.c has them.

ghost use Rattle.std.specs.Prelude.{◌≡◌, ◌≤◌, length};

use crate::bit_passes::{add_all, clear, count_all};
use crate::groups::{all_words, random_groups, zeros};
use anyhow::Result;
use multispin_word::Planes;
use std::io;
use std::time::Instant;

/// Groups of six words in a megabyte.
const GROUPS: usize = 21845;

/// Totals of twenty planes in a megabyte.
const TOTALS: usize = 6553;

/// Prints for each function the least nanoseconds of a pass and the exclusive or of all that it left.
pub fn measure(rt: &HostRuntime, passes: u32) -> Result<()> {
    let six = random_groups(rt.alloc(), GROUPS)?;
    let mut counts = zeros::<3>(rt.alloc(), GROUPS)?;
    let mut totals = zeros::<20>(rt.alloc(), TOTALS)?;
    let took = counting(rt, six.as_slice(), counts.as_mut_slice(), passes)?;
    println!(rt; "count6 {took} {}", all_words(counts.as_slice()))?;
    let took = adding(rt, counts.as_slice(), totals.as_mut_slice(), passes)?;
    println!(rt; "add_count {took} {}", all_words(totals.as_slice()))?;
    Ok(())
}

/// The time to count each group, in nanoseconds, the least of the passes.
fn counting(
    rt: &HostRuntime,
    six: &[[u64; 6]],
    counts: &mut [Planes<3>],
    passes: u32,
) -> io::Result<u128>
    requires { length six.now ≡ length counts.old }
{
    let mut least = u128::MAX;
    for _ in 0..passes {
        let start = Instant::now(rt)?;
        count_all(six, counts);
        least = least.min(start.elapsed(rt)?.as_nanos());
    }
    Ok(least)
}

/// The time to add its count to each total, from zero.
fn adding(
    rt: &HostRuntime,
    counts: &[Planes<3>],
    totals: &mut [Planes<20>],
    passes: u32,
) -> io::Result<u128>
    requires { length totals.old ≤ length counts.now }
{
    let mut least = u128::MAX;
    for _ in 0..passes {
        clear(totals);
        let start = Instant::now(rt)?;
        add_all(totals, counts);
        least = least.min(start.elapsed(rt)?.as_nanos());
    }
    Ok(least)
}
