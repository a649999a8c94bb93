//! The Rattle sides of the benchmarks of single kernels: the scripts of bench/ build it and run it beside
//! the same in C. Given no kernel it prints one line and does no work.
#![tactic(auto)]

mod bit_passes;
mod bits;
mod checkpoints;
mod groups;
mod planes;
mod plans;
mod potts;
mod replicas;
mod sweeps;
mod totals;
mod words;

use anyhow::{Error, Result};
use std::env::{self, Args};
use std::thread::Threads;
use std::time::Clock;
use threshold_table::RuleKind;

/// The next word as a number.
fn number(words: &mut Args) -> Result<u32> {
    match words.nth(0) {
        Some(word) => Ok(word.as_str().parse::<u32>()?),
        None => Err(Error::msg("a number is missing")),
    }
}

/// Times the packed sweep: a size, a rule, the sweeps of a pass, the number of passes, and `both` for both
/// replicas.
fn time_sweep<R: AllocGlobal + Print + Clock + Threads + Sync>(
    rt: &R,
    words: &mut Args,
) -> Result<()> {
    let size = number(words)?;
    let kind = match words.nth(0).as_deref() {
        Some("metropolis") => RuleKind::Metropolis,
        Some("heat") => RuleKind::Heat,
        _ => return Err(Error::msg("the rule is metropolis or heat")),
    };
    let sweeps = number(words)?;
    let passes = number(words)?;
    let both = match words.nth(0).as_deref() {
        None => false,
        Some("both") => true,
        Some(_) => return Err(Error::msg("behind the passes stands both, or nothing")),
    };
    sweeps::measure(rt, size, kind, sweeps, passes, both)
}

/// Does one piece of work with a checkpoint: a size and the name of the work.
fn checkpoint_work(rt: &HostRuntime, words: &mut Args) -> Result<()> {
    let size = number(words)?;
    match words
        .nth(0)
        .and_then(|name| checkpoints::work_of(name.as_str()))
    {
        Some(work) => checkpoints::measure(rt, size, work),
        None => Err(Error::msg("the work is opening, plan, encode, sha2, decode or again")),
    }
}

/// Times the sweep of the Potts glass: a size, the sweeps of a pass and the number of passes.
fn time_potts(rt: &HostRuntime, words: &mut Args) -> Result<()> {
    let size = number(words)?;
    let sweeps = number(words)?;
    let passes = number(words)?;
    potts::measure(rt, size, sweeps, passes)
}

/// Times the packed sums: a size and the number of passes.
fn time_totals(rt: &HostRuntime, words: &mut Args) -> Result<()> {
    let size = number(words)?;
    let passes = number(words)?;
    totals::measure(rt, size, passes)
}

/// Times the sums over planes: a size and the number of passes.
fn time_planes(rt: &HostRuntime, words: &mut Args) -> Result<()> {
    let size = number(words)?;
    let passes = number(words)?;
    planes::measure(rt, size, passes)
}

fn main(rt: HostRuntime) -> Result<()> {
    let mut words = env::args(&rt)?;
    match words.nth(1).as_deref() {
        Some("bits") => bits::measure(&rt, number(&mut words)?),
        Some("totals") => time_totals(&rt, &mut words),
        Some("planes") => time_planes(&rt, &mut words),
        Some("sweep") => time_sweep(&rt, &mut words),
        Some("potts") => time_potts(&rt, &mut words),
        Some("checkpoint") => checkpoint_work(&rt, &mut words),
        _ => {
            println!(rt;
                "bench_kernels: give bits, totals, planes, sweep, potts or checkpoint, and its words"
            )?;
            Ok(())
        }
    }
}
