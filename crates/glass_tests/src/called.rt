//! One call of the program over outputs and files in memory.

use glass_edges::{Gate, MemoryShelf, MemorySink};
use glass_main::glass;
use std::sync::Wait;
use std::test::Fail;
use std::thread::Threads;

/// The number of a call that is never made.
pub const NEVER: u64 = u64::MAX;

/// The most bytes that the output takes at once.
pub const MOST: usize = 16;

/// The run file of two temperature slots on the lattice of size 4, over two epochs.
pub const RUN: &str = "size = 4
rule = \"heat\"
rules = \"rules.csv\"
swaps = \"swaps.csv\"
couplings = \"plus\"
sweeps = 1
seed = 7
samples = 1
epochs = 2
every = 1
start = \"up\"
spins = true
";

/// Two slots of which the hotter one is ordered, so that they swap at epoch 0.
const RULES: &str = "4294967296,4294967296,4294967296,0,0,0,0\n0,0,0,0,0,0,4294967296\n";

/// A call's exit status, and what it wrote on the output and on the error output.
#[derive(Drop)]
pub struct Called {
    pub status: u8,
    pub out: MemorySink,
    pub err: MemorySink,
}

/// A store of a run file and the tables of two slots, with room for the checkpoints `c` and `d`, which fails at
/// one call.
pub fn store<R: AllocGlobal>(rt: &R, run: &str, failing: u64) -> Result<MemoryShelf, Fail> {
    let mut shelf = MemoryShelf::new(rt.alloc(), [failing].to_vec(rt.alloc())?);
    shelf.add("run.toml", run.as_bytes())?;
    shelf.add("rules.csv", RULES.as_bytes())?;
    shelf.add("swaps.csv", b"4294967296\n")?;
    shelf.room("c", 11000)?;
    shelf.room("d", 11000)?;
    Ok(shelf)
}

/// A store of a run file and the tables of so many slots, all of one row of thresholds, which never swap.
pub fn store_of<R: AllocGlobal>(rt: &R, slots: u32) -> Result<MemoryShelf, Fail> {
    let mut rules = String::new(rt.alloc());
    let mut swaps = String::new(rt.alloc());
    for slot in 0..slots {
        rules.push_str("4294967296,4294967296,4294967296,0,0,0,0\n")?;
        if slot > 0 {
            swaps.push_str("0\n")?;
        }
    }
    let mut shelf = MemoryShelf::new(rt.alloc(), [NEVER].to_vec(rt.alloc())?);
    shelf.add("run.toml", RUN.as_bytes())?;
    shelf.add("rules.csv", rules.as_str().as_bytes())?;
    shelf.add("swaps.csv", swaps.as_str().as_bytes())?;
    Ok(shelf)
}

// An output with ample room that takes few bytes at once and fails at one put.
fn output<R: AllocGlobal>(rt: &R, failing: u64) -> Result<MemorySink, Fail> {
    let fails = [failing].to_vec(rt.alloc())?;
    Ok(MemorySink::new(rt.alloc(), 4096, MOST, fails)?)
}

/// Calls the program with the words of a line, over a store, with a hook; each output fails at one put.
pub fn call<R: AllocGlobal + Threads + Wait + Sync, G: Gate + Sync>(
    rt: &R,
    line: &str,
    shelf: &mut MemoryShelf,
    gate: &G,
    put: u64,
    err_put: u64,
) -> Result<Called, Fail> {
    let mut words = Vec::new(rt.alloc());
    for word in line.split(' ') {
        words.push(String::from_str(rt.alloc(), word)?)?;
    }
    let mut called = Called {
        status: 0,
        out: output(rt, put)?,
        err: output(rt, err_put)?,
    };
    called.status = glass(
        rt,
        rt.alloc(),
        &words,
        shelf,
        &mut called.out,
        &mut called.err,
        gate,
    );
    Ok(called)
}

/// Fails, with the name of the case, where something does not hold.
pub fn holds(case: &str, whether: bool) -> Result<(), Fail> {
    if whether {
        Ok(())
    } else {
        Err(Fail::new(case))
    }
}
