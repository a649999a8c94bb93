//! What the hook of a run sees of its slots and its workers.

use crate::called::{NEVER, RUN, call, holds, store, store_of};
use glass_edges::Gate;
use std::sync::Wait;
use std::sync::atomic::{AtomicU64, Ordering};
use std::test::Fail;
use std::thread::Threads;

/// A hook that adds 1 at the bit of the slot and the epoch, eight slots an epoch.
#[derive(Drop)]
struct Entries {
    entered: AtomicU64,
}

impl Gate for Entries {
    fn enter(&self, slot: u32, epoch: u64) {
        if slot < 8 && epoch < 8 {
            self.entered
                .fetch_add(1u64 << (8 * epoch + slot as u64), Ordering::SeqCst);
        }
    }
}

// Fails where a run of two slots and two epochs does not enter its hook once for each slot and epoch.
fn enters_once<R: AllocGlobal + Threads + Wait + Sync>(rt: &R, line: &str) -> Result<(), Fail> {
    let gate = Entries {
        entered: AtomicU64::new(0),
    };
    let called = call(rt, line, &mut store(rt, RUN, NEVER)?, &gate, NEVER, NEVER)?;
    holds(line, called.status == 0)?;
    holds(line, gate.entered.load(Ordering::SeqCst) == 0x0303)
}

// One worker takes both slots at once, two take one each.
#[test]
fn run_enters_its_hook_once_for_each_slot_and_epoch(rt: HostRuntime) -> Result<(), Fail> {
    enters_once(&rt, "run run.toml --workers 1")?;
    enters_once(&rt, "run run.toml --workers 2")
}

// The hand-outs of a stopped run are counted by its hook's entries: as many as are ordered, and in the last run as
// many as were left.
#[test]
fn stopped_runs_hand_out_as_often_as_ordered(rt: HostRuntime) -> Result<(), Fail> {
    let mut shelf = store(&rt, RUN, NEVER)?;
    for (line, entries) in [
        ("run run.toml --stop-after 3 --save c", 3u64),
        ("run run.toml --from c --stop-after 3 --save d", 1),
    ] {
        let gate = Entered {
            count: AtomicU64::new(0),
        };
        let called = call(&rt, line, &mut shelf, &gate, NEVER, NEVER)?;
        holds(line, called.status == 0)?;
        holds(line, gate.count.load(Ordering::SeqCst) == entries)?;
    }
    Ok(())
}

/// A hook that counts its entries.
#[derive(Drop)]
struct Entered {
    count: AtomicU64,
}

impl Gate for Entered {
    fn enter(&self, _slot: u32, _epoch: u64) {
        self.count.fetch_add(1, Ordering::SeqCst);
    }
}

/// A run file of 65 samples, which are two banks, without spins.
const RUN_OF_65: &str = "size = 4
rule = \"heat\"
rules = \"rules.csv\"
swaps = \"swaps.csv\"
couplings = \"plus\"
sweeps = 1
seed = 7
samples = 65
epochs = 2
every = 1000
start = \"up\"
spins = false
";

/// A hook whose first entry of two in each of four epochs returns only once the second came, or after so many
/// looks. It counts the entries in each epoch, and those that the second missed; after one it waits no more.
#[derive(Drop)]
struct Meetings {
    came: [AtomicU64; 4],
    missed: AtomicU64,
}

impl Gate for Meetings {
    fn enter(&self, _slot: u32, epoch: u64) {
        let Some(came) = self.came.get(epoch as usize) else {
            return;
        };
        // Banks go one after the other, so an odd number is that of a first entry.
        let number = came.fetch_add(1, Ordering::SeqCst).wrapping_add(1);
        if number % 2 == 0 || self.missed.load(Ordering::SeqCst) > 0 {
            return;
        }
        for _ in 0..200000000u64 {
            if came.load(Ordering::SeqCst) > number {
                return;
            }
        }
        self.missed.fetch_add(1, Ordering::SeqCst);
    }
}

/// Meetings of which none was yet.
fn no_meetings() -> Meetings {
    Meetings {
        came: [
            AtomicU64::new(0),
            AtomicU64::new(0),
            AtomicU64::new(0),
            AtomicU64::new(0),
        ],
        missed: AtomicU64::new(0),
    }
}

// Fails where the two slots of a run by two workers do not meet in each of four epochs of each bank, with so
// many entries in an epoch.
fn meet_in_every_epoch<R: AllocGlobal + Threads + Wait + Sync>(
    rt: &R,
    run: &str,
    entries: u64,
) -> Result<(), Fail> {
    let gate = no_meetings();
    let line = "run run.toml --workers 2 --until 4";
    let called = call(rt, line, &mut store(rt, run, NEVER)?, &gate, NEVER, NEVER)?;
    holds(line, called.status == 0)?;
    holds("missed", gate.missed.load(Ordering::SeqCst) == 0)?;
    for came in &gate.came {
        holds("entries", came.load(Ordering::SeqCst) == entries)?;
    }
    Ok(())
}

// One thread can't pass it, nor can a run that leaves an epoch of a bank to one thread.
#[test]
fn two_workers_overlap_in_every_epoch(rt: HostRuntime) -> Result<(), Fail> {
    meet_in_every_epoch(&rt, RUN, 2)?;
    meet_in_every_epoch(&rt, RUN_OF_65, 4)
}

/// A hook each of whose entries returns only once a slot of another pair has come in the same epoch, or after so
/// many looks. The two slots whose turn it is at an epoch are a pair there, and one bit. It counts the entries that
/// no other pair came to; after one it waits no more.
#[derive(Drop)]
struct Pairs {
    came: [AtomicU64; 2],
    missed: AtomicU64,
}

impl Gate for Pairs {
    fn enter(&self, slot: u32, epoch: u64) {
        let Some(came) = self.came.get(epoch as usize) else {
            return;
        };
        let own = 1u64 << ((slot as u64 + epoch % 2) / 2 % 64);
        came.fetch_or(own, Ordering::SeqCst);
        for _ in 0..200000000u64 {
            if came.load(Ordering::SeqCst) != own || self.missed.load(Ordering::SeqCst) > 0 {
                return;
            }
        }
        self.missed.fetch_add(1, Ordering::SeqCst);
    }
}

// Two workers take pairs where there are four slots or more. One thread can't pass an epoch, nor can a run that
// leaves one to a thread.
#[test]
fn two_workers_overlap_where_they_take_pairs(rt: HostRuntime) -> Result<(), Fail> {
    for slots in [4, 16] {
        let gate = Pairs {
            came: [AtomicU64::new(0), AtomicU64::new(0)],
            missed: AtomicU64::new(0),
        };
        let line = "run run.toml --workers 2";
        let called = call(&rt, line, &mut store_of(&rt, slots)?, &gate, NEVER, NEVER)?;
        holds(line, called.status == 0)?;
        holds("missed", gate.missed.load(Ordering::SeqCst) == 0)?;
    }
    Ok(())
}
