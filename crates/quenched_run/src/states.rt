//! The states that are kept.

ghost use Rattle.std.specs.Arc.{arc_value};
ghost use Rattle.std.specs.Prelude.{◌<◌, ◌≤◌, IfOk, length, map};
ghost use Rattle.quenched_run.specs.Quenches.{AreAtTimes, AreGoneOn, AreInTime, AreKept};
ghost use Rattle.quenched_run.specs.Steps.{AreStill};
ghost use Rattle.quenched_states.specs.KeptStates.{time_at};
ghost use Rattle.spin_model.specs.Limits.{last_epoch};

use crate::banks::{copied_banks, sweep_banks};
use crate::quench::Quench;
use glass_edges::NoMemory;
use plain_list::Items;
use plane_sweep::Stand;
use std::alloc::Global;
use std::thread::Threads;

/// The states of a quench that begins with the states of banks at one epoch, no later than the first time: a
/// list of banks for each time.
///
/// # Errors
///
/// Refuses only for lack of memory; the states are then dropped.
pub fn begin<R: Threads + Sync>(
    rt: &R,
    alloc: Global,
    quench: &Quench,
    base: Items<Stand>,
) -> Result<Items<Items<Stand>>, NoMemory>
    requires { AreInTime (map arc_value quench.now.plans.now) (time_at quench.now.times.now 0) base }
    ensures { IfOk result (AreKept (map arc_value quench.now.plans.now) quench.now.times.now base) }
{
    let mut states = Vec::with_capacity(alloc, quench.times.len())?;
    states.push(swept_on(rt, quench, base, quench.times[0]))?;
    go_on(rt, alloc, quench, Items::of(states))
}

/// The states of a quench that goes on from those of its first times, which it holds: these, and for each time
/// that is left one more, which is made from the one before it.
///
/// # Errors
///
/// Refuses only for lack of memory; the states are then dropped.
pub fn go_on<R: Threads + Sync>(
    rt: &R,
    alloc: Global,
    quench: &Quench,
    held: Items<Items<Stand>>,
) -> Result<Items<Items<Stand>>, NoMemory>
    requires some { 0 < length held }
    requires few { length held ≤ length quench.now.times.now }
    requires fit { AreAtTimes (map arc_value quench.now.plans.now) quench.now.times.now held }
    ensures { IfOk result (AreGoneOn (map arc_value quench.now.plans.now) quench.now.times.now held) }
{
    let mut states = held.into_vec();
    'times: for j in states.len()..quench.times.len() {
        let next = next_state(rt, alloc, quench, &states[j - 1], quench.times[j])?;
        states.push(next)?;
    }
    Ok(Items::of(states))
}

// The state at the next time, from the last one.
fn next_state<R: Threads + Sync>(
    rt: &R,
    alloc: Global,
    quench: &Quench,
    last: &Items<Stand>,
    time: u64,
) -> Result<Items<Stand>, NoMemory>
    requires fit { AreInTime (map arc_value quench.now.plans.now) time last.now }
    requires time { time ≤ last_epoch }
    ensures { IfOk result (AreStill (map arc_value quench.now.plans.now) time last.now) }
{
    let copies = copied_banks(alloc, last)?;
    Ok(swept_on(rt, quench, copies, time))
}

// A state at an epoch to which it is swept.
fn swept_on<R: Threads + Sync>(
    rt: &R,
    quench: &Quench,
    state: Items<Stand>,
    time: u64,
) -> Items<Stand>
    requires fit { AreInTime (map arc_value quench.now.plans.now) time state }
    requires time { time ≤ last_epoch }
    ensures { AreStill (map arc_value quench.now.plans.now) time state result }
{
    let mut swept = state;
    sweep_banks(rt, quench, swept.as_mut_slice(), time);
    swept
}
