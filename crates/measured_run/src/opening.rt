//! Opening a run: all its memory is taken here.

ghost use Rattle.std.specs.Prelude.{◌≡◌, ◌+◌, ◌*◌, ◌≤◌, All, IfOk, is_some, length, map};
ghost use Rattle.std.specs.Arc.{arc_value};
ghost use Rattle.measured_run.specs.Banks.{bases_in, plans_in};
ghost use Rattle.measured_run.specs.KeptRuns.{HasSpare, IsOnCourse};
ghost use Rattle.measured_run.specs.Runs.{AreStarts};
ghost use Rattle.run_checkpoint.specs.BankEncoding.{BanksFit, HaveShape};
ghost use Rattle.spin_model.specs.Limits.{last_epoch};

use crate::course::Course;
use crate::driven::BankRun;
use crate::opening_bank::open_bank;
use crate::run::Run;
use glass_edges::NoMemory;
use plane_sums::MeasuringRoom;
use plane_sweep::Stand;
use run_checkpoint::{Room, length};
use scalar_rule::Plan;
use std::alloc::Global;
use std::sync::Arc;

/// Opens a run over 1 to 4 banks from their states at one epoch to epoch `until`, of which the last of each
/// `every` epochs is measured: takes room for the sums of all slots, for each of the 1 to 64 workers that can
/// have a slot, and for the checkpoint where it is to be saved. Each bank has its own plan; the plans agree in
/// size and number of slots.
///
/// # Errors
///
/// Refuses only for lack of memory; the states are then dropped.
pub fn open(
    alloc: Global,
    plans: &[Arc<Plan, Global>],
    bases: Vec<Stand>,
    every: u64,
    until: u64,
    workers: u32,
    saves: bool,
) -> Result<Run, NoMemory>
    requires starts { AreStarts (map arc_value plans.now) bases.items until }
    requires until { until ≤ last_epoch }
    requires some_every { 1 ≤ every }
    requires every { every ≤ last_epoch }
    requires some_workers { 1 ≤ workers }
    requires few_workers { workers ≤ 64 }
    ensures { IfOk result (λ run. run ≡ record {
      plans = map arc_value plans.now;
      bases = bases.items;
      every = every;
      until = until;
      saves = saves;
    }) }
{
    let slots = plans[0].slots();
    let course = Course {
        from: bases[0].epoch,
        every,
        until,
    };
    let saving = reserve(alloc, plans, saves)?;
    let rooms = open_rooms(alloc, workers.min(slots))?;
    let ended = Vec::with_capacity(alloc, plans.len())?;
    let sums = Vec::with_capacity(alloc, plans.len())?;
    let banks = open_each(alloc, plans, bases, course)?;
    Ok(Run {
        banks,
        ended,
        sums,
        rooms,
        saving,
        course,
    })
}

// The banks.
fn open_each(
    alloc: Global,
    plans: &[Arc<Plan, Global>],
    bases: Vec<Stand>,
    course: Course,
) -> Result<Vec<BankRun>, NoMemory>
    requires fit { BanksFit course.from (map arc_value plans.now) bases.items }
    requires window { course.from ≤ course.until }
    requires until { course.until ≤ last_epoch }
    requires some_every { 1 ≤ course.every }
    ensures plans { IfOk result (λ banks. plans_in banks.items ≡ map arc_value plans.now) }
    ensures bases { IfOk result (λ banks. bases_in banks.items ≡ bases.items) }
    ensures course { IfOk result (λ banks. All (IsOnCourse course) banks.items) }
{
    let mut banks = Vec::with_capacity(alloc, plans.len())?;
    'banks: for base in bases {
        let bank = banks.len();
        banks.push(open_bank(alloc, &plans[bank], base, course)?)?;
    }
    Ok(banks)
}

// So many rooms to measure in.
fn open_rooms(alloc: Global, count: u32) -> Result<Vec<MeasuringRoom>, NoMemory>
    ensures { IfOk result (λ rooms. length rooms.items ≡ count) }
{
    let mut rooms = Vec::with_capacity(alloc, count as usize)?;
    'rooms: for room in 0..count {
        rooms.push(MeasuringRoom::none(alloc)?)?;
    }
    Ok(rooms)
}

// Reserves the buffer of the checkpoint, where it is to be saved: for several banks, and so for one too.
fn reserve(
    alloc: Global,
    plans: &[Arc<Plan, Global>],
    saves: bool,
) -> Result<Option<Room>, NoMemory>
    requires some { 1 ≤ length plans.now }
    requires few { length plans.now ≤ 4 }
    ensures kind { IfOk result (λ saving. is_some saving ≡ saves) }
    ensures room { IfOk result (HasSpare (map arc_value plans.now)) }
{
    if !saves {
        return Ok(None);
    }
    let plan = &plans[0];
    let bank = length(plan.lattice().size(), plan.slots());
    let room = Room::reserve(alloc, 44 + bank * plans.len() as u64)?;
    Ok(Some(room))
}
