//! Opening a bank: all its memory is taken here.

ghost use Rattle.std.specs.Prelude.{◌≡◌, ◌≤◌, [], All, IfOk, length, replicate, false, vec_capacity};
ghost use Rattle.std.specs.Arc.{arc_value};
ghost use Rattle.measured_run.specs.Opens.{duos_in, IsNew};
ghost use Rattle.measured_run.specs.declared.cell.Cell.{Cell};
ghost use Rattle.plane_sweep.specs.Packed.{StandFits};
ghost use Rattle.scalar_rule.specs.Plan.{slots_of};
ghost use Rattle.spin_model.specs.Limits.{last_epoch};

use crate::bank::Bank;
use crate::cell::Cell;
use crate::course::Course;
use crate::driven::BankRun;
use crate::room::EndRoom;
use glass_edges::NoMemory;
use multispin_word::Planes;
use plain_list::Items;
use plane_sums::SlotSums;
use plane_sweep::{Duo, RaggedStand, Stand};
use scalar_rule::Plan;
use slot_steps::Totals;
use std::alloc::Global;
use std::snapshot::Snapshot;
use std::sync::Arc;

/// Opens a bank at its state: the sums of its slots, and room for what is left of it at its end.
pub(crate) fn open_bank(
    alloc: Global,
    plan: &Arc<Plan, Global>,
    base: Stand,
    course: Course,
) -> Result<BankRun, NoMemory>
    requires base { StandFits (arc_value plan.now) base }
    requires reach { base.epoch ≤ course.until }
    requires until { course.until ≤ last_epoch }
    requires some_every { 1 ≤ course.every }
    ensures { IfOk result (λ run. run ≡ record {
      plan = arc_value plan.now;
      base = base;
      every = course.every;
      until = course.until;
    }) }
{
    let plan = Arc::try_clone(plan)?;
    let opened = Snapshot::of(&base);
    let from = base.epoch;
    let count = base.slots.len();
    let at_end = Stand {
        epoch: course.until,
        slots: base.slots,
        pairs: base.pairs,
    };
    let RaggedStand {
        places,
        slots,
        pairs,
        pending,
    } = RaggedStand::level(alloc, at_end)?;
    let duos = Vec::with_capacity(alloc, count)?;
    let sums = Vec::with_capacity(alloc, count)?;
    let cells = open_cells(alloc, slots.into_vec(), from, course.until)?;
    Ok(BankRun {
        bank: Bank {
            plan,
            base: opened,
            every: course.every,
            until: course.until,
            epoch: from,
            cells: Items::of(cells),
            pairs,
        },
        room: EndRoom {
            duos,
            sums,
            places,
            pending,
        },
    })
}

// The slots with nothing summed up, and with room for the epochs from one on and below another.
fn open_cells(alloc: Global, duos: Vec<Duo>, from: u64, until: u64) -> Result<Vec<Cell>, NoMemory>
    requires from { from ≤ last_epoch }
    requires until { until ≤ last_epoch }
    ensures duos { IfOk result (λ cells. duos_in cells.items ≡ duos.items) }
    ensures new { IfOk result (λ cells. All (λ (cell : Cell). IsNew from until cell.sums) cells.items) }
{
    let mut cells = Vec::with_capacity(alloc, duos.len())?;
    'slots: for duo in duos {
        cells.push(open_cell(alloc, duo, from, until)?)?;
    }
    Ok(cells)
}

fn open_cell(alloc: Global, duo: Duo, from: u64, until: u64) -> Result<Cell, NoMemory>
    requires from { from ≤ last_epoch }
    requires until { until ≤ last_epoch }
    ensures duo { IfOk result (λ cell. cell.duo ≡ duo) }
    ensures new { IfOk result (λ cell. IsNew from until cell.sums) }
{
    Ok(Cell {
        duo,
        sums: SlotSums::none(alloc, from, until.saturating_sub(1))?,
        totals: Totals {
            first: Planes::zero(),
            second: Planes::zero(),
        },
    })
}
