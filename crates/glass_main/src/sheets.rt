//! The sheets on which the rows of a report are made.

ghost use Rattle.std.specs.Prelude.{◌≤◌};
ghost use Rattle.spin_model.specs.Limits.{last_epoch};

use command_words::RunOrder;
use glass_edges::NoMemory;
use report_sheets::Sheets;
use run_plan::{Orders, row_count};
use scalar_rule::Plan;
use std::alloc::Global;

/// Sheets for the report of the rows from one epoch to another, for as many threads as there are workers that can have
/// a slot. Speed alone depends on how many there are, and on their room.
pub(crate) fn sheets_of(
    alloc: Global,
    order: &RunOrder<'_>,
    plan: &Plan,
    orders: &Orders,
    from: u64,
    until: u64,
) -> Result<Sheets, NoMemory>
    requires few_samples { orders.now.samples ≤ 256 }
    requires some_every { 1 ≤ orders.now.every }
    requires window { from ≤ until }
    requires until { until ≤ last_epoch }
{
    let workers = order.workers.min(plan.slots());
    let rows = row_count(plan, orders, from, until);
    let an_epoch = orders.samples as u64 * plan.slots() as u64;
    Sheets::new(alloc, workers, rows, an_epoch)
}
