//! How much a run prints, and its limits.

ghost use Rattle.std.specs.Prelude.{◌≡◌, ◌*◌, ◌≤◌, IfOk};
ghost use Rattle.glass_edges.specs.Refusals.{unless};
ghost use Rattle.spin_model.specs.Limits.{last_epoch, most_rows};
ghost use Rattle.run_plan.specs.Amounts.{amount_refusal, row_count as rows_of_run, spin_bits as bits_of_run};
ghost use Rattle.scalar_rule.specs.Plan.{slots_of};

use crate::limits::MOST_SPIN_BITS;
use crate::refused::PlanRefused;
use crate::run_file::Orders;
use scalar_rule::{Plan, recorded_epochs};
use spin_model::MOST_ROWS;

/// Tests the amount of what a run from epoch `from` to epoch `until` prints. Takes no memory.
///
/// # Errors
///
/// `Spins` where spins are to be printed and would be too many, else `Rows` where the rows would be.
#[tactic(auto, unfolding(crate::specs::Amounts::amount_refusal))]
pub fn check_amount(plan: &Plan, orders: &Orders, from: u64, until: u64) -> Result<(), PlanRefused>
    requires few_samples { orders.now.samples ≤ 256 }
    requires some_every { 1 ≤ orders.now.every }
    requires window { from ≤ until }
    requires until { until ≤ last_epoch }
    ensures exact { result ≡ unless (amount_refusal plan.now orders.now from until) tt }
    ensures rows { IfOk result (λ _. rows_of_run plan.now orders.now from until ≤ most_rows) }
{
    let bits = spin_bits(plan, orders);
    if orders.spins && bits > MOST_SPIN_BITS {
        return Err(PlanRefused::Spins { bits });
    }
    let count = row_count(plan, orders, from, until);
    if count > MOST_ROWS {
        return Err(PlanRefused::Rows { count });
    }
    Ok(())
}

// The spins that a run prints, where it prints them.
fn spin_bits(plan: &Plan, orders: &Orders) -> u64
    requires { orders.now.samples ≤ 256 }
    ensures { result ≡ bits_of_run plan.now orders.now }
{
    printed_slots(plan, orders) * 2 * plan.lattice().sites() as u64
}

/// The rows that a run from epoch `from` to epoch `until` prints. Takes no memory.
pub fn row_count(plan: &Plan, orders: &Orders, from: u64, until: u64) -> u64
    requires few_samples { orders.now.samples ≤ 256 }
    requires some_every { 1 ≤ orders.now.every }
    requires window { from ≤ until }
    requires until { until ≤ last_epoch }
    ensures { result ≡ rows_of_run plan.now orders.now from until }
{
    printed_slots(plan, orders) * recorded_epochs(orders.every, from, until)
}

// The slots of all printed samples.
fn printed_slots(plan: &Plan, orders: &Orders) -> u64
    requires { orders.now.samples ≤ 256 }
    ensures value { result ≡ orders.now.samples * slots_of plan.now }
    ensures few { result ≤ 8192 }
{
    orders.samples as u64 * plan.slots() as u64
}
