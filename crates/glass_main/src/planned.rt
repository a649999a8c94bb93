//! A run as its files say it.

use run_plan::Orders;
use scalar_rule::Plan;

/// What a run file, its tables and its couplings say.
#[derive(Drop)]
pub struct Planned {
    pub plan: Plan,
    pub orders: Orders,
}
