//! The plans of a run as a list, of one bank of 64 samples or of several.

ghost use Rattle.std.specs.Prelude.{◌≡◌, IfOk};
ghost use Rattle.glass_main.specs.BankTables.{HasLawfulOrders};
ghost use Rattle.glass_main.specs.MeasureRun.{banks_of};

use crate::finishing::alone;
use crate::planned::Planned;
use crate::plans::{PlannedBanks, Plans};
use glass_edges::NoMemory;
use run_plan::Orders;
use scalar_rule::Plan;
use std::alloc::Global;
use std::marker::Model;
use std::sync::Arc;

/// The plan of each bank, 1 to 4, which differ in their couplings alone, and the orders of the whole.
#[derive(Drop)]
pub(crate) struct Banked {
    pub(crate) plans: Vec<Arc<Plan, Global>>,
    pub(crate) orders: Orders,
}

impl Model for Banked {
    ghost use Rattle.glass_main.specs.ManyBanks as model;

    ghost Value = { model.PlannedBanks };

    ghost use Rattle.glass_main.specs.KeptMeasure.{banked_view, KeepsBanked};

    ghost view = { banked_view };

    ghost invariant = { KeepsBanked };
}

/// The same plans as a list.
pub(crate) fn list_banks(alloc: Global, plans: Plans) -> Result<Banked, NoMemory>
    requires { HasLawfulOrders plans }
    ensures { IfOk result (λ banked. banked ≡ banks_of plans) }
{
    match plans {
        Plans::One(planned) => one_bank(alloc, planned),
        Plans::Banks(planned) => Ok(of_banks(planned)),
    }
}

// The plan of the only bank.
fn one_bank(alloc: Global, planned: Planned) -> Result<Banked, NoMemory>
    requires { HasLawfulOrders (Plans.One planned) }
    ensures { IfOk result (λ banked. banked ≡ banks_of (Plans.One planned)) }
{
    let Planned { plan, orders } = planned;
    let plan = Arc::new(alloc, plan)?;
    let plans = alone(alloc, plan)?;
    Ok(Banked { plans, orders })
}

// The plans of several banks.
fn of_banks(planned: PlannedBanks) -> Banked
    ensures { result ≡ planned }
{
    let PlannedBanks { plans, orders } = planned;
    Banked { plans, orders }
}
