//! What the files of a run say, of one bank of 64 samples or of several.

use crate::planned::Planned;
use run_plan::Orders;
use scalar_rule::Plan;
use std::alloc::Global;
use std::marker::Model;
use std::sync::Arc;

/// The plans of a run of more than 64 samples, one for each bank of 64, which differ in their
/// couplings alone, and the orders of the whole.
#[derive(Drop)]
pub struct PlannedBanks {
    pub(crate) plans: Vec<Arc<Plan, Global>>,
    pub(crate) orders: Orders,
}

impl Model for PlannedBanks {
    ghost use Rattle.glass_main.specs.ManyBanks as model;

    ghost Value = { model.PlannedBanks };

    ghost use Rattle.glass_main.specs.KeptPlans.{banks_view, KeepsPlans};

    ghost view = { banks_view };

    ghost invariant = { KeepsPlans };
}

/// What the files of a run say.
#[derive(Drop)]
pub enum Plans {
    /// Of a run of up to 64 samples.
    One(Planned),
    /// Of a run of more.
    Banks(PlannedBanks),
}
