//! The banks of 64 samples that a run has.

ghost use Rattle.std.specs.Prelude.{◌≡◌, ◌≤◌, false, IfOk};
ghost use Rattle.glass_edges.specs.Refusals.{unless};
ghost use Rattle.run_plan.specs.Banks.{banks_refusal};

use crate::refused::PlanRefused;
use crate::run_file::Orders;
use spin_model::BANK_SAMPLES;

/// Tests whether a command can run the samples of these orders: those of one bank, or with `many`
/// those of all banks. Takes no memory.
///
/// # Errors
///
/// `Banks` where the samples need more than one bank and the command has but one.
pub fn check_banks(orders: &Orders, many: bool) -> Result<(), PlanRefused>
    ensures exact { result ≡ unless (banks_refusal orders.now many) tt }
    ensures one_bank { many ≡ false → IfOk result (λ _. orders.now.samples ≤ 64) }
{
    if !many && orders.samples > BANK_SAMPLES {
        return Err(PlanRefused::Banks {
            samples: orders.samples,
        });
    }
    Ok(())
}
