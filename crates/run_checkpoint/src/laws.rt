//! Laws of the encodings.

ghost use Rattle.std.specs.Arc.{arc_value};
ghost use Rattle.std.specs.Prelude.{map};
ghost use Rattle.run_checkpoint.specs.Laws.{EncodingIsOne, UnevenEncodingIsOne, BanksEncodingIsOne};

use crate::bank_decoding::read_lawful;
use scalar_rule::Plan;
use std::alloc::Global;
use std::sync::Arc;

/// States of 64 samples that differ have different checkpoints.
pub fn encoding_is_one(plan: &Plan)
    ensures { EncodingIsOne plan.now }
{
    let _ = plan.lattice();
}

/// States whose slots may be at different epochs have different checkpoints where they differ, or the
/// records that are kept ahead, for the same printed samples and recorded epochs.
pub fn uneven_encoding_is_one(plan: &Plan)
    ensures { UnevenEncodingIsOne plan.now }
{
    let _ = plan.lattice();
}

/// States of several banks that differ have different checkpoints.
pub fn banks_encoding_is_one(plans: &[Arc<Plan, Global>])
    ensures { BanksEncodingIsOne (map arc_value plans.now) }
{
    read_lawful(plans);
}
