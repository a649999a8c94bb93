//! Reading of a checkpoint whose slots are all at one epoch.

ghost use Rattle.std.specs.Prelude.{◌≡◌, ◌≤◌, ℕ, length, IfOk, IfErr, IfNone};
ghost use Rattle.glass_edges.specs.Refusals.{GivesAfterTests};
ghost use Rattle.plane_sweep.specs.Packed.{StandsFor};
ghost use Rattle.scalar_rule.specs.Plan.{slots_of};
ghost use Rattle.scalar_rule.specs.declared.sample.Sample.{Sample};
ghost use Rattle.run_checkpoint.specs.Decoding as model;
ghost use Rattle.run_checkpoint.specs.Encoding.{encoding, AreBankStates};
ghost use Rattle.run_checkpoint.specs.Lengths.{encoding_len};
ghost use Rattle.run_checkpoint.specs.Reading.{stand_in};
ghost use Rattle.run_checkpoint.specs.Unfilled.{HasRoom};
ghost use Rattle.run_checkpoint.specs.declared.refused.CheckpointRefused.TheVariants as refused;

use crate::checks::{form_refusal, late};
use crate::kinds::LEVEL_KIND;
use crate::labels::wrong_label;
use crate::lengths::length;
use crate::places::{behind, u64_at};
use crate::reading::fill_contents;
use crate::refused::CheckpointRefused;
use crate::unfilled::unfilled_stand;
use glass_edges::NoMemory;
use plane_sweep::Stand;
use scalar_rule::Plan;
use std::alloc::Global;

/// The packed state that a checkpoint of this plan is, at an epoch at most `until`. All tests are made
/// before any memory is taken.
///
/// # Errors
///
/// The first refusal that is due, in the order that docs/specification/checkpoint.md states; else only
/// for lack of memory.
pub fn decode(
    alloc: Global,
    plan: &Plan,
    until: u64,
    bytes: &[u8],
) -> Result<Stand, CheckpointRefused>
    // What is read is the checkpoint of the states that the answer stands for.
    ensures found { IfOk result (model.IsEncoded plan.now until bytes.now) }
    // The checkpoint of such states is read, unless memory runs out.
    ensures only { (states : ℕ → Sample) → AreBankStates plan.now states → (states 0).epoch ≤ until
        → bytes.now ≡ encoding plan.now states
        → IfOk result (StandsFor plan.now states) × IfErr result (λ e. e ≡ refused.NoMemory) }
    // Which refusal it is.
    ensures exact { GivesAfterTests refused.NoMemory (λ stand. stand) result (model.decoded plan.now until bytes.now) }
{
    // A plan is lawful.
    let _ = plan.lattice();
    read(alloc, plan, until, bytes)
}

#[tactic(auto, unfolding(crate::specs::Decoding::decoded))]
fn read(alloc: Global, plan: &Plan, until: u64, bytes: &[u8]) -> Result<Stand, CheckpointRefused>
    ensures { GivesAfterTests refused.NoMemory (λ stand. stand) result (model.decoded plan.now until bytes.now) }
{
    if let Some(refused) = level_refusal(plan, until, bytes) {
        return Err(refused);
    }
    Ok(stand_of(alloc, plan, bytes)?)
}

// The first refusal.
#[tactic(auto, unfolding(crate::specs::Decoding::level_refusal, crate::specs::Reading::stand_in, crate::specs::Lengths::encoding_len, crate::specs::Lengths::contents_len))]
pub(crate) fn level_refusal(plan: &Plan, until: u64, bytes: &[u8]) -> Option<CheckpointRefused>
    ensures value { result ≡ model.level_refusal plan.now until bytes.now }
    ensures long { IfNone result (length bytes.now ≡ encoding_len plan.now.size (slots_of plan.now)) }
{
    let wanted = length(plan.lattice().size(), plan.slots());
    if let Some(refused) = form_refusal(bytes, plan, 88, LEVEL_KIND, 48, wanted) {
        return Some(refused);
    }
    let contents = behind(bytes, 56);
    if let Some(refused) = wrong_label(contents, plan.lattice().size(), plan.slots() as usize) {
        return Some(refused);
    }
    late(u64_at(bytes, 40), until)
}

// The state, of bytes that passed the tests of the form. All its memory is taken before it is filled.
fn stand_of(alloc: Global, plan: &Plan, bytes: &[u8]) -> Result<Stand, NoMemory>
    requires { length bytes.now ≡ encoding_len plan.now.size (slots_of plan.now) }
    ensures { IfOk result (λ stand. stand ≡ stand_in plan.now bytes.now) }
{
    let mut stand = unfilled_stand(alloc, 0, plan.lattice().size(), plan.slots())?;
    fill_stand(&mut stand, plan, bytes);
    Ok(stand)
}

// Fills it.
#[tactic(auto, unfolding(crate::specs::Reading::stand_in, crate::specs::Lengths::encoding_len, crate::specs::Lengths::contents_len))]
pub(crate) fn fill_stand(stand: &mut Stand, plan: &Plan, bytes: &[u8])
    requires len { length bytes.now ≡ encoding_len plan.now.size (slots_of plan.now) }
    requires room { HasRoom plan.now.size (slots_of plan.now) stand.old }
    ensures { stand.new ≡ stand_in plan.now bytes.now }
{
    let size = plan.lattice().size();
    stand.epoch = u64_at(bytes, 40);
    fill_contents(
        &mut stand.slots,
        &mut stand.pairs,
        size,
        plan.slots(),
        behind(bytes, 56),
    );
}
