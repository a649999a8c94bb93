//! Reading of a checkpoint of either kind.

ghost use Rattle.std.specs.Prelude.{◌≡◌, ℕ, ◌+◌, ◌*◌, ◌<◌, ◌≤◌, [], List, length, IfOk, IfErr, IfNone};
ghost use Rattle.glass_edges.specs.Refusals.{GivesAfterTests};
ghost use Rattle.spin_model.specs.Limits.{last_epoch};
ghost use Rattle.plane_sweep.specs.Uneven.{level_stand, uneven_part, RaggedStandFits};
ghost use Rattle.run_checkpoint.specs.Encoding.{encoding, AreBankStates, uneven_encoding, AreUnevenStates};
ghost use Rattle.run_checkpoint.specs.Lengths.{encoding_len, uneven_len};
ghost use Rattle.run_checkpoint.specs.Reading.{stand_in};
ghost use Rattle.run_checkpoint.specs.Tests.{form_refusal};
ghost use Rattle.run_checkpoint.specs.UnevenDecoding as model;
ghost use Rattle.run_checkpoint.specs.declared.refused.CheckpointRefused.TheVariants as refused;
ghost use Rattle.scalar_rule.specs.Laws.{level_start};
ghost use Rattle.scalar_rule.specs.Plan.{slots_of};
ghost use Rattle.scalar_rule.specs.Positions.{deepest_of};
ghost use Rattle.scalar_rule.specs.Ragged.{UnevenState};
ghost use Rattle.scalar_rule.specs.declared.sample.Record.{Record};
ghost use Rattle.scalar_rule.specs.declared.sample.Sample.{Sample};

use crate::checks::{form_refusal, late, short};
use crate::decoding::level_refusal;
use crate::kinds::UNEVEN_KIND;
use crate::labels::wrong_label;
use crate::lengths::{contents_len, uneven_len};
use crate::places::{behind, u64_at};
use crate::reading::{fill_contents, fill_places, fill_records};
use crate::refused::CheckpointRefused;
use crate::uneven_checks::{greatest_done, other_count, other_orders, wrong_place};
use crate::unfilled::{unfilled_ragged, unfilled_stand};
use glass_edges::{NoMemory, u32_at};
use plane_sweep::RaggedStand;
use scalar_rule::Plan;
use std::alloc::Global;

/// The packed state that a checkpoint of this plan is: one at one epoch, or one whose slots may be at
/// different epochs, of these printed samples and recorded epochs, none past `until`. All tests are
/// made before any memory is taken.
///
/// # Errors
///
/// The first refusal that is due, in the order that docs/specification/checkpoint.md states; else only
/// for lack of memory.
pub fn decode_any(
    alloc: Global,
    plan: &Plan,
    samples: u32,
    every: u64,
    until: u64,
    bytes: &[u8],
) -> Result<RaggedStand, CheckpointRefused>
    requires some_samples { 1 ≤ samples }
    requires few_samples { samples ≤ 64 }
    requires every { 1 ≤ every }
    requires until { until ≤ last_epoch }
    // What is read is the checkpoint of the states that the answer stands for.
    ensures found { IfOk result (model.IsAnyEncoded plan.now samples every until bytes.now) }
    ensures fits { IfOk result (RaggedStandFits plan.now samples every) }
    // The checkpoint of states at one epoch is read, unless memory runs out.
    ensures level { (states : ℕ → Sample) → AreBankStates plan.now states → (states 0).epoch ≤ until
        → bytes.now ≡ encoding plan.now states
        → IfOk result (λ stand. ((b : ℕ) → b < 64 → uneven_part plan.now.size b stand ≡ level_start plan.now (states b)) × (stand.pending ≡ []))
        × IfErr result (λ e. e ≡ refused.NoMemory) }
    // So is that of states whose slots may be at different epochs.
    ensures uneven { (states : ℕ → UnevenState) (pending : List Record) → AreUnevenStates plan.now samples every states pending
        → deepest_of (states 0).positions ≤ until → bytes.now ≡ uneven_encoding plan.now samples every states pending
        → IfOk result (λ stand. ((b : ℕ) → b < 64 → uneven_part plan.now.size b stand ≡ states b) × (stand.pending ≡ pending))
        × IfErr result (λ e. e ≡ refused.NoMemory) }
    // Which refusal it is.
    ensures exact { GivesAfterTests refused.NoMemory (λ stand. stand) result (model.any_decoded plan.now samples every until bytes.now) }
{
    // A plan is lawful.
    let _ = plan.lattice();
    read_any(alloc, plan, samples, every, until, bytes)
}

#[tactic(auto, unfolding(crate::specs::UnevenDecoding::any_decoded))]
fn read_any(
    alloc: Global,
    plan: &Plan,
    samples: u32,
    every: u64,
    until: u64,
    bytes: &[u8],
) -> Result<RaggedStand, CheckpointRefused>
    requires some_samples { 1 ≤ samples }
    requires few_samples { samples ≤ 64 }
    requires every { 1 ≤ every }
    ensures { GivesAfterTests refused.NoMemory (λ stand. stand) result (model.any_decoded plan.now samples every until bytes.now) }
{
    if let Some(refused) = any_refusal(plan, samples, every, until, bytes) {
        return Err(refused);
    }
    Ok(ragged_of(alloc, plan, bytes)?)
}

// The first refusal.
#[tactic(auto, unfolding(crate::specs::UnevenDecoding::any_refusal))]
fn any_refusal(
    plan: &Plan,
    samples: u32,
    every: u64,
    until: u64,
    bytes: &[u8],
) -> Option<CheckpointRefused>
    requires some_samples { 1 ≤ samples }
    requires few_samples { samples ≤ 64 }
    requires every { 1 ≤ every }
    ensures value { result ≡ model.any_refusal plan.now samples every until bytes.now }
    ensures long { IfNone result (model.HasLength plan.now bytes.now) }
    ensures header { IfNone result (88 ≤ length bytes.now) }
{
    if let Some(refused) = short(bytes, 88) {
        return Some(refused);
    }
    if is_uneven(bytes) {
        uneven_refusal(plan, samples, every, until, bytes)
    } else {
        level_refusal(plan, until, bytes)
    }
}

// Whether the bytes are of the kind whose slots may be at different epochs.
fn is_uneven(bytes: &[u8]) -> bool
    requires { 8 ≤ length bytes.now }
    ensures { result ≡ model.is_uneven bytes.now }
{
    &bytes[..8] == UNEVEN_KIND.as_slice()
}

// The first refusal of bytes of that kind.
#[tactic(auto, unfolding(crate::specs::UnevenDecoding::uneven_refusal, crate::specs::UnevenDecoding::uneven_in, crate::specs::Lengths::uneven_len, crate::specs::Lengths::contents_len))]
fn uneven_refusal(
    plan: &Plan,
    samples: u32,
    every: u64,
    until: u64,
    bytes: &[u8],
) -> Option<CheckpointRefused>
    requires some_samples { 1 ≤ samples }
    requires few_samples { samples ≤ 64 }
    requires every { 1 ≤ every }
    ensures value { result ≡ model.uneven_refusal plan.now samples every until bytes.now }
    ensures long { IfNone result (length bytes.now ≡ uneven_len plan.now.size (slots_of plan.now) (model.count_in bytes.now)) }
{
    if let Some(refused) = uneven_form(plan, bytes) {
        return Some(refused);
    }
    let slots = plan.slots() as usize;
    if let Some(refused) = wrong_label(
        behind(bytes, 64 + 9 * slots),
        plan.lattice().size(),
        slots,
    ) {
        return Some(refused);
    }
    let places = behind(bytes, 64);
    if let Some(refused) = wrong_place(places, slots) {
        return Some(refused);
    }
    if let Some(refused) = other_orders(bytes, samples, every) {
        return Some(refused);
    }
    if let Some(refused) = other_count(places, slots, samples, every, u32_at(bytes, 60)) {
        return Some(refused);
    }
    late(greatest_done(places, slots), until)
}

// The first refusal of its form. The number of records is read where there are bytes enough.
#[tactic(auto, unfolding(crate::specs::Tests::form_refusal))]
fn uneven_form(plan: &Plan, bytes: &[u8]) -> Option<CheckpointRefused>
    ensures value { result ≡ form_refusal (model.uneven_layout plan.now bytes.now) plan.now bytes.now }
    ensures long { IfNone result (length bytes.now ≡ uneven_len plan.now.size (slots_of plan.now) (model.count_in bytes.now)) }
{
    if let Some(refused) = short(bytes, 96) {
        return Some(refused);
    }
    let count = u32_at(bytes, 60) as u64;
    let wanted = uneven_len(plan.lattice().size(), plan.slots(), count);
    form_refusal(bytes, plan, 96, UNEVEN_KIND, 40, wanted)
}

// The state, of bytes that passed the tests. All its memory is taken before it is filled.
#[tactic(auto, unfolding(crate::specs::UnevenDecoding::any_in))]
fn ragged_of(alloc: Global, plan: &Plan, bytes: &[u8]) -> Result<RaggedStand, NoMemory>
    requires header { 88 ≤ length bytes.now }
    requires long { model.HasLength plan.now bytes.now }
    ensures { IfOk result (λ stand. stand ≡ model.any_in plan.now bytes.now) }
{
    if is_uneven(bytes) {
        uneven_of(alloc, plan, bytes)
    } else {
        level_of(alloc, plan, bytes)
    }
}

#[tactic(auto, unfolding(crate::specs::Reading::stand_in, crate::specs::Lengths::encoding_len, crate::specs::Lengths::contents_len))]
fn level_of(alloc: Global, plan: &Plan, bytes: &[u8]) -> Result<RaggedStand, NoMemory>
    requires { length bytes.now ≡ encoding_len plan.now.size (slots_of plan.now) }
    ensures { IfOk result (λ stand. stand ≡ level_stand (stand_in plan.now bytes.now)) }
{
    let size = plan.lattice().size();
    let stand = unfilled_stand(alloc, u64_at(bytes, 40), size, plan.slots())?;
    let mut ragged = RaggedStand::level(alloc, stand)?;
    fill_contents(
        &mut ragged.slots,
        &mut ragged.pairs,
        size,
        plan.slots(),
        behind(bytes, 56),
    );
    Ok(ragged)
}

#[tactic(auto, unfolding(crate::specs::UnevenDecoding::uneven_in, crate::specs::Lengths::uneven_len, crate::specs::Lengths::contents_len))]
fn uneven_of(alloc: Global, plan: &Plan, bytes: &[u8]) -> Result<RaggedStand, NoMemory>
    requires { length bytes.now ≡ uneven_len plan.now.size (slots_of plan.now) (model.count_in bytes.now) }
    ensures { IfOk result (λ stand. stand ≡ model.uneven_in plan.now bytes.now) }
{
    let size = plan.lattice().size();
    let slots = plan.slots();
    let count = u32_at(bytes, 60) as usize;
    let mut ragged = unfilled_ragged(alloc, size, slots, count)?;
    let contents = behind(bytes, 64 + 9 * slots as usize);
    let records = behind(contents, contents_len(size, slots) as usize);
    fill_places(&mut ragged.places, slots as usize, behind(bytes, 64));
    fill_contents(&mut ragged.slots, &mut ragged.pairs, size, slots, contents);
    fill_records(&mut ragged.pending, count, records);
    Ok(ragged)
}
