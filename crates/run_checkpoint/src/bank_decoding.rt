//! Reading of a checkpoint of several banks.

ghost use Rattle.std.specs.Arc.{arc_value};
ghost use Rattle.std.specs.Prelude.{◌≡◌, ℕ, ◌+◌, ◌*◌, ◌≤◌, List, None, All, drop, map, length, IfOk, IfErr, IfNone};
ghost use Rattle.spin_model.specs.Limits.{most_slots};
ghost use Rattle.glass_edges.specs.Refusals.{GivesAfterTests};
ghost use Rattle.run_checkpoint.specs.BankDecoding as model;
ghost use Rattle.run_checkpoint.specs.BankEncoding.{bank_len, banks_encoding, HaveOneShape, AreBanks, BanksStand};
ghost use Rattle.run_checkpoint.specs.declared.refused.CheckpointRefused.TheVariants as refused;
ghost use Rattle.run_checkpoint.specs.Lengths.{encoding_len, longest_encoding};
ghost use Rattle.run_checkpoint.specs.Unfilled.{HasRoom};
ghost use Rattle.scalar_rule.specs.Plan.{slots_of, IsLawfulPlan};
ghost use Rattle.scalar_rule.specs.declared.sample.Sample.{Sample};

use crate::checks::{damaged, other_kind, other_length, short};
use crate::decoding::{fill_stand, level_refusal};
use crate::kinds::BANKS_KIND;
use crate::lengths::length;
use crate::places::{behind, piece, u64_at};
use crate::refused::CheckpointRefused;
use crate::unfilled::unfilled_stand;
use glass_edges::{NoMemory, u32_at};
use plane_sweep::Stand;
use scalar_rule::Plan;
use std::alloc::Global;
use std::sync::Arc;

/// The packed states that a checkpoint of several banks is, one for each plan, at one epoch at most
/// `until`. All tests of all banks are made before any memory is taken.
///
/// # Errors
///
/// The first refusal that is due, in the order that docs/specification/checkpoint.md states; else only
/// for lack of memory.
pub fn decode_banks(
    alloc: Global,
    plans: &[Arc<Plan, Global>],
    until: u64,
    bytes: &[u8],
) -> Result<Vec<Stand>, CheckpointRefused>
    requires several { 2 ≤ length plans.now }
    requires few { length plans.now ≤ 4 }
    requires shape { HaveOneShape (map arc_value plans.now) }
    // What is read is the checkpoint of the states that the answers stand for.
    ensures found { IfOk result (λ stands. model.AreEncoded (map arc_value plans.now) until bytes.now stands.items) }
    // The checkpoint of such states is read, unless memory runs out.
    ensures only { (epoch : ℕ) (states : List (ℕ → Sample)) → AreBanks epoch (map arc_value plans.now) states → epoch ≤ until
        → bytes.now ≡ banks_encoding (map arc_value plans.now) states
        → IfOk result (λ stands. BanksStand (map arc_value plans.now) states stands.items) × IfErr result (λ e. e ≡ refused.NoMemory) }
    // Which refusal it is.
    ensures exact { GivesAfterTests refused.NoMemory (λ stands. stands.items) result (model.banks_decoded (map arc_value plans.now) until bytes.now) }
{
    read_lawful(plans);
    read_banks(alloc, plans, until, bytes)
}

// All plans are lawful.
pub(crate) fn read_lawful(plans: &[Arc<Plan, Global>])
    ensures { All IsLawfulPlan (map arc_value plans.now) }
{
    'plans: for g in 0..plans.len() {
        let _ = plans[g].lattice();
    }
}

#[tactic(auto, unfolding(crate::specs::BankDecoding::banks_decoded))]
fn read_banks(
    alloc: Global,
    plans: &[Arc<Plan, Global>],
    until: u64,
    bytes: &[u8],
) -> Result<Vec<Stand>, CheckpointRefused>
    requires several { 2 ≤ length plans.now }
    requires few { length plans.now ≤ 4 }
    requires shape { HaveOneShape (map arc_value plans.now) }
    ensures { GivesAfterTests refused.NoMemory (λ stands. stands.items) result (model.banks_decoded (map arc_value plans.now) until bytes.now) }
{
    let len = bank_len(&plans[0]) as usize;
    if let Some(refused) = banks_refusal(plans, len, until, bytes) {
        return Err(refused);
    }
    Ok(stands_of(alloc, plans, len, behind(bytes, 12))?)
}

// The bytes of one bank's checkpoint.
fn bank_len(plan: &Plan) -> u64
    ensures value { result ≡ encoding_len plan.now.size (slots_of plan.now) }
    ensures least { 88 ≤ result }
    ensures bound { result ≤ longest_encoding }
{
    length(plan.lattice().size(), plan.slots())
}

// The first refusal.
#[tactic(auto, unfolding(crate::specs::BankDecoding::banks_refusal))]
fn banks_refusal(
    plans: &[Arc<Plan, Global>],
    len: usize,
    until: u64,
    bytes: &[u8],
) -> Option<CheckpointRefused>
    requires several { 2 ≤ length plans.now }
    requires few { length plans.now ≤ 4 }
    requires len { len ≡ bank_len (map arc_value plans.now) }
    requires least { 88 ≤ len }
    requires bound { len ≤ longest_encoding }
    ensures value { result ≡ model.banks_refusal (map arc_value plans.now) until bytes.now }
    ensures long { IfNone result (length bytes.now ≡ 44 + len * length plans.now) }
    ensures each { IfNone result (None ≡ model.banks_refused len until (map arc_value plans.now) (drop 12 bytes.now)) }
{
    if let Some(refused) = banks_form(plans, len, bytes) {
        return Some(refused);
    }
    let banks = behind(bytes, 12);
    if let Some(refused) = banks_refused(plans, len, until, banks) {
        return Some(refused);
    }
    epochs_refused(plans.len(), len, banks)
}

// The first refusal of the frame.
#[tactic(auto, unfolding(crate::specs::BankDecoding::banks_form))]
fn banks_form(plans: &[Arc<Plan, Global>], len: usize, bytes: &[u8]) -> Option<CheckpointRefused>
    requires few { length plans.now ≤ 4 }
    requires len { len ≡ bank_len (map arc_value plans.now) }
    requires bound { len ≤ longest_encoding }
    ensures value { result ≡ model.banks_form (map arc_value plans.now) bytes.now }
    ensures long { IfNone result (length bytes.now ≡ 44 + len * length plans.now) }
{
    if let Some(refused) = short(bytes, 44) {
        return Some(refused);
    }
    if let Some(refused) = other_kind(bytes, BANKS_KIND) {
        return Some(refused);
    }
    if let Some(refused) = other_banks(bytes, plans.len() as u32) {
        return Some(refused);
    }
    if let Some(refused) = other_length(bytes, 44 + len as u64 * plans.len() as u64) {
        return Some(refused);
    }
    damaged(bytes)
}

// Another number of banks than that of the plans.
#[tactic(auto, unfolding(crate::specs::BankDecoding::other_banks))]
fn other_banks(bytes: &[u8], wanted: u32) -> Option<CheckpointRefused>
    requires { 12 ≤ length bytes.now }
    ensures { result ≡ model.other_banks wanted bytes.now }
{
    let found = u32_at(bytes, 8);
    if found == wanted {
        None
    } else {
        Some(CheckpointRefused::BankCount { found, wanted })
    }
}

// The first refusal of a bank's own checkpoint.
fn banks_refused(
    plans: &[Arc<Plan, Global>],
    len: usize,
    until: u64,
    bytes: &[u8],
) -> Option<CheckpointRefused>
    requires few { length plans.now ≤ 4 }
    requires bound { len ≤ longest_encoding }
    requires long { len * length plans.now ≤ length bytes.now }
    ensures { result ≡ model.banks_refused len until (map arc_value plans.now) bytes.now }
{
    'banks: for g in 0..plans.len() {
        let bank = piece(behind(bytes, len * g), 0, len);
        if let Some(refused) = level_refusal(&plans[g], until, bank) {
            return Some(refused);
        }
    }
    None
}

// The first bank at another epoch than bank 0.
fn epochs_refused(count: usize, len: usize, bytes: &[u8]) -> Option<CheckpointRefused>
    requires some { 1 ≤ count }
    requires few { count ≤ 4 }
    requires header { 48 ≤ len }
    requires bound { len ≤ longest_encoding }
    requires long { len * count ≤ length bytes.now }
    ensures { result ≡ model.epochs_refused len (model.first_epoch len bytes.now) 0 count bytes.now }
{
    let first = u64_at(piece(bytes, 0, len), 40);
    'banks: for g in 0..count {
        let bank = piece(behind(bytes, len * g), 0, len);
        let epoch = u64_at(bank, 40);
        if epoch != first {
            return Some(CheckpointRefused::BankEpoch {
                bank: g as u32,
                epoch,
                first,
            });
        }
    }
    None
}

// The packed states, of banks that passed the tests. All memory is taken before the first is filled.
fn stands_of(
    alloc: Global,
    plans: &[Arc<Plan, Global>],
    len: usize,
    bytes: &[u8],
) -> Result<Vec<Stand>, NoMemory>
    requires some { 1 ≤ length plans.now }
    requires few { length plans.now ≤ 4 }
    requires bound { len ≤ longest_encoding }
    requires long { len * length plans.now ≤ length bytes.now }
    requires shape { HaveOneShape (map arc_value plans.now) }
    requires len { len ≡ bank_len (map arc_value plans.now) }
    ensures { IfOk result (λ stands. stands.items ≡ model.banks_in len (map arc_value plans.now) bytes.now) }
{
    let (size, slots) = (plans[0].lattice().size(), plans[0].slots());
    let mut stands = unfilled_stands(alloc, plans.len(), size, slots)?;
    'banks: for g in 0..plans.len() {
        let bank = piece(behind(bytes, len * g), 0, len);
        fill_stand(&mut stands[g], &plans[g], bank);
    }
    Ok(stands)
}

// So many states, with all memory that they take.
fn unfilled_stands(
    alloc: Global,
    banks: usize,
    size: u32,
    count: u32,
) -> Result<Vec<Stand>, NoMemory>
    requires size { size ≤ 64 }
    requires some { 1 ≤ count }
    requires few { count ≤ most_slots }
    ensures count { IfOk result (λ stands. length stands.items ≡ banks) }
    ensures room { IfOk result (λ stands. All (HasRoom size count) stands.items) }
{
    let mut stands = Vec::with_capacity(alloc, banks)?;
    'banks: for g in 0..banks {
        stands.push(unfilled_stand(alloc, 0, size, count)?)?;
    }
    Ok(stands)
}
