//! The tests that all kinds of checkpoints share, in the order in which they are made.

ghost use Rattle.std.specs.Prelude.{◌≡◌, ◌+◌, ◌≤◌, length, IfNone};
ghost use Rattle.run_checkpoint.specs.Tests as tests;

use crate::places::{behind, piece};
use crate::refused::CheckpointRefused;
use glass_edges::{stored_digest, u32_at};
use run_plan::digest;
use scalar_rule::Plan;
use sha2::{Digest, Sha256};

// The first refusal of the form: the fewest bytes, the letters, the shape at a place, the number of all
// bytes, and both digests.
#[tactic(auto, unfolding(crate::specs::Tests::form_refusal))]
pub(crate) fn form_refusal(
    bytes: &[u8],
    plan: &Plan,
    least: usize,
    kind: &[u8; 8],
    place: usize,
    wanted: u64,
) -> Option<CheckpointRefused>
    requires place { place + 8 ≤ least }
    requires least { 40 ≤ least }
    ensures value { result ≡ tests.form_refusal (record { least = least; kind = kind.now; place = place; len = wanted }) plan.now bytes.now }
    ensures long { IfNone result (length bytes.now ≡ wanted) }
{
    if let Some(refused) = short(bytes, least) {
        return Some(refused);
    }
    if let Some(refused) = other_kind(bytes, kind) {
        return Some(refused);
    }
    if let Some(refused) = other_shape(bytes, plan, place) {
        return Some(refused);
    }
    if let Some(refused) = other_length(bytes, wanted) {
        return Some(refused);
    }
    if let Some(refused) = damaged(bytes) {
        return Some(refused);
    }
    other_plan(bytes, plan)
}

// Fewer bytes than are wanted at least.
#[tactic(auto, unfolding(crate::specs::Tests::short))]
pub(crate) fn short(bytes: &[u8], least: usize) -> Option<CheckpointRefused>
    ensures value { result ≡ tests.short least bytes.now }
    ensures long { IfNone result (least ≤ length bytes.now) }
{
    let len = bytes.len();
    if len < least {
        return Some(CheckpointRefused::Short { len: len as u64 });
    }
    None
}

// Another kind of file.
#[tactic(auto, unfolding(crate::specs::Tests::other_kind))]
pub(crate) fn other_kind(bytes: &[u8], kind: &[u8]) -> Option<CheckpointRefused>
    requires { 8 ≤ length bytes.now }
    ensures { result ≡ tests.other_kind kind.now bytes.now }
{
    if &bytes[..8] == kind {
        None
    } else {
        Some(CheckpointRefused::Magic)
    }
}

// Another size or number of slots than the plan's, at a place and behind it.
#[tactic(auto, unfolding(crate::specs::Tests::other_shape))]
pub(crate) fn other_shape(bytes: &[u8], plan: &Plan, place: usize) -> Option<CheckpointRefused>
    requires { place + 8 ≤ length bytes.now }
    ensures { result ≡ tests.other_shape plan.now place bytes.now }
{
    let size = u32_at(bytes, place);
    let slots = u32_at(bytes, place + 4);
    if size == plan.lattice().size() && slots == plan.slots() {
        None
    } else {
        Some(CheckpointRefused::Shape { size, slots })
    }
}

// Another length than is wanted.
#[tactic(auto, unfolding(crate::specs::Tests::other_length))]
pub(crate) fn other_length(bytes: &[u8], wanted: u64) -> Option<CheckpointRefused>
    ensures value { result ≡ tests.other_length wanted bytes.now }
    ensures len { IfNone result (length bytes.now ≡ wanted) }
{
    let found = bytes.len() as u64;
    if found == wanted {
        None
    } else {
        Some(CheckpointRefused::Length { found, wanted })
    }
}

// Another digest than that of all bytes before it.
#[tactic(auto, unfolding(crate::specs::Tests::damaged))]
pub(crate) fn damaged(bytes: &[u8]) -> Option<CheckpointRefused>
    requires { 32 ≤ length bytes.now }
    ensures { result ≡ tests.damaged bytes.now }
{
    let end = bytes.len() - 32;
    let stored = stored_digest(behind(bytes, end));
    let computed = Sha256::digest(&bytes[..end]);
    if stored == computed {
        None
    } else {
        Some(CheckpointRefused::Digest { stored, computed })
    }
}

// Another plan's digest.
#[tactic(auto, unfolding(crate::specs::Tests::other_plan))]
pub(crate) fn other_plan(bytes: &[u8], plan: &Plan) -> Option<CheckpointRefused>
    requires { 40 ≤ length bytes.now }
    ensures { result ≡ tests.other_plan plan.now bytes.now }
{
    let stored = stored_digest(piece(bytes, 8, 32));
    let mine = digest(plan);
    if stored == mine {
        None
    } else {
        Some(CheckpointRefused::OtherPlan { stored, mine })
    }
}

// An epoch past the last one wanted.
#[tactic(auto, unfolding(crate::specs::Tests::late))]
pub(crate) fn late(epoch: u64, until: u64) -> Option<CheckpointRefused>
    ensures { result ≡ tests.late until epoch }
{
    if epoch > until {
        return Some(CheckpointRefused::Late { epoch, until });
    }
    None
}
