//! What a run starts from that may not start with slots at different epochs: its opening states, or those of a checkpoint at one
//! epoch.

ghost use Rattle.std.specs.Arc.{arc_value};
ghost use Rattle.std.specs.Prelude.{◌≡◌, ◌≤◌, [], ◌∷◌, length, map, option_map, Some, IfOk, IfErr};
ghost use Rattle.command_words.specs.ReadCommand.{name_bytes};
ghost use Rattle.glass_edges.specs.Refusals.{GivesAfterTests};
ghost use Rattle.glass_main.specs.CheckpointBytes.{HasBytes, ResumesBytes};
ghost use Rattle.glass_main.specs.Endings.{IsOfLevel};
ghost use Rattle.glass_main.specs.KeptMeasure.{level_banks_decoded};
ghost use Rattle.glass_main.specs.ManyBanks.{banks_opened_by};
ghost use Rattle.glass_main.specs.MeasureRun.{level_resumed_by};
ghost use Rattle.glass_main.specs.Outside.{store};
ghost use Rattle.glass_main.specs.Request as model;
ghost use Rattle.glass_main.specs.Resumes.{AreResumable, Begins, Resumes};
ghost use Rattle.glass_main.specs.Statuses.{IfRefused};
ghost use Rattle.run_checkpoint.specs.BankEncoding.{BanksFit, BanksStand, HaveOneShape};

use crate::bank_resuming::open_each;
use crate::banked::Banked;
use crate::ending::Ending;
use crate::gathering::gather_bytes;
use crate::resuming::ending_of;
use crate::role::Role;
use glass_edges::{NoMemory, Shelf};
use plain_list::Items;
use plane_sweep::Stand;
use run_checkpoint::{CheckpointRefused, decode, decode_banks};
use scalar_rule::Plan;
use std::alloc::Global;
use std::sync::Arc;

/// The packed states at one epoch, one for each bank, that a run to epoch `until` starts from: those of the
/// checkpoint of this name, or where none is named the opening states.
pub(crate) fn gather_level<H: Shelf>(
    alloc: Global,
    shelf: &mut H,
    planned: &Banked,
    until: u64,
    name: Option<&str>,
) -> Result<Items<Stand>, Ending>
    ensures asked { Begins (name_bytes name.entry) (BanksStand planned.now.plans)
        (option_map (model.level_beginning_at (name_bytes name.entry) planned.now until) (H.holds shelf.old))
        result (store H.Shelf shelf.old) (store H.Shelf shelf.new) }
    ensures level { IfErr result (λ ending. IfRefused ending IsOfLevel) }
    ensures resumable { IfOk result (AreResumable planned.now.plans until) }
    ensures bytes { IfOk result (λ stands. ResumesBytes (name_bytes name.entry) (H.holds shelf.old)) }
{
    match name {
        None => match opening_stands(alloc, planned) {
            Ok(stands) => Ok(stands),
            Err(NoMemory) => Err(Ending::NoMemory),
        },
        Some(name) => gather_checkpoint(alloc, shelf, planned, until, name),
    }
}

// The opening states.
fn opening_stands(alloc: Global, planned: &Banked) -> Result<Items<Stand>, NoMemory>
    ensures opening { IfOk result (BanksStand planned.now.plans (banks_opened_by planned.now)) }
    ensures fit { IfOk result (BanksFit 0 planned.now.plans) }
{
    let stands = open_each(alloc, &planned.plans, planned.orders.start)?;
    Ok(Items::of(stands))
}

// The states of the checkpoint of a name.
#[tactic(auto, unfolding(crate::specs::Request::read_at))]
fn gather_checkpoint<H: Shelf>(
    alloc: Global,
    shelf: &mut H,
    planned: &Banked,
    until: u64,
    name: &str,
) -> Result<Items<Stand>, Ending>
    ensures asked { Begins (Some name.now) (BanksStand planned.now.plans)
        (option_map (model.level_checkpoint_at planned.now until name.now) (H.holds shelf.old))
        result (store H.Shelf shelf.old) (store H.Shelf shelf.new) }
    ensures level { IfErr result (λ ending. IfRefused ending IsOfLevel) }
    ensures resumable { IfOk result (AreResumable planned.now.plans until) }
    ensures bytes { IfOk result (λ stands. HasBytes (H.holds shelf.old) name.now) }
{
    let bytes = match gather_bytes(alloc, shelf, Role::Checkpoint, name) {
        Ok(bytes) => bytes,
        Err(ending) => return Err(ending),
    };
    decode_level(alloc, planned, until, bytes.as_slice())
}

// The states that the bytes of a checkpoint are, or why they are refused.
fn decode_level(
    alloc: Global,
    planned: &Banked,
    until: u64,
    bytes: &[u8],
) -> Result<Items<Stand>, Ending>
    ensures read { Resumes (BanksStand planned.now.plans) (level_resumed_by planned.now until bytes.now) result }
    ensures level { IfErr result (λ ending. IfRefused ending IsOfLevel) }
    ensures resumable { IfOk result (AreResumable planned.now.plans until) }
{
    match stands_in(alloc, &planned.plans, until, bytes) {
        Ok(stands) => Ok(Items::of(stands)),
        Err(refused) => Err(ending_of(refused)),
    }
}

// The same, of one bank or of several.
fn stands_in(
    alloc: Global,
    plans: &[Arc<Plan, Global>],
    until: u64,
    bytes: &[u8],
) -> Result<Vec<Stand>, CheckpointRefused>
    requires some { 1 ≤ length plans.now }
    requires few { length plans.now ≤ 4 }
    requires shape { HaveOneShape (map arc_value plans.now) }
    ensures exact { GivesAfterTests CheckpointRefused.NoMemory (λ stands. stands.items) result
        (level_banks_decoded (map arc_value plans.now) until bytes.now) }
    ensures resumable { IfOk result (λ stands. AreResumable (map arc_value plans.now) until stands.items) }
{
    if plans.len() == 1 {
        only_stand(alloc, &plans[0], until, bytes)
    } else {
        decode_banks(alloc, plans, until, bytes)
    }
}

// That of the only bank.
#[tactic(auto, unfolding(crate::specs::KeptMeasure::level_banks_decoded))]
fn only_stand(
    alloc: Global,
    plan: &Plan,
    until: u64,
    bytes: &[u8],
) -> Result<Vec<Stand>, CheckpointRefused>
    ensures exact { GivesAfterTests CheckpointRefused.NoMemory (λ stands. stands.items) result
        (level_banks_decoded (plan.now ∷ []) until bytes.now) }
    ensures resumable { IfOk result (λ stands. AreResumable (plan.now ∷ []) until stands.items) }
{
    match decode(alloc, plan, until, bytes) {
        Ok(stand) => match alone(alloc, stand) {
            Ok(stands) => Ok(stands),
            Err(NoMemory) => Err(CheckpointRefused::NoMemory),
        },
        Err(refused) => Err(refused),
    }
}

// A list of one state.
fn alone(alloc: Global, stand: Stand) -> Result<Vec<Stand>, NoMemory>
    ensures { IfOk result (λ stands. stands.items ≡ stand ∷ []) }
{
    let mut stands = Vec::with_capacity(alloc, 1)?;
    stands.push(stand)?;
    Ok(stands)
}
