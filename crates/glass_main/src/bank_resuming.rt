//! What a run of several banks starts from: the opening states of each, or those of a checkpoint.

ghost use Rattle.std.specs.Prelude.{◌≤◌, length, map, option_map, Some, IfOk};
ghost use Rattle.std.specs.Arc.{arc_value};
ghost use Rattle.run_checkpoint.specs.BankEncoding.{BanksFit, BanksStand};
ghost use Rattle.glass_main.specs.CheckpointBytes.{HasBytes, ResumesBytes};
ghost use Rattle.glass_main.specs.ManyBanks.{banks_opened_by, banks_resumed_by, openings_from};
ghost use Rattle.glass_main.specs.Outside.{store};
ghost use Rattle.command_words.specs.ReadCommand.{name_bytes};
ghost use Rattle.glass_main.specs.Request as model;
ghost use Rattle.glass_main.specs.Resumes.{AreResumable, Begins, Resumes};

use crate::ending::Ending;
use crate::gathering::gather_bytes;
use crate::plans::PlannedBanks;
use crate::resuming::ending_of;
use crate::role::Role;
use glass_edges::{NoMemory, Shelf};
use plain_list::Items;
use plane_sweep::Stand;
use run_checkpoint::decode_banks;
use scalar_rule::{Plan, Start};
use std::alloc::Global;
use std::sync::Arc;

/// The packed states, one for each bank, that a run to epoch `until` starts from: those of the checkpoint
/// of this name, or where none is named the opening states.
pub(crate) fn gather_stands<H: Shelf>(
    alloc: Global,
    shelf: &mut H,
    planned: &PlannedBanks,
    until: u64,
    name: Option<&str>,
) -> Result<Items<Stand>, Ending>
    ensures asked { Begins (name_bytes name.entry) (BanksStand planned.now.plans)
        (option_map (model.banks_beginning_at (name_bytes name.entry) planned.now until) (H.holds shelf.old))
        result (store H.Shelf shelf.old) (store H.Shelf shelf.new) }
    ensures resumable { IfOk result (AreResumable planned.now.plans until) }
    ensures bytes { IfOk result (λ stands. ResumesBytes (name_bytes name.entry) (H.holds shelf.old)) }
{
    match name {
        None => match opening_stands(alloc, planned) {
            Ok(stands) => Ok(stands),
            Err(NoMemory) => Err(Ending::NoMemory),
        },
        Some(name) => gather_checkpoint(alloc, shelf, planned, until, name),
    }
}

// The opening states.
fn opening_stands(alloc: Global, planned: &PlannedBanks) -> Result<Items<Stand>, NoMemory>
    ensures opening { IfOk result (BanksStand planned.now.plans (banks_opened_by planned.now)) }
    ensures fit { IfOk result (BanksFit 0 planned.now.plans) }
{
    let stands = open_each(alloc, &planned.plans, planned.orders.start)?;
    Ok(Items::of(stands))
}

/// The states that the samples of each bank begin with, packed.
pub(crate) fn open_each(
    alloc: Global,
    plans: &[Arc<Plan, Global>],
    start: Start,
) -> Result<Vec<Stand>, NoMemory>
    requires { length plans.now ≤ 4 }
    ensures opening { IfOk result (λ stands.
        BanksStand (map arc_value plans.now) (openings_from 0 (map arc_value plans.now) start) stands.items) }
    ensures fit { IfOk result (λ stands. BanksFit 0 (map arc_value plans.now) stands.items) }
{
    let mut stands = Vec::with_capacity(alloc, plans.len())?;
    'banks: for bank in 0..plans.len() {
        stands.push(Stand::opening_bank(alloc, &plans[bank], start, bank as u32)?)?;
    }
    Ok(stands)
}

// The states of the checkpoint of a name.
#[tactic(auto, unfolding(crate::specs::Request::read_at))]
fn gather_checkpoint<H: Shelf>(
    alloc: Global,
    shelf: &mut H,
    planned: &PlannedBanks,
    until: u64,
    name: &str,
) -> Result<Items<Stand>, Ending>
    ensures asked { Begins (Some name.now) (BanksStand planned.now.plans)
        (option_map (model.banks_checkpoint_at planned.now until name.now) (H.holds shelf.old))
        result (store H.Shelf shelf.old) (store H.Shelf shelf.new) }
    ensures resumable { IfOk result (AreResumable planned.now.plans until) }
    ensures bytes { IfOk result (λ stands. HasBytes (H.holds shelf.old) name.now) }
{
    let bytes = match gather_bytes(alloc, shelf, Role::Checkpoint, name) {
        Ok(bytes) => bytes,
        Err(ending) => return Err(ending),
    };
    decode(alloc, planned, until, bytes.as_slice())
}

// The states that the bytes of a checkpoint are, or why they are refused.
fn decode(
    alloc: Global,
    planned: &PlannedBanks,
    until: u64,
    bytes: &[u8],
) -> Result<Items<Stand>, Ending>
    ensures read { Resumes (BanksStand planned.now.plans) (banks_resumed_by planned.now until bytes.now) result }
    ensures resumable { IfOk result (AreResumable planned.now.plans until) }
{
    match decode_banks(alloc, &planned.plans, until, bytes) {
        Ok(stands) => Ok(Items::of(stands)),
        Err(refused) => Err(ending_of(refused)),
    }
}
