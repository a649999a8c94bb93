//! Reading of the checkpoint of a state at one epoch, of one bank of 64 samples or of several.

ghost use Rattle.std.specs.Arc.{arc_value};
ghost use Rattle.std.specs.Prelude.{◌≡◌, ◌≤◌, [], ◌∷◌, map, length, IfOk};
ghost use Rattle.glass_edges.specs.Refusals.{GivesAfterTests};
ghost use Rattle.kept_states.specs.Levels.{level_len, level_banks_decoded, IsLevelCheckpoint};
ghost use Rattle.quenched_states.specs.KeptBytes.{longest_kept};
ghost use Rattle.run_checkpoint.specs.BankEncoding.{HaveOneShape};
ghost use Rattle.run_checkpoint.specs.declared.refused.CheckpointRefused.TheVariants as refused;

use glass_edges::NoMemory;
use plain_list::Items;
use plane_sweep::Stand;
use run_checkpoint::{CheckpointRefused, decode, decode_banks, length};
use scalar_rule::Plan;
use std::alloc::Global;
use std::sync::Arc;

/// The number of bytes of the checkpoint of a state at one epoch, with a plan for each bank.
#[tactic(auto, unfolding(crate::specs::Levels::level_len))]
pub fn level_length(plans: &[Arc<Plan, Global>]) -> u64
    requires some { 1 ≤ length plans.now }
    requires few { length plans.now ≤ 4 }
    ensures value { result ≡ level_len (map arc_value plans.now) }
    ensures bound { result ≤ longest_kept }
{
    let bank = length(plans[0].lattice().size(), plans[0].slots());
    if plans.len() == 1 {
        bank
    } else {
        44 + bank * plans.len() as u64
    }
}

/// The packed states of the banks, one for each plan, that a checkpoint at one epoch is, at most `until`. All
/// tests are made before any memory is taken.
///
/// # Errors
///
/// The first refusal that is due, in the order that docs/specification/checkpoint.md states; else only
/// for lack of memory.
pub fn decode_level(
    alloc: Global,
    plans: &[Arc<Plan, Global>],
    until: u64,
    bytes: &[u8],
) -> Result<Items<Stand>, CheckpointRefused>
    requires some { 1 ≤ length plans.now }
    requires few { length plans.now ≤ 4 }
    requires shape { HaveOneShape (map arc_value plans.now) }
    // What is read are the states whose checkpoint the bytes are.
    ensures found { IfOk result (IsLevelCheckpoint (map arc_value plans.now) until bytes.now) }
    // Which refusal it is.
    ensures exact { GivesAfterTests refused.NoMemory (λ stands. stands) result (level_banks_decoded (map arc_value plans.now) until bytes.now) }
{
    if plans.len() == 1 {
        decode_one(alloc, &plans[0], until, bytes)
    } else {
        let stands = decode_banks(alloc, plans, until, bytes)?;
        Ok(Items::of(stands))
    }
}

// That of the only bank.
fn decode_one(
    alloc: Global,
    plan: &Plan,
    until: u64,
    bytes: &[u8],
) -> Result<Items<Stand>, CheckpointRefused>
    ensures found { IfOk result (IsLevelCheckpoint (plan.now ∷ []) until bytes.now) }
    ensures exact { GivesAfterTests refused.NoMemory (λ stands. stands) result (level_banks_decoded (plan.now ∷ []) until bytes.now) }
{
    let stand = decode(alloc, plan, until, bytes)?;
    Ok(alone(alloc, stand)?)
}

// A list of one state.
fn alone(alloc: Global, stand: Stand) -> Result<Items<Stand>, NoMemory>
    ensures { IfOk result (λ stands. stands ≡ stand ∷ []) }
{
    let mut stands = Vec::with_capacity(alloc, 1)?;
    stands.push(stand)?;
    Ok(Items::of(stands))
}
