//! Two saved states of equal couplings, read under plans that differ in their seed.

ghost use Rattle.std.specs.Arc.{arc_value};
ghost use Rattle.std.specs.Prelude.{◌≡◌, ◌≤◌, [], ◌∷◌, length, map, option_map, true, IfOk, IfErr};
ghost use Rattle.command_words.specs.ReadCross.{read_cross_order, IsLawfulCross};
ghost use Rattle.glass_edges.specs.Refusals.{GivesAfterTests};
ghost use Rattle.glass_main.specs.CheckpointBytes.{HasBytes};
ghost use Rattle.glass_main.specs.CrossRun.{states_decoded};
ghost use Rattle.glass_main.specs.CrossedPlans.{crossed_of, crossed_read, first_of, AreFitting, KeepsCrossed, KeepsSeeded};
ghost use Rattle.glass_main.specs.Endings.{IsOfBanked, IsOfStates, IsReachedCrossed, IsReachedStates};
ghost use Rattle.glass_main.specs.Gathers.{Fetches, Gathers};
ghost use Rattle.glass_main.specs.Outside.{store};
ghost use Rattle.glass_main.specs.Request as model;
ghost use Rattle.glass_main.specs.Statuses.{IfRefused};
ghost use Rattle.run_checkpoint.specs.BankEncoding.{HaveOneShape};

use crate::crossed_plans::{SeededPlans, gather_seeded};
use crate::ending::Ending;
use crate::gathering::gather_bytes;
use crate::refusal::Refusal;
use crate::role::Role;
use command_words::CrossOrder;
use glass_edges::{NoMemory, Shelf};
use plain_list::Items;
use plane_sweep::Stand;
use run_checkpoint::{CheckpointRefused, decode, decode_banks};
use run_plan::Orders;
use scalar_rule::Plan;
use spin_model::LAST_EPOCH;
use std::alloc::Global;
use std::sync::Arc;

/// Two states of as many banks as there are plans, the seed of the second, and the orders of the run.
#[derive(Drop)]
pub(crate) struct Crossed {
    pub(crate) plans: Vec<Arc<Plan, Global>>,
    pub(crate) orders: Orders,
    pub(crate) seed: u64,
    pub(crate) first: Items<Stand>,
    pub(crate) second: Items<Stand>,
}

/// Reads the run file of an order and what it names, and then both checkpoints.
#[tactic(auto, unfolding(crate::specs::Request::crossed_at))]
pub(crate) fn gather_crossed<H: Shelf>(
    alloc: Global,
    shelf: &mut H,
    order: &CrossOrder<'_>,
) -> Result<Crossed, Ending>
    requires order { IsLawfulCross order.now }
    ensures asked { Gathers (option_map (model.crossed_at (read_cross_order order.now)) (H.holds shelf.old))
        (IsReachedCrossed (read_cross_order order.now) (H.holds shelf.old)) (crossed_read result)
        (store H.Shelf shelf.old) (store H.Shelf shelf.new) }
    ensures banks { IfErr result (λ ending. IfRefused ending (IsOfBanked true)) }
    ensures states { IfErr result (λ ending. IfRefused ending IsOfStates) }
    ensures kept { IfOk result (λ crossed. KeepsCrossed (crossed_of crossed)) }
    ensures bytes { IfOk result (λ crossed.
        HasBytes (H.holds shelf.old) order.now.first.now × HasBytes (H.holds shelf.old) order.now.second.now) }
{
    let plans = gather_seeded(alloc, shelf, order.run, order.seed)?;
    gather_both(alloc, shelf, plans, order)
}

// Reads both checkpoints.
#[tactic(auto, unfolding(crate::specs::Request::crossed_after))]
fn gather_both<H: Shelf>(
    alloc: Global,
    shelf: &mut H,
    plans: SeededPlans,
    order: &CrossOrder<'_>,
) -> Result<Crossed, Ending>
    requires kept { KeepsSeeded order.now.seed plans }
    ensures asked { Gathers
        (option_map (model.crossed_after (read_cross_order order.now) (first_of plans)) (H.holds shelf.old))
        (IsReachedStates (read_cross_order order.now) (first_of plans) (H.holds shelf.old)) (crossed_read result)
        (store H.Shelf shelf.old) (store H.Shelf shelf.new) }
    ensures banks { IfErr result (λ ending. IfRefused ending (IsOfBanked true)) }
    ensures states { IfErr result (λ ending. IfRefused ending IsOfStates) }
    ensures kept { IfOk result (λ crossed. KeepsCrossed (crossed_of crossed)) }
    ensures bytes { IfOk result (λ crossed.
        HasBytes (H.holds shelf.old) order.now.first.now × HasBytes (H.holds shelf.old) order.now.second.now) }
{
    let first = gather_first(alloc, shelf, &plans.first, order.first)?;
    let second = gather_second(alloc, shelf, &plans.second, order.second)?;
    let SeededPlans {
        first: own,
        orders,
        ..
    } = plans;
    Ok(Crossed {
        plans: own,
        orders,
        seed: order.seed,
        first,
        second,
    })
}

// Reads the first checkpoint.
#[tactic(auto, unfolding(crate::specs::Request::first_at))]
fn gather_first<H: Shelf>(
    alloc: Global,
    shelf: &mut H,
    plans: &[Arc<Plan, Global>],
    name: &str,
) -> Result<Items<Stand>, Ending>
    requires some { 1 ≤ length plans.now }
    requires few { length plans.now ≤ 4 }
    requires shape { HaveOneShape (map arc_value plans.now) }
    ensures asked { Gathers (option_map (model.first_at (map arc_value plans.now) name.now) (H.holds shelf.old))
        (Fetches Role.Checkpoint) result (store H.Shelf shelf.old) (store H.Shelf shelf.new) }
    ensures states { IfErr result (λ ending. IfRefused ending IsOfStates) }
    ensures fit { IfOk result (AreFitting (map arc_value plans.now)) }
    ensures bytes { IfOk result (λ states. HasBytes (H.holds shelf.old) name.now) }
{
    let bytes = gather_bytes(alloc, shelf, Role::Checkpoint, name)?;
    match states_in(alloc, plans, bytes.as_slice()) {
        Ok(states) => Ok(states),
        Err(CheckpointRefused::NoMemory) => Err(Ending::NoMemory),
        Err(refused) => Err(Ending::Refused(Refusal::Checkpoint(refused))),
    }
}

// Reads the second one.
#[tactic(auto, unfolding(crate::specs::Request::second_at))]
fn gather_second<H: Shelf>(
    alloc: Global,
    shelf: &mut H,
    plans: &[Arc<Plan, Global>],
    name: &str,
) -> Result<Items<Stand>, Ending>
    requires some { 1 ≤ length plans.now }
    requires few { length plans.now ≤ 4 }
    requires shape { HaveOneShape (map arc_value plans.now) }
    ensures asked { Gathers (option_map (model.second_at (map arc_value plans.now) name.now) (H.holds shelf.old))
        (Fetches Role.SecondCheckpoint) result (store H.Shelf shelf.old) (store H.Shelf shelf.new) }
    ensures states { IfErr result (λ ending. IfRefused ending IsOfStates) }
    ensures fit { IfOk result (AreFitting (map arc_value plans.now)) }
    ensures bytes { IfOk result (λ states. HasBytes (H.holds shelf.old) name.now) }
{
    let bytes = gather_bytes(alloc, shelf, Role::SecondCheckpoint, name)?;
    match states_in(alloc, plans, bytes.as_slice()) {
        Ok(states) => Ok(states),
        Err(CheckpointRefused::NoMemory) => Err(Ending::NoMemory),
        Err(refused) => Err(Ending::Refused(Refusal::SecondCheckpoint(refused))),
    }
}

// The packed states of the banks that bytes are.
fn states_in(
    alloc: Global,
    plans: &[Arc<Plan, Global>],
    bytes: &[u8],
) -> Result<Items<Stand>, CheckpointRefused>
    requires some { 1 ≤ length plans.now }
    requires few { length plans.now ≤ 4 }
    requires shape { HaveOneShape (map arc_value plans.now) }
    ensures exact { GivesAfterTests CheckpointRefused.NoMemory (λ states. states) result
        (states_decoded (map arc_value plans.now) bytes.now) }
    ensures fit { IfOk result (AreFitting (map arc_value plans.now)) }
{
    if plans.len() == 1 {
        let stand = decode(alloc, &plans[0], LAST_EPOCH, bytes)?;
        Ok(alone(alloc, stand)?)
    } else {
        let stands = decode_banks(alloc, plans, LAST_EPOCH, bytes)?;
        Ok(Items::of(stands))
    }
}

// The state of the only bank.
fn alone(alloc: Global, stand: Stand) -> Result<Items<Stand>, NoMemory>
    ensures { IfOk result (λ states. states ≡ stand ∷ []) }
{
    let mut stands = Vec::with_capacity(alloc, 1)?;
    stands.push(stand)?;
    Ok(Items::of(stands))
}
