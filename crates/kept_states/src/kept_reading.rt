//! Reading of the states from which a quench goes on.

ghost use Rattle.std.specs.Arc.{arc_value};
ghost use Rattle.std.specs.Prelude.{◌≡◌, ◌≤◌, List, [], ◌∷◌, map, length, All, IfOk, IfErr};
ghost use Rattle.glass_edges.specs.Refusals.{Gives};
ghost use Rattle.kept_states.specs.KeptReading as model;
ghost use Rattle.kept_states.specs.Levels.{stands_at};
ghost use Rattle.kept_states.specs.Steps as steps;
ghost use Rattle.kept_states.specs.declared.refused.KeptStatesRefused.TheVariants as refused;
ghost use Rattle.plane_sweep.specs.declared.stand.Stand.{Stand};
ghost use Rattle.quenched_states.specs.KeptBytes.{kept_length};
ghost use Rattle.quenched_states.specs.KeptStates.{AreQuenchTimes};
ghost use Rattle.quenched_states.specs.KeptTests.{kept_count, state_bytes};
ghost use Rattle.run_checkpoint.specs.BankEncoding.{HaveOneShape};
ghost use Rattle.scalar_rule.specs.Plan.{IsLawfulPlan};
ghost use Rattle.spin_model.specs.Steps.{table};

use crate::level_reading::{decode_level, level_length};
use crate::refused::KeptStatesRefused;
use kept_frame::{KeptRefused, are_kept, frame_refusal, kept_count, state_bytes};
use plain_list::Items;
use plane_sweep::Stand;
use run_checkpoint::CheckpointRefused;
use scalar_rule::Plan;
use spin_model::LAST_EPOCH;
use std::alloc::Global;
use std::sync::Arc;

/// The packed states from which a quench to these times goes on, state j at time j, and of each state those of its
/// banks, one for each plan: those of the bytes of kept states, or the one of a checkpoint at one epoch.
///
/// # Errors
///
/// The first refusal that is due, in the order that docs/specification/quench.md states; or for lack of memory.
pub fn decode_kept(
    alloc: Global,
    plans: &[Arc<Plan, Global>],
    times: &[u64],
    bytes: &[u8],
) -> Result<Items<Items<Stand>>, KeptStatesRefused>
    requires some { 1 ≤ length plans.now }
    requires few { length plans.now ≤ 4 }
    requires shape { HaveOneShape (map arc_value plans.now) }
    requires times { AreQuenchTimes times.now }
    // What is read are the states whose bytes these are.
    ensures found { IfOk result (model.AreKeptStates (map arc_value plans.now) times.now bytes.now) }
    // The bytes of such states are read, unless memory runs out.
    ensures only { (states : List (List Stand)) → model.AreKeptStates (map arc_value plans.now) times.now bytes.now states
        → IfOk result (λ read. read ≡ states) × IfErr result (λ e. e ≡ refused.NoMemory) }
    // Which refusal it is.
    ensures exact { Gives refused.NoMemory (λ states. states) result (model.kept_decoded (map arc_value plans.now) times.now bytes.now) }
{
    read_lawful(plans);
    read(alloc, plans, times, bytes)
}

// All plans are lawful.
fn read_lawful(plans: &[Arc<Plan, Global>])
    ensures { All IsLawfulPlan (map arc_value plans.now) }
{
    'plans: for g in 0..plans.len() {
        let _ = plans[g].lattice();
    }
}

fn read(
    alloc: Global,
    plans: &[Arc<Plan, Global>],
    times: &[u64],
    bytes: &[u8],
) -> Result<Items<Items<Stand>>, KeptStatesRefused>
    requires some { 1 ≤ length plans.now }
    requires few { length plans.now ≤ 4 }
    requires shape { HaveOneShape (map arc_value plans.now) }
    requires times { AreQuenchTimes times.now }
    ensures { Gives refused.NoMemory (λ states. states) result (model.kept_decoded (map arc_value plans.now) times.now bytes.now) }
{
    let states = read_untimed(alloc, plans, times.len() as u32, bytes)?;
    match other_time(states.as_slice(), times) {
        None => Ok(states),
        Some(refused) => Err(KeptStatesRefused::Kept(refused)),
    }
}

// The states, of which there are at most so many, by all tests but that of their times.
fn read_untimed(
    alloc: Global,
    plans: &[Arc<Plan, Global>],
    most: u32,
    bytes: &[u8],
) -> Result<Items<Items<Stand>>, KeptStatesRefused>
    requires some { 1 ≤ length plans.now }
    requires few { length plans.now ≤ 4 }
    requires shape { HaveOneShape (map arc_value plans.now) }
    requires most { 1 ≤ most }
    ensures exact { Gives refused.NoMemory (λ states. states) result (steps.untimed_decoded (map arc_value plans.now) most bytes.now) }
    ensures count { IfOk result (λ states. length states ≤ most) }
{
    if !are_kept(bytes) {
        return only_state(alloc, plans, bytes);
    }
    let level = level_length(plans);
    if let Some(refused) = frame_refusal(bytes, level, most) {
        return Err(KeptStatesRefused::Kept(refused));
    }
    read_states(alloc, plans, level as usize, bytes)
}

// The one state of bytes that are no kept states.
fn only_state(
    alloc: Global,
    plans: &[Arc<Plan, Global>],
    bytes: &[u8],
) -> Result<Items<Items<Stand>>, KeptStatesRefused>
    requires some { 1 ≤ length plans.now }
    requires few { length plans.now ≤ 4 }
    requires shape { HaveOneShape (map arc_value plans.now) }
    ensures exact { Gives refused.NoMemory (λ states. states) result (steps.states_decoded (map arc_value plans.now) (bytes.now ∷ [])) }
    ensures count { IfOk result (λ states. length states ≡ 1) }
{
    let mut states = Vec::with_capacity(alloc, 1)?;
    states.push(read_state(alloc, plans, bytes)?)?;
    Ok(Items::of(states))
}

// The states of bytes whose frame passed its tests.
fn read_states(
    alloc: Global,
    plans: &[Arc<Plan, Global>],
    level: usize,
    bytes: &[u8],
) -> Result<Items<Items<Stand>>, KeptStatesRefused>
    requires some { 1 ≤ length plans.now }
    requires few { length plans.now ≤ 4 }
    requires shape { HaveOneShape (map arc_value plans.now) }
    requires long { length bytes.now ≡ kept_length (kept_count bytes.now) level }
    ensures exact { Gives refused.NoMemory (λ states. states) result
        (steps.states_decoded (map arc_value plans.now) (table (state_bytes level bytes.now) (kept_count bytes.now))) }
    ensures count { IfOk result (λ states. length states ≡ kept_count bytes.now) }
{
    let count = kept_count(bytes) as usize;
    let mut states = Vec::with_capacity(alloc, count)?;
    'states: for j in 0..count {
        states.push(read_state(alloc, plans, state_bytes(bytes, level, j))?)?;
    }
    Ok(Items::of(states))
}

// A state by its own tests.
#[tactic(auto, unfolding(crate::specs::Steps::state_decoded, crate::specs::Levels::level_banks_decoded))]
fn read_state(
    alloc: Global,
    plans: &[Arc<Plan, Global>],
    bytes: &[u8],
) -> Result<Items<Stand>, KeptStatesRefused>
    requires some { 1 ≤ length plans.now }
    requires few { length plans.now ≤ 4 }
    requires shape { HaveOneShape (map arc_value plans.now) }
    ensures { Gives refused.NoMemory (λ stands. stands) result (steps.state_decoded (map arc_value plans.now) bytes.now) }
{
    match decode_level(alloc, plans, LAST_EPOCH, bytes) {
        Ok(stands) => Ok(stands),
        Err(CheckpointRefused::NoMemory) => Err(KeptStatesRefused::NoMemory),
        Err(refused) => Err(KeptStatesRefused::State(refused)),
    }
}

// The first state that isn't at its time.
fn other_time(states: &[Items<Stand>], times: &[u64]) -> Option<KeptRefused>
    requires count { length states.now ≤ length times.now }
    requires few { length times.now ≤ 32 }
    ensures { result ≡ steps.other_time times.now states.now }
{
    'states: for j in 0..states.len() {
        let epoch = epoch_of(states[j].as_slice());
        if epoch != times[j] {
            return Some(KeptRefused::Times {
                state: j as u32,
                epoch,
                time: times[j],
            });
        }
    }
    None
}

// The epoch of a state, that of its first bank.
#[tactic(auto, unfolding(crate::specs::Levels::stands_at))]
fn epoch_of(banks: &[Stand]) -> u64
    ensures { result ≡ stands_at banks.now }
{
    match banks.first() {
        None => 0,
        Some(bank) => bank.epoch,
    }
}
