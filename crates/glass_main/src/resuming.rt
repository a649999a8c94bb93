//! What a run starts from: the opening states of its samples, or those of a checkpoint.

ghost use Rattle.std.specs.Prelude.{◌≡◌, ◌≤◌, option_map, Some, IfOk};
ghost use Rattle.spin_model.specs.Limits.{last_epoch};
ghost use Rattle.plane_sweep.specs.Packed.{StandFits, StandsFor};
ghost use Rattle.run_plan.specs.RunFile.{AreLawfulOrders};
ghost use Rattle.scalar_rule.specs.Opening.{opening};
ghost use Rattle.glass_main.specs.Beginnings.{IsBaseOf, opened_by, resumed_by};
ghost use Rattle.glass_main.specs.CheckpointBytes.{HasBytes, ResumesBytes};
ghost use Rattle.glass_main.specs.Outside.{store};
ghost use Rattle.glass_main.specs.Request as model;
ghost use Rattle.command_words.specs.ReadCommand.{name_bytes};
ghost use Rattle.glass_main.specs.Resumes.{Begins, IsResumable, Resumes, ending_of};

use crate::ending::Ending;
use crate::gathering::gather_bytes;
use crate::planned::Planned;
use crate::refusal::Refusal;
use crate::role::Role;
use glass_edges::{NoMemory, Shelf};
use plane_sweep::{RaggedStand, Stand};
use run_checkpoint::{CheckpointRefused, decode_any};
use std::alloc::Global;

/// The packed state that a run to epoch `until` starts from: that of the checkpoint of this name, or
/// where none is named the opening state.
pub(crate) fn gather_base<H: Shelf>(
    alloc: Global,
    shelf: &mut H,
    planned: &Planned,
    until: u64,
    name: Option<&str>,
) -> Result<RaggedStand, Ending>
    requires orders { AreLawfulOrders planned.now.orders }
    requires until { until ≤ last_epoch }
    ensures asked { Begins (name_bytes name.entry) (IsBaseOf planned.now.plan)
        (option_map (model.beginning_at (name_bytes name.entry) planned.now until) (H.holds shelf.old))
        result (store H.Shelf shelf.old) (store H.Shelf shelf.new) }
    ensures resumable { IfOk result (IsResumable planned.now until) }
    ensures bytes { IfOk result (λ base. ResumesBytes (name_bytes name.entry) (H.holds shelf.old)) }
{
    match name {
        None => match opening_base(alloc, planned, until) {
            Ok(base) => Ok(base),
            Err(NoMemory) => Err(Ending::NoMemory),
        },
        Some(name) => gather_checkpoint(alloc, shelf, planned, until, name),
    }
}

// The opening state.
fn opening_base(alloc: Global, planned: &Planned, until: u64) -> Result<RaggedStand, NoMemory>
    requires orders { AreLawfulOrders planned.now.orders }
    ensures base { IfOk result (IsBaseOf planned.now.plan (opened_by planned.now)) }
    ensures resumable { IfOk result (IsResumable planned.now until) }
{
    let _ = planned.plan.slots();
    let stand = opening_stand(alloc, planned)?;
    let base = RaggedStand::level(alloc, stand)?;
    Ok(base)
}

// The states that the samples begin with, packed.
fn opening_stand(alloc: Global, planned: &Planned) -> Result<Stand, NoMemory>
    ensures opening { IfOk result (StandsFor planned.now.plan (opening planned.now.plan planned.now.orders.start 0)) }
    ensures fits { IfOk result (StandFits planned.now.plan) }
{
    Stand::opening(alloc, &planned.plan, planned.orders.start)
}

// The state of the checkpoint of a name.
#[tactic(auto, unfolding(crate::specs::Request::read_at))]
fn gather_checkpoint<H: Shelf>(
    alloc: Global,
    shelf: &mut H,
    planned: &Planned,
    until: u64,
    name: &str,
) -> Result<RaggedStand, Ending>
    requires orders { AreLawfulOrders planned.now.orders }
    requires until { until ≤ last_epoch }
    ensures asked { Begins (Some name.now) (IsBaseOf planned.now.plan)
        (option_map (model.checkpoint_at planned.now until name.now) (H.holds shelf.old))
        result (store H.Shelf shelf.old) (store H.Shelf shelf.new) }
    ensures resumable { IfOk result (IsResumable planned.now until) }
    ensures bytes { IfOk result (λ base. HasBytes (H.holds shelf.old) name.now) }
{
    let bytes = match gather_bytes(alloc, shelf, Role::Checkpoint, name) {
        Ok(bytes) => bytes,
        Err(ending) => return Err(ending),
    };
    decode(alloc, planned, until, bytes.as_slice())
}

// The state that the bytes of a checkpoint are, or why they are refused.
fn decode(alloc: Global, planned: &Planned, until: u64, bytes: &[u8]) -> Result<RaggedStand, Ending>
    requires orders { AreLawfulOrders planned.now.orders }
    requires until { until ≤ last_epoch }
    ensures read { Resumes (IsBaseOf planned.now.plan) (resumed_by planned.now until bytes.now) result }
    ensures resumable { IfOk result (IsResumable planned.now until) }
{
    let plan = &planned.plan;
    let orders = &planned.orders;
    // A plan has a slot.
    let _ = plan.slots();
    match decode_any(alloc, plan, orders.samples, orders.every, until, bytes) {
        Ok(base) => Ok(base),
        Err(refused) => Err(ending_of(refused)),
    }
}

/// How a call ends whose checkpoint is refused, or that ran out of memory at it.
pub(crate) fn ending_of(refused: CheckpointRefused) -> Ending
    ensures { result ≡ ending_of refused }
{
    match refused {
        CheckpointRefused::NoMemory => Ending::NoMemory,
        refused => Ending::Refused(Refusal::Checkpoint(refused)),
    }
}
