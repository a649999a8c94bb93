//! The checkpoint of a run. bench/checkpoint.sh times whole processes: each makes the beginning of a run and
//! the buffer of its checkpoint, and then does one piece of work with them.

ghost use Rattle.std.specs.Prelude.{◌≡◌, ◌≤◌, [], IfOk};
ghost use Rattle.plane_sweep.specs.Packed.{StandFits};
ghost use Rattle.run_checkpoint.specs.Encoding.{FitsKind};
ghost use Rattle.run_checkpoint.specs.Lengths.{encoding_len};
ghost use Rattle.run_checkpoint.specs.declared.kinds.Kind.TheVariants as kinds;
ghost use Rattle.scalar_rule.specs.Plan.{slots_of};

use crate::plans::greatest_plan;
use anyhow::{Error, Result};
use plane_sweep::{RaggedStand, Stand};
use run_checkpoint::{Kind, Room, decode, encode, length};
use run_plan::digest;
use scalar_rule::{Plan, Start};
use sha2::{Digest, Sha256};

/// What is done once the beginning is made.
#[derive(Clone, Copy, PartialEq, Eq)]
pub enum Work {
    /// Nothing.
    Opening,
    /// The plan's digest.
    Plan,
    /// The state is written.
    Encode,
    /// The state is written, and sha2 alone digests its bytes.
    Sha2,
    /// The state is written, and its bytes are read.
    Decode,
    /// The state is written, its bytes are read, and what was read is written and compared.
    Again,
}

/// The work with this name.
pub fn work_of(name: &str) -> Option<Work> {
    match name {
        "opening" => Some(Work::Opening),
        "plan" => Some(Work::Plan),
        "encode" => Some(Work::Encode),
        "sha2" => Some(Work::Sha2),
        "decode" => Some(Work::Decode),
        "again" => Some(Work::Again),
        _ => None,
    }
}

// An empty buffer for a checkpoint of the plan.
fn room_for(rt: &HostRuntime, plan: &Plan) -> Result<Room>
    ensures empty { IfOk result (λ room. room.bytes ≡ []) }
    ensures spare { IfOk result (λ room. encoding_len plan.now.size (slots_of plan.now) ≤ room.spare) }
{
    let len = length(plan.lattice().size(), plan.slots());
    Ok(Room::reserve(rt.alloc(), len)?)
}

// The state as one that is written at one epoch.
fn level_of(rt: &HostRuntime, plan: &Plan, stand: Stand) -> Result<RaggedStand>
    requires { StandFits plan.now stand }
    ensures { IfOk result (FitsKind kinds.Level plan.now) }
{
    // A plan has a slot.
    let _ = plan.slots();
    Ok(RaggedStand::level(rt.alloc(), stand)?)
}

// What is done with the bytes of a checkpoint.
fn measure_bytes(rt: &HostRuntime, plan: &Plan, bytes: &[u8], work: Work) -> Result<()> {
    match work {
        Work::Sha2 => {
            let digest = Sha256::digest(bytes);
            println!(rt; "{}", digest[0])?;
        }
        Work::Decode => {
            let stand = decode(rt.alloc(), plan, 0, bytes)?;
            println!(rt; "{}", stand.slots.len())?;
        }
        Work::Again => {
            let stand = decode(rt.alloc(), plan, 0, bytes)?;
            let level = level_of(rt, plan, stand)?;
            let mut room = room_for(rt, plan)?;
            encode(&Kind::Level, &level, plan, &mut room);
            if room.bytes() != bytes {
                return Err(Error::msg("other bytes are written again"));
            }
            println!(rt; "the same {} bytes", bytes.len())?;
        }
        _ => println!(rt; "{}", bytes.len())?,
    }
    Ok(())
}

/// Does the work at one size.
pub fn measure(rt: &HostRuntime, size: u32, work: Work) -> Result<()> {
    let plan = greatest_plan(rt.alloc(), size)?;
    let stand = Stand::opening(rt.alloc(), &plan, Start::Random)?;
    let level = level_of(rt, &plan, stand)?;
    let mut room = room_for(rt, &plan)?;
    match work {
        Work::Opening => Ok(()),
        Work::Plan => {
            println!(rt; "{}", digest(&plan)[0])?;
            Ok(())
        }
        _ => {
            encode(&Kind::Level, &level, &plan, &mut room);
            drop(level);
            measure_bytes(rt, &plan, room.bytes(), work)
        }
    }
}
