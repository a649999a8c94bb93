//! The buffer of a checkpoint, which is reserved before a run.

ghost use Rattle.std.specs.Prelude.{◌≡◌, ◌≤◌, [], IfOk};
ghost use Rattle.plane_sweep.specs.Uneven.{RaggedStandFits};
ghost use Rattle.glass_engine.specs.KeptSaving as model;

use crate::run::SaveKind;
use glass_edges::NoMemory;
use plane_sweep::RaggedStand;
use run_checkpoint::{Kind, Room, encode, length, length_ragged};
use scalar_rule::Plan;
use std::alloc::Global;

/// Which checkpoint is to be placed, and the buffer for it.
#[derive(Drop)]
pub(crate) enum Saving {
    Never,
    Level(Room),
    Ragged(Room),
}

impl Saving {
    /// Reserves the buffer: for states at one epoch, or for slots at different epochs with the most
    /// records that can be kept ahead.
    ///
    /// # Errors
    ///
    /// Refuses only for lack of memory.
    pub(crate) fn reserve(
        alloc: Global,
        plan: &Plan,
        samples: u32,
        kind: SaveKind,
    ) -> Result<Saving, NoMemory>
        requires { samples ≤ 64 }
        ensures kind { IfOk result (λ saving. model.kind_of saving ≡ kind) }
        ensures room { IfOk result (model.HasRoom (model.bank_need plan.now samples)) }
    {
        let size = plan.lattice().size();
        let slots = plan.slots();
        match kind {
            SaveKind::Never => Ok(Saving::Never),
            SaveKind::Level => Ok(Saving::Level(Room::reserve(alloc, length(size, slots))?)),
            SaveKind::Ragged => {
                let pending = samples as u64 * slots as u64 * slots as u64;
                let room = Room::reserve(alloc, length_ragged(size, slots, pending))?;
                Ok(Saving::Ragged(room))
            }
        }
    }

    /// Writes the checkpoint of the state that a run came to into the empty buffer.
    pub(crate) fn write(&mut self, stand: &RaggedStand, plan: &Plan, samples: u32, every: u64)
        requires fits { RaggedStandFits plan.now samples every stand.now }
        requires level { model.EndsAs self.old stand.now }
        requires room { model.HasRoom (model.bank_need plan.now samples) self.old }
        ensures kind { model.kind_of self.new ≡ model.kind_of self.old }
        ensures limit { model.limit_of self.new ≡ model.limit_of self.old }
        ensures bytes { model.IsWritten plan.now samples every stand.now self.new }
    {
        // A plan's size is that of a lattice.
        let _ = plan.lattice();
        match self {
            Saving::Never => {}
            Saving::Level(room) => encode(&Kind::Level, stand, plan, room),
            Saving::Ragged(room) => encode(&Kind::Uneven { samples, every }, stand, plan, room),
        }
    }

    /// Empties the buffer.
    pub(crate) fn clear(&mut self)
        ensures kind { model.kind_of self.new ≡ model.kind_of self.old }
        ensures limit { model.limit_of self.new ≡ model.limit_of self.old }
        ensures empty { model.bytes_of self.new ≡ [] }
    {
        match self {
            Saving::Never => {}
            Saving::Level(room) => room.clear(),
            Saving::Ragged(room) => room.clear(),
        }
    }

    /// What was written.
    pub(crate) fn bytes(&self) -> &[u8]
        ensures { result.now ≡ model.bytes_of self.now }
    {
        match self {
            Saving::Never => &[],
            Saving::Level(room) => room.bytes(),
            Saving::Ragged(room) => room.bytes(),
        }
    }
}
