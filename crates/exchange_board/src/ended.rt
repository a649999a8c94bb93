//! What a board ends with.

ghost use Rattle.std.specs.Prelude.{◌≡◌};

use crate::origin::Origin;
use plain_list::Items;
use plane_sweep::{RaggedStand, Stand};
use scalar_rule::Record;
use std::alloc::Global;
use std::marker::Model;
use std::sync::Arc;

/// What a board whose slots have all ended held: its origin, the state there, and the records.
#[derive(Drop)]
pub struct Ended {
    pub(crate) origin: Arc<Origin, Global>,
    pub(crate) stand: Stand,
    pub(crate) records: Items<Record>,
}

/// What a board with no slot in work held: its origin, each slot's content at its place, and the
/// records.
#[derive(Drop)]
pub struct RaggedEnded {
    pub(crate) origin: Arc<Origin, Global>,
    pub(crate) stand: RaggedStand,
    pub(crate) records: Items<Record>,
}

impl Model for Ended {
    ghost use Rattle.exchange_board.specs.Views.{EndedView};

    ghost Value = { EndedView };

    ghost use Rattle.exchange_board.specs.EndedKeeps.{ended_view};

    ghost view = { ended_view };
}

impl Model for RaggedEnded {
    ghost use Rattle.exchange_board.specs.Views.{RaggedEndedView};

    ghost Value = { RaggedEndedView };

    ghost use Rattle.exchange_board.specs.EndedKeeps.{ragged_view};

    ghost view = { ragged_view };
}

impl Ended {
    /// What the board was opened with.
    pub fn origin(&self) -> &Origin
        ensures { result.now ≡ self.now.origin }
    {
        &self.origin
    }

    /// The state at the end.
    pub fn stand(&self) -> &Stand
        ensures { result.now ≡ self.now.stand }
    {
        &self.stand
    }

    /// The records of the recorded epochs from the start's least completed epoch on, in order of epoch,
    /// sample and slot: energies in units of the coupling, -3V to 3V for V sites, and overlaps, -V to V.
    pub fn records(&self) -> &[Record]
        ensures { result.now ≡ self.now.records }
    {
        self.records.as_slice()
    }
}

impl RaggedEnded {
    /// What the board was opened with.
    pub fn origin(&self) -> &Origin
        ensures { result.now ≡ self.now.origin }
    {
        &self.origin
    }

    /// The state where the board stopped.
    pub fn stand(&self) -> &RaggedStand
        ensures { result.now ≡ self.now.stand }
    {
        &self.stand
    }

    /// The records, as those of an `Ended`; zeros where a slot has not recorded an epoch.
    pub fn records(&self) -> &[Record]
        ensures { result.now ≡ self.now.records }
    {
        self.records.as_slice()
    }
}
