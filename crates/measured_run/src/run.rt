//! A run, before and after it is driven.

use crate::course::Course;
use crate::driven::{BankDone, BankRun};
use plain_list::Items;
use plane_sums::{MeasuringRoom, SlotSums};
use run_checkpoint::Room;
use std::marker::Model;

/// A run that has all its memory. Contracts see what it was opened with.
#[derive(Drop)]
pub struct Run {
    pub(crate) banks: Vec<BankRun>,
    // Room for the banks once they are driven, and for what was summed up of their slots.
    pub(crate) ended: Vec<BankDone>,
    pub(crate) sums: Vec<Items<SlotSums>>,
    // One for each worker that can have a slot.
    pub(crate) rooms: Vec<MeasuringRoom>,
    // The buffer of the checkpoint, where it is to be placed.
    pub(crate) saving: Option<Room>,
    pub(crate) course: Course,
}

impl Model for Run {
    ghost use Rattle.measured_run.specs.Runs.{RunView};

    ghost Value = { RunView };

    ghost use Rattle.measured_run.specs.KeptRuns.{run_view, KeepsRun};

    ghost view = { run_view };

    ghost invariant = { KeepsRun };
}

/// A run at its end. Contracts see what it was opened with.
#[derive(Drop)]
pub struct Done {
    pub(crate) banks: Vec<BankDone>,
    pub(crate) sums: Vec<Items<SlotSums>>,
    pub(crate) saving: Option<Room>,
    pub(crate) course: Course,
}

impl Model for Done {
    ghost use Rattle.measured_run.specs.Runs.{RunView};

    ghost Value = { RunView };

    ghost use Rattle.measured_run.specs.KeptRuns.{done_view, KeepsDone};

    ghost view = { done_view };

    ghost invariant = { KeepsDone };
}
