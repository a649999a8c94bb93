//! A bank before its first epoch, and behind its last.

ghost use Rattle.std.specs.Prelude.{◌≡◌, ◌<◌, ◌≤◌, [], length, vec_capacity};
ghost use Rattle.measured_run.specs.Banks.{BankView};
ghost use Rattle.measured_run.specs.Cells.{sums_in};
ghost use Rattle.measured_run.specs.Ends.{HasEnded, HasEndRoom, HoldsSlots, IsEnd};
ghost use Rattle.measured_run.specs.Opens.{duos_in};

use crate::bank::Bank;
use crate::cell::Cell;
use crate::room::{EndRoom, put};
use glass_edges::Gate;
use plain_list::Items;
use plane_sums::{MeasuringRoom, SlotSums};
use plane_sweep::{Duo, RaggedStand, Stand};
use scalar_rule::Plan;
use std::alloc::Global;
use std::marker::Model;
use std::snapshot::Snapshot;
use std::sync::{Arc, Wait};
use std::thread::Threads;

/// A bank that is open. Contracts see what it was opened with.
#[derive(Drop)]
pub(crate) struct BankRun {
    pub(crate) bank: Bank,
    pub(crate) room: EndRoom,
}

impl Model for BankRun {
    ghost use Rattle.measured_run.specs.Banks.{BankView};

    ghost Value = { BankView };

    ghost use Rattle.measured_run.specs.Ends.{HasEndRoom};

    ghost view = { λ run. run.bank.bank };

    ghost invariant = { λ run. HasEndRoom run.bank.bank run.room };
}

/// A bank at its end. Contracts see what it was opened with.
#[derive(Drop)]
pub(crate) struct BankDone {
    pub(crate) plan: Arc<Plan, Global>,
    // The state from which it started, for contracts alone.
    pub(crate) base: Snapshot<Stand>,
    pub(crate) every: u64,
    pub(crate) until: u64,
    pub(crate) stand: RaggedStand,
}

impl Model for BankDone {
    ghost use Rattle.measured_run.specs.Banks.{BankView};

    ghost Value = { BankView };

    ghost use Rattle.measured_run.specs.Ends.{done_view, KeepsDone};

    ghost view = { done_view };

    ghost invariant = { KeepsDone };
}

impl BankDone {
    /// The plan.
    pub(crate) fn plan(&self) -> &Plan
        ensures { result.now ≡ self.now.plan }
    {
        &self.plan
    }

    /// The state at the last epoch.
    pub(crate) fn stand(&self) -> &RaggedStand
        ensures { IsEnd self.now result.now }
    {
        &self.stand
    }
}

impl BankRun {
    /// Drives a bank to its last epoch, and takes it apart: into its state, and into what was summed up of its
    /// slots. Takes no memory.
    pub(crate) fn drive<R: Threads + Wait + Sync, G: Gate + Sync>(
        self,
        rt: &R,
        gate: &G,
        rooms: &mut [MeasuringRoom],
        pieces: u32,
    ) -> (BankDone, Items<SlotSums>)
        requires rooms { 0 < length rooms.old }
        requires some_pieces { 1 ≤ pieces }
        requires few_pieces { pieces ≤ 16 }
        ensures bank { result.0 ≡ self }
        ensures end { HasEnded self }
        ensures sums { HoldsSlots self result.1 }
    {
        let BankRun {
            mut bank,
            room: at_end,
        } = self;
        drive_on(rt, gate, &mut bank, rooms, pieces);
        take_apart(bank, at_end)
    }
}

// Takes a bank to its last epoch.
fn drive_on<R: Threads + Wait + Sync, G: Gate + Sync>(
    rt: &R,
    gate: &G,
    bank: &mut Bank,
    rooms: &mut [MeasuringRoom],
    pieces: u32,
)
    requires rooms { 0 < length rooms.old }
    requires some_pieces { 1 ≤ pieces }
    requires few_pieces { pieces ≤ 16 }
    ensures { bank.new ≡ record { bank = bank.old.bank; epoch = bank.old.bank.until } }
{
    let left = bank.left();
    'epochs: for k in 0..left {
        bank.advance(rt, gate, rooms, pieces);
    }
}

// Takes a bank apart that is at its last epoch.
fn take_apart(bank: Bank, room: EndRoom) -> (BankDone, Items<SlotSums>)
    requires ended { bank.epoch ≡ bank.bank.until }
    requires room { HasEndRoom bank.bank room }
    ensures bank { result.0 ≡ bank.bank }
    ensures end { HasEnded bank.bank }
    ensures sums { HoldsSlots bank.bank result.1 }
{
    // A plan has a slot.
    let _ = bank.plan.slots();
    let Bank {
        plan,
        base,
        every,
        until,
        epoch: _,
        cells,
        pairs,
    } = bank;
    let EndRoom {
        duos,
        sums,
        places,
        pending,
    } = room;
    let (duos, sums) = part_cells(cells.into_vec(), duos, sums);
    let stand = RaggedStand {
        places,
        slots: Items::of(duos),
        pairs,
        pending,
    };
    let done = BankDone {
        plan,
        base,
        every,
        until,
        stand,
    };
    (done, Items::of(sums))
}

// The replicas of slots, and what was summed up of them, into lists that have room for them.
fn part_cells(cells: Vec<Cell>, duos: Vec<Duo>, sums: Vec<SlotSums>) -> (Vec<Duo>, Vec<SlotSums>)
    requires duos { duos.items ≡ [] }
    requires sums { sums.items ≡ [] }
    requires duos_room { length cells.items ≤ vec_capacity duos }
    requires sums_room { length cells.items ≤ vec_capacity sums }
    ensures duos { result.0.items ≡ duos_in cells.items }
    ensures sums { result.1.items ≡ sums_in cells.items }
{
    let (mut duos, mut sums) = (duos, sums);
    'slots: for cell in cells {
        let Cell {
            duo,
            sums: own,
            totals: _,
        } = cell;
        put(&mut duos, duo);
        put(&mut sums, own);
    }
    (duos, sums)
}
