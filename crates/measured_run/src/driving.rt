//! Driving a run to its end.

ghost use Rattle.std.specs.Prelude.{◌≡◌, ℕ, ◌<◌, ◌≤◌, [], List, All, length, vec_capacity};
ghost use Rattle.measured_run.specs.Banks.{BankView};
ghost use Rattle.measured_run.specs.Ends.{HasEnded, HoldBanks};
ghost use Rattle.measured_run.specs.Runs.{states_at};
ghost use Rattle.run_checkpoint.specs.BankEncoding.{AreBanks, BanksStand};
ghost use Rattle.scalar_rule.specs.declared.sample.Sample.{Sample};

use crate::driven::{BankDone, BankRun};
use crate::room::put;
use crate::run::{Done, Run};
use glass_edges::Gate;
use plain_list::Items;
use plane_sums::{MeasuringRoom, SlotSums};
use std::sync::Wait;
use std::thread::Threads;

/// Drives a run to its end, one bank after the other and epoch by epoch: the sweeps of each slot, behind which
/// it is measured in the measured epochs, and the exchange of the pairs that have their turn. The workers share
/// the slots of an epoch. The planes of a sweep are cut into at most 1 to 16 pieces. The hook is called for each
/// slot of each bank before its sweeps, by the worker that sweeps it. Takes no memory.
pub fn drive<R: Threads + Wait + Sync, G: Gate + Sync>(
    rt: &R,
    run: Run,
    pieces: u32,
    gate: &G,
) -> Done
    requires some_pieces { 1 ≤ pieces }
    requires few_pieces { pieces ≤ 16 }
    ensures run { result ≡ run }
    // The states at its end fit, so that a run which goes on from the checkpoint has them.
    ensures fit { (starts : List (ℕ → Sample)) → BanksStand run.plans starts run.bases
        → AreBanks run.until run.plans (states_at run.plans starts run.until) }
{
    let Run {
        banks,
        ended,
        sums,
        mut rooms,
        saving,
        course,
    } = run;
    let (banks, sums) = drive_each(rt, gate, banks, (ended, sums), &mut rooms, pieces);
    Done {
        banks,
        sums,
        saving,
        course,
    }
}

// Drives the banks one after the other, into lists that have room for what is left of them.
fn drive_each<R: Threads + Wait + Sync, G: Gate + Sync>(
    rt: &R,
    gate: &G,
    runs: Vec<BankRun>,
    lists: (Vec<BankDone>, Vec<Items<SlotSums>>),
    rooms: &mut [MeasuringRoom],
    pieces: u32,
) -> (Vec<BankDone>, Vec<Items<SlotSums>>)
    requires rooms { 0 < length rooms.old }
    requires ended { lists.0.items ≡ [] }
    requires sums { lists.1.items ≡ [] }
    requires ended_room { length runs.items ≤ vec_capacity lists.0 }
    requires sums_room { length runs.items ≤ vec_capacity lists.1 }
    requires some_pieces { 1 ≤ pieces }
    requires few_pieces { pieces ≤ 16 }
    ensures banks { result.0.items ≡ runs.items }
    ensures ended { All HasEnded runs.items }
    ensures sums { HoldBanks runs.items result.1.items }
{
    let (mut ended, mut sums) = lists;
    'banks: for run in runs {
        let (done, own) = run.drive(rt, gate, rooms, pieces);
        put(&mut ended, done);
        put(&mut sums, own);
    }
    (ended, sums)
}
