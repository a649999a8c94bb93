//! Driving a run to its end.

ghost use Rattle.std.specs.Prelude.{◌≡◌, ◌<◌, ◌≤◌, [], ◌∷◌, ◌++◌, length, map, All, vec_len, vec_capacity};
ghost use Rattle.std.specs.Arc.{arc_value};
ghost use Rattle.glass_engine.specs.BankRuns.{plans_of, runs_of};
ghost use Rattle.glass_engine.specs.Runs.{DoneView, IsEnd};

use crate::done::{BankDone, Done};
use crate::run::{BankRun, Run};
use crate::workers::{Shared, work_all};
use glass_edges::Gate;
use scalar_rule::Plan;
use std::alloc::Global;
use std::sync::{Arc, Wait};
use std::thread::Threads;

/// Drives a run to its end, one bank after the other: its workers take slots, sweep them and hand them
/// back until each is at rest at the last epoch or all hand-outs are made. The planes of a sweep are cut
/// into at most 1 to 16 pieces. With at least two slots a worker, each takes two partners at once where it
/// can, and exchanges them outside the lock. The hook is called for each slot of each bank between its
/// hand-out and its sweeps, by the worker that took it. Takes no memory.
pub fn drive<R: Threads + Wait + Sync, G: Gate + Sync>(
    rt: &R,
    run: Run,
    plans: &[Arc<Plan, Global>],
    pieces: u32,
    gate: &G,
) -> Done
    requires plans { map arc_value plans.now ≡ plans_of run }
    requires some_pieces { 1 ≤ pieces }
    requires few_pieces { pieces ≤ 16 }
    ensures run { runs_of result ≡ run }
    ensures ended { All (λ (d : DoneView). IsEnd d.run d.ended) result }
{
    let Run {
        banks,
        driven,
        saving,
    } = run;
    let banks = drive_each(rt, banks, driven, plans, pieces, gate);
    Done { banks, saving }
}

// Drives the banks one after the other, into a list that has room for them.
fn drive_each<R: Threads + Wait + Sync, G: Gate + Sync>(
    rt: &R,
    runs: Vec<BankRun>,
    mut driven: Vec<BankDone>,
    plans: &[Arc<Plan, Global>],
    pieces: u32,
    gate: &G,
) -> Vec<BankDone>
    requires plans { map arc_value plans.now ≡ plans_of runs.items }
    requires empty { driven.items ≡ [] }
    requires room { length runs.items ≤ vec_capacity driven }
    requires some_pieces { 1 ≤ pieces }
    requires few_pieces { pieces ≤ 16 }
    ensures runs { runs_of result.items ≡ runs.items }
    ensures ended { All (λ (d : DoneView). IsEnd d.run d.ended) result.items }
{
    'banks: for opened in runs {
        let bank = driven.len();
        let done = drive_bank(rt, opened, &plans[bank], pieces, gate);
        put(&mut driven, done);
    }
    driven
}

// Drives a bank.
fn drive_bank<R: Threads + Wait + Sync, G: Gate + Sync>(
    rt: &R,
    run: BankRun,
    plan: &Plan,
    pieces: u32,
    gate: &G,
) -> BankDone
    requires plan { plan.now ≡ run.plan }
    requires some_pieces { 1 ≤ pieces }
    requires few_pieces { pieces ≤ 16 }
    ensures run { result.run ≡ run }
    ensures ended { IsEnd run result.ended }
{
    let BankRun {
        board,
        mut seats,
        opened: _,
        orders,
        saves,
    } = run;
    let shared = Shared {
        board: &board,
        plan,
        pieces,
        slots_each: plan.slots() as usize / seats.len().max(1),
    };
    work_all(rt, gate, &shared, 0, seats.as_mut_slice());
    match board.close(seats).into_ragged() {
        Ok(ended) => BankDone {
            ended,
            orders,
            saves,
        },
        Err(_) => unreachable!(),
    }
}

// Adds a bank to a list that has room for it.
fn put(driven: &mut Vec<BankDone>, done: BankDone)
    requires { vec_len driven.old < vec_capacity driven.old }
    ensures items { driven.new.items ≡ driven.old.items ++ done ∷ [] }
    ensures room { vec_capacity driven.old ≤ vec_capacity driven.new }
{
    let _ = driven.push(done);
}
