//! A seat takes two partners at once, and hands them back in the turn in which it asks for more.

ghost use Rattle.std.specs.Prelude.{◌≡◌, [], false};
ghost use Rattle.shared_board.specs.Shared.{lock_id};
ghost use Rattle.turn_cell.specs.Seats.{seat_view, IsSeatOf};
ghost use Rattle.shared_board_tests.specs.Hands.{IsSeat, HasPair, IsGivenOne};

use crate::boards::{Seated, holds, opened, three_slots};
use crate::seats::{Shared, bring_by, job_by};
use exchange_board::{Arrival, Next, NextPair, PairJob, Share};
use shared_board::BoardPass;
use spin_model::EVERY_TAKE;
use std::process::Abort;
use std::sync::Wait;
use std::test::Fail;
use std::thread::Threads;

// A slot at an epoch.
#[derive(Drop)]
struct SlotEpoch {
    slot: u32,
    epoch: u64,
}

const ALL: Share = Share { first: 0, count: 3 };

// Slots 0 and 1 at epoch 0, by a seat that has nothing in work.
fn partners<R: Wait + Abort>(rt: &R, shared: &Shared, seat: &mut BoardPass) -> PairJob
    requires seat { IsSeat (lock_id shared.now.board.now) shared.now.plan.now 0 seat.old }
    requires none { (seat_view seat.old).out ≡ [] }
    ensures own { IsSeatOf (lock_id shared.now.board.now) seat.new }
    ensures pair { HasPair shared.now.plan.now result seat.new }
{
    match shared.board.take_pair(rt, seat, ALL) {
        NextPair::Pair(pair) => {
            let is_first = pair.slot() == 0 && pair.mate() == 1 && pair.epoch() == 0;
            holds(rt, "the pair of partners", 0, is_first);
            pair
        }
        NextPair::Single(_next) => panic!(rt; "no partners"),
    }
}

// The slot that an answer without a pair hands out comes back.
fn alone_comes_back<R: Threads + Wait + Sync + Abort>(
    rt: &R,
    shared: &Shared,
    seat: &mut BoardPass,
    next: NextPair,
) -> SlotEpoch
    requires given { IsGivenOne (lock_id shared.now.board.now) shared.now.plan.now next seat.old }
    ensures own { IsSeatOf (lock_id shared.now.board.now) seat.new }
    ensures free { (seat_view seat.new).holding ≡ false }
{
    match next {
        NextPair::Single(Next::Job(job)) => {
            let (slot, epoch) = (job.slot(), job.epoch());
            let _ = bring_by(rt, shared, seat, job, false);
            SlotEpoch { slot, epoch }
        }
        NextPair::Single(_next) => panic!(rt; "no slot"),
        NextPair::Pair(_pair) => panic!(rt; "two partners"),
    }
}

// While the other seat has slot 2 in work, the partners come back, and one of them is the next.
#[test]
fn partners_come_back_as_one_asks_for_more(rt: HostRuntime) -> Result<(), Fail> {
    let plan = three_slots(rt.alloc())?;
    let Seated {
        board,
        list: _,
        mut p,
        mut q,
    } = opened(rt.alloc(), &plan, 3, EVERY_TAKE)?;
    let shared = Shared {
        board: &board,
        plan: &plan,
    };
    let pair = partners(&rt, &shared, &mut p);
    let last = job_by(&rt, &board, &mut q, false);
    holds(
        &rt,
        "the slot without a partner",
        2,
        last.slot() == 2 && last.epoch() == 0,
    );
    let swept = pair.sweep(&rt, &plan, 1);
    let next = board.settle_pair(&rt, &mut p, swept, ALL);
    let behind = alone_comes_back(&rt, &shared, &mut p, next);
    holds(
        &rt,
        "the slot behind them",
        0,
        behind.slot < 2 && behind.epoch == 1,
    );
    let answer = bring_by(&rt, &shared, &mut q, last, false);
    holds(
        &rt,
        "the answer to the slot without a partner",
        2,
        answer == Arrival::Alone,
    );
    Ok(())
}

// Where one hand-out is left it is no pair's.
#[test]
fn last_hand_out_is_one_slot(rt: HostRuntime) -> Result<(), Fail> {
    let plan = three_slots(rt.alloc())?;
    let Seated {
        board,
        list: _,
        mut p,
        q: _,
    } = opened(rt.alloc(), &plan, 3, 1)?;
    let shared = Shared {
        board: &board,
        plan: &plan,
    };
    let next = board.take_pair(&rt, &mut p, ALL);
    let only = alone_comes_back(&rt, &shared, &mut p, next);
    holds(&rt, "the slot of the last hand-out", 0, only.epoch == 0);
    match board.take_pair(&rt, &mut p, ALL) {
        NextPair::Single(Next::Stopped) => Ok(()),
        _ => panic!(&rt; "a hand-out more"),
    }
}
