//! The workers of a run, one a seat. Each takes a slot, or two partners, sweeps and hands back, until
//! there is no more to do.

ghost use Rattle.std.specs.Prelude.{◌≡◌, ◌<◌, ◌≤◌, length, IfSome, IfNone};
ghost use Rattle.std.specs.Thread.{IsSync};
ghost use Rattle.shared_board.specs.Shared.{lock_id};
ghost use Rattle.turn_cell.specs.Seats.{seat_view};
ghost use Rattle.glass_engine.specs.Working.{IsAtRest, IsTaker, IsPairTaker, IsPairGiven, IsSame, HasLeft, AreAtRest, HaveLeft};

use crossbeam_utils::Backoff;
use exchange_board::{Job, Next, NextPair, PairJob, Share};
use glass_edges::Gate;
use scalar_rule::Plan;
use shared_board::{BoardPass, SharedBoard};
use std::sync::Wait;
use std::thread::{Threads, join_mut};

/// What all workers of a run share: the board, the plan, into how many pieces they cut the planes of a
/// sweep at most, and how many slots there are for each of them. Where there are two and more, each takes
/// two partners at once where it can.
#[derive(Clone, Copy)]
pub(crate) struct Shared<'a> {
    pub(crate) board: &'a SharedBoard,
    pub(crate) plan: &'a Plan,
    pub(crate) pieces: u32,
    pub(crate) slots_each: usize,
    ghost some_pieces: { 1 ≤ pieces },
    ghost few_pieces: { pieces ≤ 16 },
}

// What a worker keeps from turn to turn: its share of the slots, always the same, so that it mostly gets slots
// that it had before, and its pause.
#[derive(Drop)]
struct Habits {
    share: Share,
    pause: Backoff,
}

// The sweeps of a slot that this seat took, and its hand-back.
fn bring<R: Threads + Wait + Sync, G: Gate + Sync>(
    rt: &R,
    gate: &G,
    shared: &Shared,
    seat: &mut BoardPass,
    job: Job,
)
    requires own { IsTaker (lock_id shared.now.board.now) shared.now.plan.now job seat.old }
    ensures rest { IsAtRest (lock_id shared.now.board.now) shared.now.plan.now seat.new }
    ensures same { IsSame (seat_view seat.old) (seat_view seat.new) }
{
    gate.enter(job.slot(), job.epoch());
    let swept = job.sweep(rt, shared.plan, shared.pieces);
    let _ = shared.board.settle(rt, shared.plan, seat, swept);
}

// The sweeps of two partners that this seat took, their exchange, and their hand-back, with which it asks for
// the next.
fn bring_pair<R: Threads + Wait + Sync, G: Gate + Sync>(
    rt: &R,
    gate: &G,
    shared: &Shared,
    share: Share,
    seat: &mut BoardPass,
    job: PairJob,
) -> NextPair
    requires own { IsPairTaker (lock_id shared.now.board.now) shared.now.plan.now job seat.old }
    ensures given { IsPairGiven (lock_id shared.now.board.now) shared.now.plan.now result seat.new }
    ensures same { IsSame (seat_view seat.old) (seat_view seat.new) }
{
    gate.enter(job.slot(), job.epoch());
    gate.enter(job.mate(), job.epoch());
    let swept = job.sweep(rt, shared.plan, shared.pieces);
    shared.board.settle_pair(rt, seat, swept, share)
}

// What a worker with nothing in work asks the board for.
fn ask<R: Threads + Wait + Sync>(
    rt: &R,
    shared: &Shared,
    share: Share,
    seat: &mut BoardPass,
) -> NextPair
    requires rest { IsAtRest (lock_id shared.now.board.now) shared.now.plan.now seat.old }
    ensures given { IsPairGiven (lock_id shared.now.board.now) shared.now.plan.now result seat.new }
    ensures same { IsSame (seat_view seat.old) (seat_view seat.new) }
{
    if shared.slots_each < 2 {
        NextPair::Single(shared.board.take(rt, seat))
    } else {
        shared.board.take_pair(rt, seat, share)
    }
}

// What a worker does with an answer of the board, and the next answer: none once there is no more to do. One
// that is given nothing pauses.
fn go_on<R: Threads + Wait + Sync, G: Gate + Sync>(
    rt: &R,
    gate: &G,
    shared: &Shared,
    habits: &Habits,
    seat: &mut BoardPass,
    next: NextPair,
) -> Option<NextPair>
    requires given { IsPairGiven (lock_id shared.now.board.now) shared.now.plan.now next seat.old }
    ensures given { IfSome result (λ more. IsPairGiven (lock_id shared.now.board.now) shared.now.plan.now more seat.new) }
    ensures rest { IfNone result (IsAtRest (lock_id shared.now.board.now) shared.now.plan.now seat.new) }
    ensures left { IfNone result (HasLeft (seat_view seat.new)) }
    ensures same { IsSame (seat_view seat.old) (seat_view seat.new) }
{
    match next {
        NextPair::Pair(job) => {
            habits.pause.reset();
            return Some(bring_pair(rt, gate, shared, habits.share, seat, job));
        }
        NextPair::Single(Next::Job(job)) => {
            habits.pause.reset();
            bring(rt, gate, shared, seat, job);
        }
        NextPair::Single(Next::Nothing) => habits.pause.snooze(),
        NextPair::Single(Next::Finished | Next::Stopped) => return None,
    }
    Some(ask(rt, shared, habits.share, seat))
}

// A worker, from its first turn to its last. Apart from `work_all` in the program too, of which the first
// thread has a call on its stack for each worker.
#[inline(never)]
fn work<R: Threads + Wait + Sync, G: Gate + Sync>(
    rt: &R,
    gate: &G,
    shared: &Shared,
    number: usize,
    seat: &mut BoardPass,
)
    requires rest { IsAtRest (lock_id shared.now.board.now) shared.now.plan.now seat.old }
    ensures rest { IsAtRest (lock_id shared.now.board.now) shared.now.plan.now seat.new }
    ensures same { IsSame (seat_view seat.old) (seat_view seat.new) }
    ensures left { HasLeft (seat_view seat.new) }
{
    let habits = Habits {
        share: Share {
            first: number.wrapping_mul(shared.slots_each),
            count: shared.slots_each,
        },
        pause: Backoff::new(),
    };
    let mut next = ask(rt, shared, habits.share, seat);
    for _ in rt.forever() {
        match go_on(rt, gate, shared, &habits, seat, next) {
            Some(more) => next = more,
            None => return,
        }
    }
    unreachable!()
}

/// Works at a board with one worker a seat until each found that there is no more to do; `first` is the
/// number of the first. Each seat but the last has a thread that is started here, since a system may
/// start a thread's own threads late; where one can't be started, the caller works at its seat. Takes no
/// memory.
#[cycle(seats)]
pub(crate) fn work_all<R: Threads + Wait + Sync, G: Gate + Sync>(
    rt: &R,
    gate: &G,
    shared: &Shared,
    first: usize,
    seats: &mut [BoardPass],
)
    requires rest { AreAtRest (lock_id shared.now.board.now) shared.now.plan.now seats.old }
    ensures { HaveLeft (lock_id shared.now.board.now) shared.now.plan.now seats.old seats.new }
{
    if seats.len() < 2 {
        if let Some(seat) = seats.first_mut() {
            work(rt, gate, shared, first, seat);
        }
        return;
    }
    let (front, back) = seats.split_at_mut(1);
    both(rt, gate, shared, first, front, back);
}

// Apart from `work_all`, so that what the closures require is what this function is given.
#[cycle(seats)]
fn both<R: Threads + Wait + Sync, G: Gate + Sync>(
    rt: &R,
    gate: &G,
    shared: &Shared,
    first: usize,
    front: &mut [BoardPass],
    back: &mut [BoardPass],
)
    requires some { (0 < length front.old) × (0 < length back.old) }
    requires front { AreAtRest (lock_id shared.now.board.now) shared.now.plan.now front.old }
    requires back { AreAtRest (lock_id shared.now.board.now) shared.now.plan.now back.old }
    ensures front { HaveLeft (lock_id shared.now.board.now) shared.now.plan.now front.old front.new }
    ensures back { HaveLeft (lock_id shared.now.board.now) shared.now.plan.now back.old back.new }
{
    let middle = first.wrapping_add(front.len());
    join_mut(
        rt,
        &mut ||
            requires { IsSync R.row × IsSync G.row
                × AreAtRest (lock_id shared.now.board.now) shared.now.plan.now front.now }
            ensures { HaveLeft (lock_id shared.entry.now.board.now) shared.entry.now.plan.now front.entry.now front.exit.now }
        { work_all(rt, gate, shared, first, front) },
        &mut ||
            requires { IsSync R.row × IsSync G.row
                × AreAtRest (lock_id shared.now.board.now) shared.now.plan.now back.now }
            ensures { HaveLeft (lock_id shared.entry.now.board.now) shared.entry.now.plan.now back.entry.now back.exit.now }
        { work_all(rt, gate, shared, middle, back) },
    );
}
