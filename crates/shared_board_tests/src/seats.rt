//! Two seats that take slots and hand them back, each in a turn that it waits for or tries for.

ghost use Rattle.std.specs.Prelude.{◌≡◌, false, ◌∷◌, Some};
ghost use Rattle.exchange_board.specs.Content.{plan_of};
ghost use Rattle.shared_board.specs.Shared.{lock_id};
ghost use Rattle.shared_board.specs.Turns.{IsAmong};
ghost use Rattle.turn_cell.specs.Seats.{seat_view, IsSeatOf};
ghost use Rattle.turn_cell.specs.Sums.{without};
ghost use Rattle.shared_board_tests.specs.Hands.{IsAfter, AreTwo, AreHeld, AreOther, HasInWork, seat_of};

use crate::boards::holds;
use exchange_board::{Arrival, Job, Next};
use scalar_rule::Plan;
use shared_board::{BoardPass, SharedBoard, TryNext};
use std::process::Abort;
use std::sync::Wait;
use std::thread::Threads;

/// A board under a lock, and its plan.
#[derive(Clone, Copy)]
pub(super) struct Shared<'a> {
    pub(super) board: &'a SharedBoard,
    pub(super) plan: &'a Plan,
}

/// Whether the second seat has a turn or the first, and whether it tries for it or waits.
#[derive(Clone, Copy)]
pub(super) struct Hand {
    pub(super) second: bool,
    pub(super) tries: bool,
}

impl Hand {
    /// The other seat, which tries where this one waits.
    pub(super) fn other(self) -> Hand {
        Hand {
            second: !self.second,
            tries: !self.tries,
        }
    }
}

/// A slot in work, and by whom.
pub(super) struct Held {
    pub(super) hand: Hand,
    pub(super) job: Job,
}

/// An answer without a slot.
#[derive(Clone, Copy, PartialEq, Eq)]
pub(super) enum Pause {
    Nothing,
    Finished,
    Stopped,
}

/// The slot that a seat takes.
pub(super) fn job_by<R: Wait + Abort>(
    rt: &R,
    board: &SharedBoard,
    seat: &mut BoardPass,
    tries: bool,
) -> Job
    requires own { IsSeatOf (lock_id board.now) seat.old }
    requires free { (seat_view seat.old).holding ≡ false }
    ensures own { IsSeatOf (lock_id board.now) seat.new }
    ensures base { (seat_view seat.old).base ≡ Some result.origin }
    ensures after { IsAfter (seat_view seat.old) (seat_view seat.new) ((result.slot, result.epoch) ∷ (seat_view seat.old).out) }
{
    if tries {
        match board.try_take(seat) {
            TryNext::Job(job) => job,
            TryNext::Nothing | TryNext::Finished | TryNext::Stopped => panic!(rt; "no slot"),
            TryNext::Busy => panic!(rt; "the lock is held"),
        }
    } else {
        match board.take(rt, seat) {
            Next::Job(job) => job,
            Next::Nothing | Next::Finished | Next::Stopped => panic!(rt; "no slot"),
        }
    }
}

// The answer to a seat that is given no slot.
fn pause_by<R: Wait + Abort>(
    rt: &R,
    board: &SharedBoard,
    seat: &mut BoardPass,
    tries: bool,
) -> Pause
    requires own { IsSeatOf (lock_id board.now) seat.old }
    requires free { (seat_view seat.old).holding ≡ false }
    ensures own { IsSeatOf (lock_id board.now) seat.new }
    ensures after { IsAfter (seat_view seat.old) (seat_view seat.new) (seat_view seat.old).out }
{
    if tries {
        match board.try_take(seat) {
            TryNext::Job(_job) => panic!(rt; "a slot"),
            TryNext::Nothing => Pause::Nothing,
            TryNext::Finished => Pause::Finished,
            TryNext::Stopped => Pause::Stopped,
            TryNext::Busy => panic!(rt; "the lock is held"),
        }
    } else {
        match board.take(rt, seat) {
            Next::Job(_job) => panic!(rt; "a slot"),
            Next::Nothing => Pause::Nothing,
            Next::Finished => Pause::Finished,
            Next::Stopped => Pause::Stopped,
        }
    }
}

/// The sweeps of a slot that a seat has in work, and its hand-back.
pub(super) fn bring_by<R: Threads + Wait + Sync + Abort>(
    rt: &R,
    shared: &Shared,
    seat: &mut BoardPass,
    job: Job,
    tries: bool,
) -> Arrival
    requires own { IsSeatOf (lock_id shared.now.board.now) seat.old }
    requires free { (seat_view seat.old).holding ≡ false }
    requires plan { shared.now.plan.now ≡ plan_of job.origin }
    requires base { (seat_view seat.old).base ≡ Some job.origin }
    requires work { IsAmong (job.slot, job.epoch) (seat_view seat.old).out }
    ensures own { IsSeatOf (lock_id shared.now.board.now) seat.new }
    ensures after { IsAfter (seat_view seat.old) (seat_view seat.new) (without job.slot (seat_view seat.old).out) }
{
    let swept = job.sweep(rt, shared.plan, 1);
    if tries {
        match shared.board.try_settle(shared.plan, seat, swept) {
            Ok(arrival) => arrival,
            Err(_swept) => panic!(rt; "the lock is held"),
        }
    } else {
        shared.board.settle(rt, shared.plan, seat, swept)
    }
}

// The hand-back of a slot, which has this answer.
fn comes_back_by<R: Threads + Wait + Sync + Abort>(
    rt: &R,
    shared: &Shared,
    seat: &mut BoardPass,
    job: Job,
    tries: bool,
    answer: Arrival,
)
    requires own { IsSeatOf (lock_id shared.now.board.now) seat.old }
    requires free { (seat_view seat.old).holding ≡ false }
    requires plan { shared.now.plan.now ≡ plan_of job.origin }
    requires base { (seat_view seat.old).base ≡ Some job.origin }
    requires work { IsAmong (job.slot, job.epoch) (seat_view seat.old).out }
    ensures own { IsSeatOf (lock_id shared.now.board.now) seat.new }
    ensures after { IsAfter (seat_view seat.old) (seat_view seat.new) (without job.slot (seat_view seat.old).out) }
{
    let slot = job.slot();
    let given = bring_by(rt, shared, seat, job, tries);
    holds(rt, "the answer to slot", slot as u64, given == answer);
}

/// Takes a slot.
pub(super) fn taken<R: Wait + Abort>(
    rt: &R,
    shared: &Shared,
    p: &mut BoardPass,
    q: &mut BoardPass,
    hand: Hand,
) -> Held
    requires two { AreTwo (lock_id shared.now.board.now) shared.now.plan.now p.old q.old }
    ensures two { AreTwo (lock_id shared.now.board.now) shared.now.plan.now p.new q.new }
    ensures held { (hs : _) → AreHeld hs p.old q.old → AreHeld ((result.hand.second, result.job) ∷ hs) p.new q.new }
{
    if hand.second {
        let job = job_by(rt, shared.board, q, hand.tries);
        Held { hand, job }
    } else {
        let job = job_by(rt, shared.board, p, hand.tries);
        Held { hand, job }
    }
}

/// Asks for a slot and is given none, with this answer.
pub(super) fn pauses<R: Wait + Abort>(
    rt: &R,
    shared: &Shared,
    p: &mut BoardPass,
    q: &mut BoardPass,
    hand: Hand,
    answer: Pause,
)
    requires two { AreTwo (lock_id shared.now.board.now) shared.now.plan.now p.old q.old }
    ensures two { AreTwo (lock_id shared.now.board.now) shared.now.plan.now p.new q.new }
    ensures held { (hs : _) → AreHeld hs p.old q.old → AreHeld hs p.new q.new }
{
    if hand.second {
        let pause = pause_by(rt, shared.board, q, hand.tries);
        holds(rt, "an answer to the second seat", 0, pause == answer);
    } else {
        let pause = pause_by(rt, shared.board, p, hand.tries);
        holds(rt, "an answer to the first seat", 0, pause == answer);
    }
}

/// A slot comes back from the seat that has it in work, with this answer.
pub(super) fn comes_back<R: Threads + Wait + Sync + Abort>(
    rt: &R,
    shared: &Shared,
    p: &mut BoardPass,
    q: &mut BoardPass,
    held: Held,
    answer: Arrival,
)
    requires two { AreTwo (lock_id shared.now.board.now) shared.now.plan.now p.old q.old }
    requires work { HasInWork held.job (seat_of held.hand.second p.old q.old) }
    ensures two { AreTwo (lock_id shared.now.board.now) shared.now.plan.now p.new q.new }
    ensures held { (hs : _) → AreHeld ((held.hand.second, held.job) ∷ hs) p.old q.old → AreOther held.job.slot hs → AreHeld hs p.new q.new }
{
    let Held { hand, job } = held;
    if hand.second {
        comes_back_by(rt, shared, q, job, hand.tries, answer);
    } else {
        comes_back_by(rt, shared, p, job, hand.tries, answer);
    }
}
