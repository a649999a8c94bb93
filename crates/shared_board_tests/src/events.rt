//! Three slots through two seats, event by event.

ghost use Rattle.std.specs.Prelude.{◌≡◌, ◌≤◌, [], ◌∷◌, IfOk};
ghost use Rattle.std.specs.Arc.{arc_value};
ghost use Rattle.exchange_board.specs.Content.{plan_of};
ghost use Rattle.scalar_rule.specs.Plan.{slots_of};
ghost use Rattle.shared_board.specs.Shared.{lock_id};
ghost use Rattle.spin_model.specs.Limits.{every_take};
ghost use Rattle.shared_board_tests.specs.Hands.{AreTwo, AreHeld};

use crate::boards::{Seated, closed, holds, opened, three_slots};
use crate::seats::{Hand, Held, Pause, Shared, comes_back, pauses, taken};
use exchange_board::{Arrival, Board, Job, Next};
use scalar_rule::Plan;
use shared_board::{BoardPass, SharedBoard};
use spin_model::EVERY_TAKE;
use std::alloc::Global;
use std::process::Abort;
use std::sync::{Arc, Wait};
use std::test::Fail;
use std::thread::Threads;

// A slot in work is this one.
fn is_at<R: Abort>(rt: &R, held: &Held, slot: u32, epoch: u64)
    ensures slot { held.now.job.slot ≡ slot }
    ensures epoch { held.now.job.epoch ≡ epoch }
{
    assert!(rt; held.job.slot() == slot, "not slot {slot}");
    assert!(rt; held.job.epoch() == epoch, "not epoch {epoch}");
}

// Two slots by both seats, in the order of their numbers.
fn two_taken<R: Wait + Abort>(
    rt: &R,
    shared: &Shared,
    p: &mut BoardPass,
    q: &mut BoardPass,
    hand: Hand,
) -> (Held, Held)
    requires two { AreTwo (lock_id shared.now.board.now) shared.now.plan.now p.old q.old }
    ensures two { AreTwo (lock_id shared.now.board.now) shared.now.plan.now p.new q.new }
    ensures held { (hs : _) → AreHeld hs p.old q.old
        → AreHeld ((result.0.hand.second, result.0.job) ∷ (result.1.hand.second, result.1.job) ∷ hs) p.new q.new }
{
    let a = taken(rt, shared, p, q, hand);
    let b = taken(rt, shared, p, q, hand.other());
    if b.job.slot() < a.job.slot() {
        (b, a)
    } else {
        (a, b)
    }
}

// The three slots in the order of their numbers.
fn three_taken<R: Wait + Abort>(
    rt: &R,
    shared: &Shared,
    p: &mut BoardPass,
    q: &mut BoardPass,
    hand: Hand,
) -> ((Held, Held), Held)
    requires two { AreTwo (lock_id shared.now.board.now) shared.now.plan.now p.old q.old }
    requires none { AreHeld [] p.old q.old }
    ensures two { AreTwo (lock_id shared.now.board.now) shared.now.plan.now p.new q.new }
    ensures held { AreHeld ((result.0.0.hand.second, result.0.0.job) ∷ (result.0.1.hand.second, result.0.1.job)
        ∷ (result.1.hand.second, result.1.job) ∷ []) p.new q.new }
{
    let (a, b) = two_taken(rt, shared, p, q, hand);
    let c = taken(rt, shared, p, q, hand);
    if c.job.slot() < a.job.slot() {
        ((c, a), b)
    } else if c.job.slot() < b.job.slot() {
        ((a, c), b)
    } else {
        ((a, b), c)
    }
}

// All slots at epoch 0. Slot 0 waits for slot 1, and the two are exchanged; slot 2 stays in work.
fn first_epoch<R: Threads + Wait + Sync + Abort>(
    rt: &R,
    shared: &Shared,
    p: &mut BoardPass,
    q: &mut BoardPass,
    hand: Hand,
) -> Held
    requires two { AreTwo (lock_id shared.now.board.now) shared.now.plan.now p.old q.old }
    requires none { AreHeld [] p.old q.old }
    ensures two { AreTwo (lock_id shared.now.board.now) shared.now.plan.now p.new q.new }
    ensures held { AreHeld ((result.hand.second, result.job) ∷ []) p.new q.new }
    ensures slot { result.job.slot ≡ 2 }
{
    let ((a, b), c) = three_taken(rt, shared, p, q, hand);
    is_at(rt, &a, 0, 0);
    is_at(rt, &b, 1, 0);
    is_at(rt, &c, 2, 0);
    comes_back(rt, shared, p, q, a, Arrival::Waiting);
    comes_back(rt, shared, p, q, b, Arrival::Settled { pair: 0 });
    c
}

// Slots 0 and 1 at epoch 1, where slot 0 has no partner and slot 1 waits for slot 2; and slot 0 at
// epoch 2, where it waits for slot 1. No slot is then left to hand out.
fn later_epochs<R: Threads + Wait + Sync + Abort>(
    rt: &R,
    shared: &Shared,
    p: &mut BoardPass,
    q: &mut BoardPass,
    hand: Hand,
    last: &Held,
)
    requires two { AreTwo (lock_id shared.now.board.now) shared.now.plan.now p.old q.old }
    requires held { AreHeld ((last.now.hand.second, last.now.job) ∷ []) p.old q.old }
    requires slot { last.now.job.slot ≡ 2 }
    ensures two { AreTwo (lock_id shared.now.board.now) shared.now.plan.now p.new q.new }
    ensures held { AreHeld ((last.now.hand.second, last.now.job) ∷ []) p.new q.new }
{
    let (a, b) = two_taken(rt, shared, p, q, hand);
    is_at(rt, &a, 0, 1);
    is_at(rt, &b, 1, 1);
    comes_back(rt, shared, p, q, a, Arrival::Alone);
    comes_back(rt, shared, p, q, b, Arrival::Waiting);
    let again = taken(rt, shared, p, q, hand);
    is_at(rt, &again, 0, 2);
    comes_back(rt, shared, p, q, again, Arrival::Waiting);
    pauses(rt, shared, p, q, hand, Pause::Nothing);
    pauses(rt, shared, p, q, hand.other(), Pause::Nothing);
}

// All events, up to where slot 2 comes back at epoch 0, at which it has no partner.
fn all_events<R: Threads + Wait + Sync + Abort>(
    rt: &R,
    board: &SharedBoard,
    plan: &Plan,
    p: &mut BoardPass,
    q: &mut BoardPass,
    hand: Hand,
)
    requires two { AreTwo (lock_id board.now) plan.now p.old q.old }
    requires none { AreHeld [] p.old q.old }
    ensures two { AreTwo (lock_id board.now) plan.now p.new q.new }
    ensures none { AreHeld [] p.new q.new }
{
    let shared = Shared { board, plan };
    let last = first_epoch(rt, &shared, p, q, hand);
    later_epochs(rt, &shared, p, q, hand.other(), &last);
    comes_back(rt, &shared, p, q, last, Arrival::Alone);
}

// The board that is closed after these events.
fn board_of_events<R: Threads + Wait + Sync + Abort>(
    rt: &R,
    alloc: Global,
    plan: &Arc<Plan, Global>,
    hand: Hand,
) -> Result<Board, Fail>
    requires { slots_of (arc_value plan.now) ≡ 3 }
    ensures { IfOk result (λ board. plan_of board.origin ≡ arc_value plan.now) }
{
    let Seated {
        board,
        list,
        mut p,
        mut q,
    } = opened(alloc, plan, 3, EVERY_TAKE)?;
    all_events(rt, &board, plan, &mut p, &mut q, hand);
    Ok(closed(Seated { board, list, p, q }))
}

// A slot is swept and handed back to a board that no lock is around.
fn bring<R: Threads + Sync + Abort>(rt: &R, board: &mut Board, plan: &Plan, job: Job) -> Arrival
    requires plan { plan.now ≡ plan_of board.old.origin }
    requires same { job.origin ≡ board.old.origin }
{
    let (slot, epoch) = (job.slot(), job.epoch());
    assert!(rt; slot < board.slots());
    assert!(rt; epoch < 1000);
    assert!(rt; board.progress(slot) == 4 * epoch + 1);
    let swept = job.sweep(rt, plan, 1);
    board.arrive(plan, swept)
}

// What the closed board hands out: slot 2 at epoch 1, at which its partner waits.
fn goes_on<R: Threads + Sync + Abort>(rt: &R, mut board: Board, plan: &Plan)
    requires { plan.now ≡ plan_of board.origin }
{
    assert!(rt; board.slots() == 3);
    let first_two = board.progress(0) == 10 && board.progress(1) == 6;
    holds(rt, "the progress", 0, first_two && board.progress(2) == 4);
    match board.next() {
        Next::Job(job) => {
            let is_last = job.slot() == 2 && job.epoch() == 1;
            holds(rt, "the next slot", 2, is_last);
            let given = bring(rt, &mut board, plan, job);
            holds(rt, "its answer", 0, given == Arrival::Settled { pair: 1 });
        }
        Next::Nothing | Next::Finished | Next::Stopped => panic!(rt; "no slot is left"),
    }
}

// Each seat begins, and tries where the other waits.
#[test]
fn three_slots_through_two_seats(rt: HostRuntime) -> Result<(), Fail> {
    let plan = three_slots(rt.alloc())?;
    for second in [false, true] {
        for tries in [false, true] {
            let hand = Hand { second, tries };
            let board = board_of_events(&rt, rt.alloc(), &plan, hand)?;
            goes_on(&rt, board, &plan);
        }
    }
    Ok(())
}

// Both seats are told this: one waits for its turn, and one tries for it.
fn both_are_told<R: Wait + Abort>(
    rt: &R,
    board: &SharedBoard,
    plan: &Plan,
    p: &mut BoardPass,
    q: &mut BoardPass,
    answer: Pause,
)
    requires { AreTwo (lock_id board.now) plan.now p.old q.old }
{
    let shared = Shared { board, plan };
    let hand = Hand {
        second: false,
        tries: false,
    };
    pauses(rt, &shared, p, q, hand, answer);
    pauses(rt, &shared, p, q, hand.other(), answer);
}

// So of a board to this epoch and of so many hand-outs.
fn end_is_told<R: Wait + Abort>(
    rt: &R,
    alloc: Global,
    plan: &Arc<Plan, Global>,
    until: u64,
    takes: u64,
    answer: Pause,
) -> Result<(), Fail>
    requires slots { slots_of (arc_value plan.now) ≡ 3 }
    requires until { until ≤ 1000 }
    requires takes { takes ≤ every_take }
{
    let Seated {
        board,
        list: _,
        mut p,
        mut q,
    } = opened(alloc, plan, until, takes)?;
    both_are_told(rt, &board, plan, &mut p, &mut q, answer);
    Ok(())
}

#[test]
fn both_seats_are_told_the_end(rt: HostRuntime) -> Result<(), Fail> {
    let plan = three_slots(rt.alloc())?;
    end_is_told(&rt, rt.alloc(), &plan, 0, EVERY_TAKE, Pause::Finished)?;
    end_is_told(&rt, rt.alloc(), &plan, 3, 0, Pause::Stopped)
}
