//! The board of three slots, under a lock with two seats.

ghost use Rattle.std.specs.Prelude.{◌≡◌, ◌<◌, ◌≤◌, [], ◌∷◌, Some, IfOk, vec_len, vec_capacity};
ghost use Rattle.std.specs.Arc.{arc_value};
ghost use Rattle.exchange_board.specs.Content.{plan_of};
ghost use Rattle.exchange_board.specs.Machine.{NoneOut};
ghost use Rattle.plane_sweep.specs.Packed.{StandFits};
ghost use Rattle.scalar_rule.specs.Plan.{slots_of};
ghost use Rattle.shared_board.specs.Shared.{lock_id};
ghost use Rattle.spin_model.specs.Limits.{every_take};
ghost use Rattle.turn_cell.specs.Seats.{seat_view};
ghost use Rattle.shared_board_tests.specs.Hands.{AreTwo, AreHeld, AreBothIdle};

use coupling_set::Couplings;
use exchange_board::{Board, Window};
use lattice_geometry::Lattice;
use plane_sweep::Stand;
use scalar_rule::{Plan, Start};
use shared_board::{BoardPass, SharedBoard};
use std::alloc::Global;
use std::process::Abort;
use std::sync::Arc;
use std::test::Fail;
use threshold_table::{RuleKind, read_rule, read_swap};

// Heat bath at three slots that are alike, which keeps every spin +1.
const UP: &str = "0,0,0,0,0,0,4294967296
0,0,0,0,0,0,4294967296
0,0,0,0,0,0,4294967296
";

/// Ends the test, with the name and the number of the case, where something does not hold.
pub(super) fn holds<R: Abort>(rt: &R, case: &str, number: u64, whether: bool) {
    if !whether {
        panic!(rt; "{case} {number}");
    }
}

/// Three slots of the ferromagnet.
pub(super) fn three_slots(alloc: Global) -> Result<Arc<Plan, Global>, Fail>
    ensures { IfOk result (λ plan. slots_of (arc_value plan) ≡ 3) }
{
    let lattice = Lattice::of(4)?;
    let couplings = Couplings::plus(alloc, lattice)?;
    let rules = read_rule(alloc, UP.as_bytes(), RuleKind::Heat)?;
    let swaps = read_swap(alloc, "0\n0\n".as_bytes(), rules.slots())?;
    if rules.slots() != 3 || swaps.pairs() != 2 {
        return Err("another number of slots".into());
    }
    let plan = Plan::new(lattice, rules, swaps, couplings, 1, 7);
    Ok(Arc::new(alloc, plan)?)
}

// All spins up at epoch 0.
fn all_up(alloc: Global, plan: &Plan) -> Result<Stand, Fail>
    ensures fits { IfOk result (StandFits plan.now) }
    ensures begun { IfOk result (λ stand. stand.epoch ≡ 0) }
{
    let stand = Stand::opening(alloc, plan, Start::Up)?;
    if stand.epoch != 0 {
        return Err("begun".into());
    }
    Ok(stand)
}

// The board of three slots from there, of which every epoch of sample 0 is recorded.
fn board_of(alloc: Global, plan: &Arc<Plan, Global>, until: u64, takes: u64) -> Result<Board, Fail>
    requires slots { slots_of (arc_value plan.now) ≡ 3 }
    requires until { until ≤ 1000 }
    requires takes { takes ≤ every_take }
    ensures plan { IfOk result (λ board. plan_of board.origin ≡ arc_value plan.now) }
    ensures home { IfOk result (λ board. NoneOut board.places) }
{
    let stand = all_up(alloc, plan)?;
    let window = Window {
        until,
        every: 1,
        samples: 1,
        takes,
    };
    Ok(Board::open(alloc, plan, stand, window)?)
}

/// A board under a lock, its two seats, and the list that they came in, which has room for them.
pub(super) struct Seated {
    pub(super) board: SharedBoard,
    pub(super) list: Vec<BoardPass>,
    pub(super) p: BoardPass,
    pub(super) q: BoardPass,
}

// The seats of a list of two.
fn two_seats(list: &mut Vec<BoardPass>) -> (BoardPass, BoardPass)
    requires { vec_len list.old ≡ 2 }
    ensures items { list.old.items ≡ result.0 ∷ result.1 ∷ [] }
    ensures empty { list.new.items ≡ [] }
    ensures room { 2 ≤ vec_capacity list.new }
{
    let (Some(q), Some(p)) = (list.pop(), list.pop()) else {
        unreachable!()
    };
    (p, q)
}

/// The board of three slots from all spins up, to this epoch and of at most so many hand-outs.
pub(super) fn opened(
    alloc: Global,
    plan: &Arc<Plan, Global>,
    until: u64,
    takes: u64,
) -> Result<Seated, Fail>
    requires slots { slots_of (arc_value plan.now) ≡ 3 }
    requires until { until ≤ 1000 }
    requires takes { takes ≤ every_take }
    ensures two { IfOk result (λ o. AreTwo (lock_id o.board) (arc_value plan.now) o.p o.q) }
    ensures none { IfOk result (λ o. AreHeld [] o.p o.q) }
    ensures empty { IfOk result (λ o. o.list.items ≡ []) }
    ensures room { IfOk result (λ o. 2 ≤ vec_capacity o.list) }
{
    let board = board_of(alloc, plan, until, takes)?;
    let (board, mut list) = SharedBoard::open(alloc, board, 2)?;
    let (p, q) = two_seats(&mut list);
    Ok(Seated { board, list, p, q })
}

/// The board once both seats are back.
pub(super) fn closed(opened: Seated) -> Board
    requires idle { AreBothIdle (lock_id opened.board) opened.p opened.q }
    requires empty { opened.list.items ≡ [] }
    requires room { 2 ≤ vec_capacity opened.list }
    ensures base { Some result.origin ≡ (seat_view opened.p).base }
    ensures home { NoneOut result.places }
{
    let Seated {
        board,
        mut list,
        p,
        q,
    } = opened;
    list.push_reserved(p);
    list.push_reserved(q);
    board.close(list)
}
