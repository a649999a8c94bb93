ghost use Rattle.std.specs.Prelude.{[], ◌∷◌, Some};
ghost use Rattle.turn_cell.specs.Seats.{cell_id, IsFree, IsIdle};

use super::{Words, stored};
use std::process::Abort;
use std::sync::Wait;
use std::test::Fail;
use turn_cell::{Pass, Tried, TurnCell};

// Seat 0 takes the lock, and seat 1 is refused. Seat 0 hands out the first place.
fn first_hands_out<R: Wait + Abort>(
    rt: &R,
    cell: &TurnCell<Words>,
    p: &mut Pass<Words>,
    q: &mut Pass<Words>,
)
    requires p { IsIdle (cell_id cell.now) (Some 7) 2 p.old }
    requires q { IsIdle (cell_id cell.now) (Some 7) 2 q.old }
    ensures p { IsFree (cell_id cell.now) (Some 7) 2 ((0, 0) ∷ []) p.new }
    ensures q { IsIdle (cell_id cell.now) (Some 7) 2 q.new }
{
    let value = cell.take_turn(rt, p);
    assert!(rt; value.words[0] == 0 && value.words[1] == 0);
    match cell.try_turn(q) {
        Tried::Turn(_again) => panic!(rt; "the lock was taken twice"),
        Tried::Busy => {}
    }
    let value = stored(cell, p, value, 0, 1);
    cell.give_back(p, value);
}

// Seat 1 finds what seat 0 left, and hands out the second place.
fn second_hands_out<R: Abort>(rt: &R, cell: &TurnCell<Words>, q: &mut Pass<Words>)
    requires { IsIdle (cell_id cell.now) (Some 7) 2 q.old }
    ensures { IsFree (cell_id cell.now) (Some 7) 2 ((1, 0) ∷ []) q.new }
{
    match cell.try_turn(q) {
        Tried::Turn(value) => {
            assert!(rt; value.words[0] == 1 && value.words[1] == 0);
            let value = stored(cell, q, value, 1, 1);
            cell.give_back(q, value);
        }
        Tried::Busy => panic!(rt; "the lock is not free"),
    }
}

// Seat 0 hands the first place back, which then waits for its partner.
fn first_hands_back<R: Wait + Abort>(rt: &R, cell: &TurnCell<Words>, p: &mut Pass<Words>)
    requires { IsFree (cell_id cell.now) (Some 7) 2 ((0, 0) ∷ []) p.old }
    ensures { IsIdle (cell_id cell.now) (Some 7) 2 p.new }
{
    let value = cell.take_turn(rt, p);
    // Its own item is still in work, as it left it.
    prove!(value.words[0] == 1);
    assert!(rt; value.words[1] == 1);
    let value = stored(cell, p, value, 0, 2);
    cell.give_back(p, value);
}

// Seat 1 hands the second place back, and both come to rest.
fn second_hands_back<R: Wait + Abort>(rt: &R, cell: &TurnCell<Words>, q: &mut Pass<Words>)
    requires { IsFree (cell_id cell.now) (Some 7) 2 ((1, 0) ∷ []) q.old }
    ensures { IsIdle (cell_id cell.now) (Some 7) 2 q.new }
{
    let value = cell.take_turn(rt, q);
    prove!(value.words[1] == 1);
    assert!(rt; value.words[0] == 2);
    let value = stored(cell, q, value, 1, 4);
    let value = stored(cell, q, value, 0, 4);
    cell.give_back(q, value);
}

#[test]
fn two_seats_take_turns(rt: HostRuntime) -> Result<(), Fail> {
    let value = Words {
        name: 7,
        words: [0, 0],
    };
    let (cell, mut seats) = TurnCell::open(rt.alloc(), value, &[0, 0], 2)?;
    let (Some(mut q), Some(mut p)) = (seats.pop(), seats.pop()) else {
        unreachable!()
    };
    first_hands_out(&rt, &cell, &mut p, &mut q);
    second_hands_out(&rt, &cell, &mut q);
    first_hands_back(&rt, &cell, &mut p);
    second_hands_back(&rt, &cell, &mut q);
    // In the other order.
    seats.push_reserved(q);
    seats.push_reserved(p);
    let end = cell.close(seats);
    assert!(rt; end.name == 7);
    assert!(rt; end.words[0] == 4 && end.words[1] == 4);
    Ok(())
}

// The one seat finds the first place waiting for its partner, and brings it to rest.
fn waiting_place_comes_to_rest<R: Wait + Abort>(rt: &R, cell: &TurnCell<Words>, p: &mut Pass<Words>)
    requires { IsIdle (cell_id cell.now) (Some 7) 1 p.old }
    ensures { IsIdle (cell_id cell.now) (Some 7) 1 p.new }
{
    let value = cell.take_turn(rt, p);
    assert!(rt; value.words[0] == 2 && value.words[1] == 4);
    let value = stored(cell, p, value, 0, 4);
    cell.give_back(p, value);
}

#[test]
fn a_lock_opens_with_a_waiting_item(rt: HostRuntime) -> Result<(), Fail> {
    let value = Words {
        name: 7,
        words: [2, 4],
    };
    let (cell, mut seats) = TurnCell::open(rt.alloc(), value, &[2, 4], 1)?;
    let Some(mut p) = seats.pop() else {
        unreachable!()
    };
    waiting_place_comes_to_rest(&rt, &cell, &mut p);
    seats.push_reserved(p);
    let end = cell.close(seats);
    assert!(rt; end.words[0] == 4 && end.words[1] == 4);
    Ok(())
}
