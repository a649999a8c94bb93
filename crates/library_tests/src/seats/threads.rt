ghost use Rattle.std.specs.Prelude.{◌≡◌, ◌+◌, ◌%◌, ◌<◌, ◌≤◌, [], ◌∷◌, Some, IfSome, length, slice_index};
ghost use Rattle.std.specs.Thread.{IsSync};
ghost use Rattle.turn_cell.specs.Seats.{cell_id, IsFree, IsIdle, AreIdle};

use super::{Words, stored};
use glass_edges::NoMemory;
use std::alloc::Global;
use std::sync::Wait;
use std::test::Fail;
use std::thread::{Threads, join_mut};
use turn_cell::{Pass, TurnCell};

// How many epochs each place goes through.
const EPOCHS: u64 = 8;

// A place at rest that has epochs left.
fn place_at_rest(value: &Words) -> Option<u32>
    ensures { IfSome result (λ p. let word = slice_index value.now.words p in
        (p < 2) × (word % 4 ≡ 0) × (word < 32)) }
{
    if value.words[0] % 4 == 0 && value.words[0] < 4 * EPOCHS {
        return Some(0);
    }
    if value.words[1] % 4 == 0 && value.words[1] < 4 * EPOCHS {
        return Some(1);
    }
    None
}

// Hands out a place, hands it back, and says whether both places are at their end.
fn round<R: Wait>(rt: &R, cell: &TurnCell<Words>, seat: &mut Pass<Words>, total: u32) -> bool
    requires { IsIdle (cell_id cell.now) (Some 7) total seat.old }
    ensures { IsIdle (cell_id cell.now) (Some 7) total seat.new }
{
    let value = cell.take_turn(rt, seat);
    let ended = value.words[0] == 4 * EPOCHS && value.words[1] == 4 * EPOCHS;
    let Some(place) = place_at_rest(&value) else {
        cell.give_back(seat, value);
        return ended;
    };
    let word = value.words[place as usize];
    let value = stored(cell, seat, value, place, word + 1);
    cell.give_back(seat, value);
    hands_back(rt, cell, seat, total, place, word / 4);
    false
}

// The first of two places to come back waits for the second, and then both come to rest.
fn hands_back<R: Wait>(
    rt: &R,
    cell: &TurnCell<Words>,
    seat: &mut Pass<Words>,
    total: u32,
    place: u32,
    epoch: u64,
)
    requires place { (place < 2) × (epoch < 8) }
    requires seat { IsFree (cell_id cell.now) (Some 7) total ((place, epoch) ∷ []) seat.old }
    ensures { IsIdle (cell_id cell.now) (Some 7) total seat.new }
{
    let value = cell.take_turn(rt, seat);
    let partner = 1 - place;
    if value.words[partner as usize] == 4 * epoch + 2 {
        let value = stored(cell, seat, value, place, 4 * epoch + 4);
        let value = stored(cell, seat, value, partner, 4 * epoch + 4);
        cell.give_back(seat, value);
        return;
    }
    let value = stored(cell, seat, value, place, 4 * epoch + 2);
    cell.give_back(seat, value);
}

fn work<R: Wait>(rt: &R, cell: &TurnCell<Words>, seat: &mut Pass<Words>, total: u32)
    requires { IsIdle (cell_id cell.now) (Some 7) total seat.old }
    ensures { IsIdle (cell_id cell.now) (Some 7) total seat.new }
{
    for _ in rt.forever() {
        if round(rt, cell, seat, total) {
            return;
        }
    }
    unreachable!()
}

// One worker a seat, by fork and join over halves.
#[cycle(halves)]
fn work_all<R: Threads + Wait + Sync>(
    rt: &R,
    cell: &TurnCell<Words>,
    seats: &mut [Pass<Words>],
    total: u32,
)
    requires idle { AreIdle (cell_id cell.now) (Some 7) total seats.old }
    ensures count { length seats.new ≡ length seats.old }
    ensures idle { AreIdle (cell_id cell.now) (Some 7) total seats.new }
{
    if seats.len() < 2 {
        if let Some(seat) = seats.first_mut() {
            work(rt, cell, seat, total);
        }
        return;
    }
    let half = seats.len() / 2;
    let (front, back) = seats.split_at_mut(half);
    both(rt, cell, front, back, total);
}

// Apart from `work_all`, so that what the closures require is what this function is given.
#[cycle(halves)]
fn both<R: Threads + Wait + Sync>(
    rt: &R,
    cell: &TurnCell<Words>,
    front: &mut [Pass<Words>],
    back: &mut [Pass<Words>],
    total: u32,
)
    requires some { (0 < length front.old) × (0 < length back.old) }
    requires front { AreIdle (cell_id cell.now) (Some 7) total front.old }
    requires back { AreIdle (cell_id cell.now) (Some 7) total back.old }
    ensures count { (length front.new ≡ length front.old) × (length back.new ≡ length back.old) }
    ensures front { AreIdle (cell_id cell.now) (Some 7) total front.new }
    ensures back { AreIdle (cell_id cell.now) (Some 7) total back.new }
{
    join_mut(
        rt,
        &mut ||
            requires { IsSync R.row × AreIdle (cell_id cell.now) (Some 7) total front.now }
            ensures { (length front.exit.now ≡ length front.entry.now)
                × AreIdle (cell_id cell.entry.now) (Some 7) total front.exit.now }
        { work_all(rt, cell, front, total) },
        &mut ||
            requires { IsSync R.row × AreIdle (cell_id cell.now) (Some 7) total back.now }
            ensures { (length back.exit.now ≡ length back.entry.now)
                × AreIdle (cell_id cell.entry.now) (Some 7) total back.exit.now }
        { work_all(rt, cell, back, total) },
    );
}

// The value after all seats have worked to its end.
fn worked<R: Threads + Wait + Sync>(rt: &R, alloc: Global, total: u32) -> Result<Words, NoMemory>
    requires { (0 < total) × (total ≤ 64) }
{
    let value = Words {
        name: 7,
        words: [0, 0],
    };
    let (cell, mut seats) = TurnCell::open(alloc, value, &[0, 0], total)?;
    work_all(rt, &cell, seats.as_mut_slice(), total);
    Ok(cell.close(seats))
}

#[test]
fn seats_on_threads_end_at_the_same_words(rt: HostRuntime) -> Result<(), Fail> {
    for total in [2, 7, 64] {
        let end = worked(&rt, rt.alloc(), total)?;
        assert!(rt;
            end.words[0] == 4 * EPOCHS && end.words[1] == 4 * EPOCHS,
            "{total} seats"
        );
    }
    Ok(())
}
