//! How a lock is closed, once all its seats are back.
ghost use Rattle.std.specs.Prelude.{◌≡◌, ◌<◌, false, [], Some, All, length};
ghost use Rattle.std.specs.Mem.Slots.{slots_items, slots_len, IsFull};
ghost use mathlib.Core.Option.{some};
ghost use lib.ListN.{get_elem?};
ghost use Rattle.turn_cell.specs.Progress.{AtMost, NoneIsInWork};
ghost use Rattle.turn_cell.specs.AtomicSteps.{after_join};
ghost use Rattle.turn_cell.specs.Seats.{cell_id, seat_view, IsSeatOf, base_of, AreIdle, IsGathered};

use crate::cell::TurnCell;
use crate::kept::Kept;
use crate::pass::Pass;
use crate::steps::Whole;
use atomic_table::Closed;
use std::alloc::Global;

impl<V: Kept> TurnCell<V> {
    /// Closes the lock and answers its value.
    ///
    /// Takes all seats that the lock was opened with, in any order, none of which holds the lock or
    /// has work. The value has their provenance, no word of phase 1, and no word below what
    /// any of them had seen. Takes no memory.
    pub fn close(self, passes: Vec<Pass<V>>) -> V
        requires some { 0 < length passes.items }
        requires idle { AreIdle (cell_id self) (base_of passes.items) (length passes.items) passes.items }
        ensures base { Some (V.origin result) ≡ base_of passes.items }
        ensures ended { NoneIsInWork (V.marks result) }
        ensures seen { All (λ p. AtMost (seat_view p).seen (V.marks result)) passes.items }
    {
        let kept = self.gather(passes);
        let TurnCell { table } = self;
        let Pass { seat } = kept;
        match taken_out(table.close_with(seat)) {
            Some(value) => value,
            None => unreachable!(),
        }
    }

    // All seats in one.
    fn gather(&self, mut passes: Vec<Pass<V>>) -> Pass<V>
        requires some { 0 < length passes.items }
        requires idle { AreIdle (cell_id self.now) (base_of passes.items) (length passes.items) passes.items }
        ensures { IsGathered (cell_id self.now) passes.items result }
    {
        let Some(mut kept) = passes.pop() else {
            unreachable!()
        };
        while let Some(other) = passes.pop() {
            self.join(&mut kept, other);
        }
        kept
    }

    // The numbers of one seat go to another, and what it has seen.
    fn join(&self, kept: &mut Pass<V>, other: Pass<V>)
        requires own { IsSeatOf (cell_id self.now) kept.old × IsSeatOf (cell_id self.now) other }
        requires other { ((seat_view other).holding ≡ false) × ((seat_view other).out ≡ []) }
        ensures own { IsSeatOf (cell_id self.now) kept.new }
        ensures joined { seat_view kept.new ≡ after_join (seat_view kept.old) (seat_view other) }
    {
        let Pass { seat } = other;
        self.table.shared.join_seat::<Whole>(&mut kept.seat, seat);
    }
}

fn taken_out<V: Kept>(mut closed: Closed<Option<V>, Global>) -> Option<V>
    requires { (slots_len closed.slots ≡ 1) × IsFull closed.slots }
    ensures { get_elem? (slots_items closed.slots) 0 ≡ some result }
{
    let value = closed.take(0);
    closed.free();
    value
}
