//! The lock is taken and given back.
ghost use Rattle.std.specs.Prelude.{◌≡◌, ◌≤◌, true, false, Some};
ghost use Rattle.turn_cell.specs.AtomicSteps.{with_refused, after_refusal, after_return, IsTaken};
ghost use Rattle.turn_cell.specs.Seats.{cell_id, seat_view, IsSeatOf, IfTurn, OnBusy};

use crate::cell::TurnCell;
use crate::kept::Kept;
use crate::pass::{Pass, Tried};
use crate::steps::{Give, Try};
use crossbeam_utils::Backoff;
use std::hint;
use std::sync::Wait;

// How often a worker that waits looks at the lock's word before it gives its processor away: for some microseconds.
const LOOKS: u32 = 100;

impl<V: Kept> TurnCell<V> {
    /// Takes the lock, waiting until it is free, and answers its value.
    ///
    /// The value's progress words are what the seat then knows. None is below what the seat had
    /// seen, each of the seat's items in work has its word of phase 1, and the provenance is the seat's.
    pub fn take_turn<R: Wait>(&self, rt: &R, pass: &mut Pass<V>) -> V
        requires own { IsSeatOf (cell_id self.now) pass.old }
        requires free { (seat_view pass.old).holding ≡ false }
        ensures own { IsSeatOf (cell_id self.now) pass.new }
        ensures refused { (seat_view pass.old).refused ≤ (seat_view pass.new).refused }
        // but for the refusals, as one try that is not refused
        ensures taken { let tried = with_refused (seat_view pass.old) (seat_view pass.new).refused in
            IsTaken V.origin V.marks tried (seat_view pass.new) result }
    {
        let backoff = Backoff::new();
        for _ in rt.forever() {
            match self.try_turn(pass) {
                Tried::Turn(value) => return value,
                Tried::Busy => self.await_turn(&backoff),
            }
        }
        unreachable!()
    }

    // Waits a little while the lock is held. It looks and doesn't try, since a try takes the word's line of
    // memory from the holder's processor, which stores the words beside it.
    fn await_turn(&self, backoff: &Backoff) {
        for _ in 0..LOOKS {
            if self.table.shared.peek(0) == 0 {
                return;
            }
            hint::spin_loop();
        }
        backoff.snooze();
    }

    /// Tries once to take the lock, by one atomic step, and waits for nobody.
    ///
    /// Answers `Busy` only where another seat held the lock at that step. The seat is then as
    /// before, but for its count of refused tries.
    pub fn try_turn(&self, pass: &mut Pass<V>) -> Tried<V>
        requires own { IsSeatOf (cell_id self.now) pass.old }
        requires free { (seat_view pass.old).holding ≡ false }
        ensures own { IsSeatOf (cell_id self.now) pass.new }
        ensures taken { IfTurn result (IsTaken V.origin V.marks (seat_view pass.old) (seat_view pass.new)) }
        ensures busy { OnBusy result (seat_view pass.new ≡ after_refusal (seat_view pass.old)) }
    {
        let shared = &self.table.shared;
        let found = shared.compare_exchange::<Try<V>>(&mut pass.seat, 0, 0, 1);
        if found != 0 {
            return Tried::Busy;
        }
        match shared.exchange(&mut pass.seat, 0, None) {
            Some(value) => Tried::Turn(value),
            None => unreachable!(),
        }
    }

    /// Gives the lock back with a value that has the words which the seat knows, and the provenance.
    pub fn give_back(&self, pass: &mut Pass<V>, value: V)
        requires own { IsSeatOf (cell_id self.now) pass.old }
        requires held { (seat_view pass.old).holding ≡ true }
        requires words { V.marks value ≡ (seat_view pass.old).known }
        requires base { Some (V.origin value) ≡ (seat_view pass.old).base }
        ensures own { IsSeatOf (cell_id self.now) pass.new }
        ensures back { seat_view pass.new ≡ after_return (seat_view pass.old) }
    {
        let shared = &self.table.shared;
        // The value is at home before the lock is free.
        drop(shared.exchange(&mut pass.seat, 0, Some(value)));
        shared.store::<Give<V>>(&mut pass.seat, 0, 0);
    }
}
