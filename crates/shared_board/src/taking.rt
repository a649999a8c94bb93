//! A worker takes a slot.

ghost use Rattle.std.specs.Prelude.{◌≡◌, ◌≤◌, false};
ghost use Rattle.turn_cell.specs.AtomicSteps.{with_refused};
ghost use Rattle.turn_cell.specs.Seats.{seat_view, IsSeatOf};
ghost use Rattle.exchange_board.specs.Answers.{GoesNextAlone, Nexts};
ghost use Rattle.exchange_board.specs.Machine.{IsPhased};
ghost use Rattle.shared_board.specs.Turns.{found_slot, GoesNextOutAlone, TakesSlot};

use crate::shared::{BoardPass, SharedBoard};
use exchange_board::{Board, Job, Next};
use std::sync::Wait;
use turn_cell::Tried;

/// What one try to take a slot answers.
pub enum TryNext {
    /// A slot, now in work with this seat.
    Job(Job),
    /// No slot is at rest below until; some slot is in work.
    Nothing,
    /// Every slot is at rest at until.
    Finished,
    /// All hand-outs of the window are made; some slot has not ended.
    Stopped,
    /// Another seat held the lock.
    Busy,
}

impl SharedBoard {
    ghost use Rattle.shared_board.specs.Shared.{lock_id, HasFound, HasInHand, HasAsked, IsHolderOf, TriesSlot};

    /// Takes a slot in one turn of the lock, for which it waits: a slot at rest below until, which is
    /// then in this seat's work, where there is one and hand-outs are left.
    pub fn take<R: Wait>(&self, rt: &R, pass: &mut BoardPass) -> Next
        requires own { IsSeatOf (lock_id self.now) pass.old }
        requires free { (seat_view pass.old).holding ≡ false }
        ensures own { IsSeatOf (lock_id self.now) pass.new }
        ensures refused { (seat_view pass.old).refused ≤ (seat_view pass.new).refused }
        // but for the refusals, as one try that is not refused
        ensures taken { TakesSlot (with_refused (seat_view pass.old) (seat_view pass.new).refused) (seat_view pass.new) result }
    {
        let board = self.cell.take_turn(rt, pass);
        self.hand_out(pass, board)
    }

    /// Tries once to take a slot, and waits for nobody.
    ///
    /// Answers `Busy` only where another seat held the lock at that step. The seat is then as before,
    /// but for its count of refused tries.
    pub fn try_take(&self, pass: &mut BoardPass) -> TryNext
        requires own { IsSeatOf (lock_id self.now) pass.old }
        requires free { (seat_view pass.old).holding ≡ false }
        ensures own { IsSeatOf (lock_id self.now) pass.new }
        ensures tried { TriesSlot (seat_view pass.old) (seat_view pass.new) result }
    {
        match self.cell.try_turn(pass) {
            Tried::Turn(board) => match self.hand_out(pass, board) {
                Next::Job(job) => TryNext::Job(job),
                Next::Nothing => TryNext::Nothing,
                Next::Finished => TryNext::Finished,
                Next::Stopped => TryNext::Stopped,
            },
            Tried::Busy => TryNext::Busy,
        }
    }

    // The holder asks the board, stores the word of the slot that it gets, and gives the lock back.
    fn hand_out(&self, pass: &mut BoardPass, mut board: Board) -> Next
        requires own { IsSeatOf (lock_id self.now) pass.old }
        requires holder { IsHolderOf (seat_view pass.old) board }
        ensures own { IsSeatOf (lock_id self.now) pass.new }
        ensures refused { (seat_view pass.new).refused ≡ (seat_view pass.old).refused }
        ensures taken { (v : _) → HasFound v (seat_view pass.old) board → TakesSlot v (seat_view pass.new) result }
    {
        let next = board.next();
        self.end_hand_out(pass, board, next)
    }

    // The holder stores the word of the slot that the board gave when it was asked, and gives the lock
    // back.
    pub(crate) fn end_hand_out(&self, pass: &mut BoardPass, board: Board, next: Next) -> Next
        requires own { IsSeatOf (lock_id self.now) pass.old }
        requires asked { HasAsked (seat_view pass.old) board next }
        ensures own { IsSeatOf (lock_id self.now) pass.new }
        ensures refused { (seat_view pass.new).refused ≡ (seat_view pass.old).refused }
        ensures taken { (v : _) (b : _) → HasInHand v (seat_view pass.old) b → IsPhased b.places → Nexts b board next → TakesSlot v (seat_view pass.new) result }
        ensures alone { GoesNextAlone board next → GoesNextOutAlone (seat_view pass.new) result }
        ensures found { found_slot (seat_view pass.new) result ≡ (seat_view pass.old).known }
    {
        match next {
            Next::Job(job) => {
                self.store(pass, &board, job.slot());
                self.cell.give_back(pass, board);
                Next::Job(job)
            }
            other => {
                self.cell.give_back(pass, board);
                other
            }
        }
    }
}
