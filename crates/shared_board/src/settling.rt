//! A worker hands a slot back.

ghost use Rattle.std.specs.Prelude.{◌≡◌, ◌+◌, ◌*◌, ◌<◌, ◌≤◌, true, false, Some, length, if◌then◌else◌, ◌==◌, IfOk, OnErr, IfErr};
ghost use Rattle.std.specs.Arc.{arc_value};
ghost use Rattle.spin_model.specs.Limits.{most_slots};
ghost use Rattle.exchange_board.specs.Views.{place_at, progress, words_of};
ghost use Rattle.turn_cell.specs.Sums.{times, without};
ghost use Rattle.turn_cell.specs.AtomicSteps.{with_refused, after_refusal, after_return, IsLawfulStore, IsStored};
ghost use Rattle.turn_cell.specs.Seats.{seat_view, IsSeatOf};
ghost use Rattle.shared_board.specs.Turns.{IsAmong, ReturnsSlot};

use crate::shared::{BoardPass, SharedBoard};
use exchange_board::{Arrival, Board, Swept};
use scalar_rule::Plan;
use std::sync::Wait;
use turn_cell::Tried;

// The other slot of a pair.
fn mate_of(slot: u32, pair: u32) -> u32
    requires { slot < most_slots }
    ensures { result ≡ (if pair == slot then slot + 1 else pair) }
{
    if pair == slot { slot + 1 } else { pair }
}

impl SharedBoard {
    ghost use Rattle.shared_board.specs.Shared.{lock_id, knows, HasFound, IsHolderOf, CanEnd};

    /// Hands a swept slot back, which this seat has in work, in one turn of the lock, for which it
    /// waits: the slot is recorded, and its pair is exchanged where its partner waits.
    pub fn settle<R: Wait>(
        &self,
        rt: &R,
        plan: &Plan,
        pass: &mut BoardPass,
        swept: Swept,
    ) -> Arrival
        requires own { IsSeatOf (lock_id self.now) pass.old }
        requires free { (seat_view pass.old).holding ≡ false }
        requires plan { plan.now ≡ arc_value swept.origin.plan }
        requires base { (seat_view pass.old).base ≡ Some swept.origin }
        requires work { IsAmong (swept.slot, swept.epoch) (seat_view pass.old).out }
        ensures own { IsSeatOf (lock_id self.now) pass.new }
        ensures refused { (seat_view pass.old).refused ≤ (seat_view pass.new).refused }
        // but for the refusals, as one try that is not refused
        ensures returned { ReturnsSlot (with_refused (seat_view pass.old) (seat_view pass.new).refused) (seat_view pass.new) swept.slot swept.epoch result }
    {
        let board = self.cell.take_turn(rt, pass);
        self.hand_back(plan, pass, board, swept)
    }

    /// Tries once to hand a swept slot back, and waits for nobody.
    ///
    /// Gives the slot back as it was only where another seat held the lock at that step. The seat is
    /// then as before, but for its count of refused tries.
    pub fn try_settle(
        &self,
        plan: &Plan,
        pass: &mut BoardPass,
        swept: Swept,
    ) -> Result<Arrival, Swept>
        requires own { IsSeatOf (lock_id self.now) pass.old }
        requires free { (seat_view pass.old).holding ≡ false }
        requires plan { plan.now ≡ arc_value swept.origin.plan }
        requires base { (seat_view pass.old).base ≡ Some swept.origin }
        requires work { IsAmong (swept.slot, swept.epoch) (seat_view pass.old).out }
        ensures own { IsSeatOf (lock_id self.now) pass.new }
        ensures returned { IfOk result (λ a. ReturnsSlot (seat_view pass.old) (seat_view pass.new) swept.slot swept.epoch a) }
        ensures busy { OnErr result (seat_view pass.new ≡ after_refusal (seat_view pass.old)) }
        ensures same { IfErr result (λ s. s ≡ swept) }
    {
        match self.cell.try_turn(pass) {
            Tried::Turn(board) => Ok(self.hand_back(plan, pass, board, swept)),
            Tried::Busy => Err(swept),
        }
    }

    // The holder hands the slot back to the board, stores its word and, where the pair was exchanged,
    // its partner's, and gives the lock back.
    fn hand_back(
        &self,
        plan: &Plan,
        pass: &mut BoardPass,
        mut board: Board,
        swept: Swept,
    ) -> Arrival
        requires own { IsSeatOf (lock_id self.now) pass.old }
        requires holder { IsHolderOf (seat_view pass.old) board }
        requires plan { plan.now ≡ arc_value board.origin.plan }
        requires same { swept.origin ≡ board.origin }
        requires known { swept.slot < length board.places }
        requires out { progress (place_at board.places swept.slot) ≡ 4 * swept.epoch + 1 }
        requires work { 0 < times swept.slot (seat_view pass.old).out }
        ensures own { IsSeatOf (lock_id self.now) pass.new }
        ensures refused { (seat_view pass.new).refused ≡ (seat_view pass.old).refused }
        ensures returned { (v : _) → HasFound v (seat_view pass.old) board → ReturnsSlot v (seat_view pass.new) swept.slot swept.epoch result }
    {
        let slot = swept.slot();
        match board.arrive(plan, swept) {
            Arrival::Waiting => {
                self.end_turn(pass, board, slot);
                Arrival::Waiting
            }
            Arrival::Alone => {
                self.end_turn(pass, board, slot);
                Arrival::Alone
            }
            Arrival::Settled { pair } => {
                self.store(pass, &board, mate_of(slot, pair));
                self.end_turn(pass, board, slot);
                Arrival::Settled { pair }
            }
        }
    }

    // The holder stores the word of the slot that came back, and gives the lock back.
    fn end_turn(&self, pass: &mut BoardPass, board: Board, slot: u32)
        requires own { IsSeatOf (lock_id self.now) pass.old }
        requires ready { CanEnd (seat_view pass.old) board slot }
        ensures own { IsSeatOf (lock_id self.now) pass.new }
        ensures left { seat_view pass.new ≡ after_return (knows (seat_view pass.old) (words_of board) (without slot (seat_view pass.old).out)) }
    {
        self.store(pass, &board, slot);
        self.cell.give_back(pass, board);
    }

    // The holder stores the word that a slot of its board has.
    pub(crate) fn store(&self, pass: &mut BoardPass, board: &Board, slot: u32)
        requires own { IsSeatOf (lock_id self.now) pass.old }
        requires held { (seat_view pass.old).holding ≡ true }
        requires known { slot < length board.now.places }
        requires lawful { IsLawfulStore (seat_view pass.old) slot (progress (place_at board.now.places slot)) }
        ensures own { IsSeatOf (lock_id self.now) pass.new }
        ensures stored { IsStored (seat_view pass.old) slot (progress (place_at board.now.places slot)) (seat_view pass.new) }
    {
        self.cell.store_mark(pass, slot, board.progress(slot));
    }
}
