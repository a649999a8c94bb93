//! A worker takes two partners at once, and hands them back when it takes the next.

ghost use Rattle.std.specs.Prelude.{◌≡◌, ℕ, ◌+◌, ◌*◌, ◌<◌, ◌≤◌, false, Some, length};
ghost use Rattle.exchange_board.specs.Views.{place_at, progress};
ghost use Rattle.turn_cell.specs.AtomicSteps.{with_refused, after_return};
ghost use Rattle.turn_cell.specs.Seats.{seat_view, IsSeatOf};
ghost use Rattle.turn_cell.specs.Sums.{times};
ghost use Rattle.shared_board.specs.Turns.{IsAmong, found_by, TakesPairOrSlot, ReturnsPair, ReturnsPairAndTakes};

use crate::shared::{BoardPass, SharedBoard};
use exchange_board::{Board, NextPair, PairSwept, Share};
use std::sync::Wait;

impl SharedBoard {
    ghost use Rattle.shared_board.specs.Shared.{lock_id, as_returned, HasFound, HasInHand, IsHolderOf};

    /// Takes two partners in one turn of the lock, for which it waits, where the board may hand out both;
    /// they are then in this seat's work. Else as `take`. Which slots is not promised.
    pub fn take_pair<R: Wait>(&self, rt: &R, pass: &mut BoardPass, share: Share) -> NextPair
        requires own { IsSeatOf (lock_id self.now) pass.old }
        requires free { (seat_view pass.old).holding ≡ false }
        ensures own { IsSeatOf (lock_id self.now) pass.new }
        ensures refused { (seat_view pass.old).refused ≤ (seat_view pass.new).refused }
        // but for the refusals, as one try that is not refused
        ensures taken { TakesPairOrSlot (with_refused (seat_view pass.old) (seat_view pass.new).refused) (seat_view pass.new) result }
    {
        let board = self.cell.take_turn(rt, pass);
        self.hand_out_pair(pass, board, share)
    }

    // The holder asks the board, stores the words of the slots that it gets, and gives the lock back.
    fn hand_out_pair(&self, pass: &mut BoardPass, mut board: Board, share: Share) -> NextPair
        requires own { IsSeatOf (lock_id self.now) pass.old }
        requires holder { IsHolderOf (seat_view pass.old) board }
        ensures own { IsSeatOf (lock_id self.now) pass.new }
        ensures refused { (seat_view pass.new).refused ≡ (seat_view pass.old).refused }
        ensures taken { (v : _) → HasInHand v (seat_view pass.old) board → TakesPairOrSlot v (seat_view pass.new) result }
        ensures found { found_by (seat_view pass.new) result ≡ (seat_view pass.old).known }
    {
        match board.next_pair(share) {
            NextPair::Pair(pair) => {
                self.store(pass, &board, pair.slot());
                self.store(pass, &board, pair.slot() + 1);
                self.cell.give_back(pass, board);
                NextPair::Pair(pair)
            }
            NextPair::Single(next) => NextPair::Single(self.end_hand_out(pass, board, next)),
        }
    }

    /// Hands two partners back that were swept and exchanged, each of which this seat has in work once, and
    /// then takes what `take_pair` would, all in one turn of the lock, for which it waits.
    pub fn settle_pair<R: Wait>(
        &self,
        rt: &R,
        pass: &mut BoardPass,
        swept: PairSwept,
        share: Share,
    ) -> NextPair
        requires own { IsSeatOf (lock_id self.now) pass.old }
        requires free { (seat_view pass.old).holding ≡ false }
        requires base { (seat_view pass.old).base ≡ Some swept.origin }
        requires work { IsAmong (swept.slot, swept.epoch) (seat_view pass.old).out × IsAmong (swept.slot + 1, swept.epoch) (seat_view pass.old).out }
        requires once { (times swept.slot (seat_view pass.old).out ≡ 1) × (times (swept.slot + 1) (seat_view pass.old).out ≡ 1) }
        ensures own { IsSeatOf (lock_id self.now) pass.new }
        ensures refused { (seat_view pass.old).refused ≤ (seat_view pass.new).refused }
        // but for the refusals, as one try that is not refused
        ensures turned { ReturnsPairAndTakes (with_refused (seat_view pass.old) (seat_view pass.new).refused) (seat_view pass.new) swept.slot swept.epoch result }
    {
        let board = self.cell.take_turn(rt, pass);
        let back = self.put_pair_back(pass, board, swept);
        self.hand_out_pair(pass, back, share)
    }

    // The holder hands the partners back to the board, stores their words, and holds the lock.
    fn put_pair_back(&self, pass: &mut BoardPass, mut board: Board, swept: PairSwept) -> Board
        requires own { IsSeatOf (lock_id self.now) pass.old }
        requires holder { IsHolderOf (seat_view pass.old) board }
        requires same { swept.origin ≡ board.origin }
        requires known { swept.slot + 1 < length board.places }
        requires low { progress (place_at board.places swept.slot) ≡ 4 * swept.epoch + 1 }
        requires high { progress (place_at board.places (swept.slot + 1)) ≡ 4 * swept.epoch + 1 }
        requires once { (times swept.slot (seat_view pass.old).out ≡ 1) × (times (swept.slot + 1) (seat_view pass.old).out ≡ 1) }
        ensures own { IsSeatOf (lock_id self.now) pass.new }
        ensures holder { IsHolderOf (seat_view pass.new) result }
        ensures refused { (seat_view pass.new).refused ≡ (seat_view pass.old).refused }
        // as a turn that ended here would
        ensures returned { (v : _) → HasFound v (seat_view pass.old) board → ReturnsPair v (after_return (seat_view pass.new)) swept.slot swept.epoch }
        // and as one that then began
        ensures found { (v : _) → HasFound v (seat_view pass.old) board → HasInHand (as_returned v (seat_view pass.new)) (seat_view pass.new) result }
    {
        let slot = swept.slot();
        board.arrive_pair(swept);
        self.store(pass, &board, slot);
        self.store(pass, &board, slot + 1);
        board
    }
}
