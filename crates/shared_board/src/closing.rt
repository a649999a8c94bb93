//! A shared board is closed, once all its seats are back.

ghost use Rattle.std.specs.Prelude.{◌≡◌, ◌<◌, Some, All, length};
ghost use Rattle.exchange_board.specs.Machine.{NoneOut};
ghost use Rattle.turn_cell.specs.Progress.{AtMost};
ghost use Rattle.turn_cell.specs.Seats.{seat_view, base_of, AreIdle};
ghost use Rattle.exchange_board.specs.Views.{words_of};

use crate::shared::{BoardPass, SharedBoard};
use exchange_board::Board;

impl SharedBoard {
    ghost use Rattle.shared_board.specs.Shared.{lock_id};

    /// The board of all workers, once they are done with it.
    ///
    /// Takes all seats that it was opened with, in any order, none of which holds the lock or has work. The board has their provenance, no slot in work, and no progress word below what any of
    /// them had seen. Takes no memory.
    pub fn close(self, passes: Vec<BoardPass>) -> Board
        requires some { 0 < length passes.items }
        requires idle { AreIdle (lock_id self) (base_of passes.items) (length passes.items) passes.items }
        ensures base { Some result.origin ≡ base_of passes.items }
        ensures home { NoneOut result.places }
        ensures seen { All (λ p. AtMost (seat_view p).seen (words_of result)) passes.items }
    {
        let SharedBoard { cell } = self;
        cell.close(passes)
    }
}
