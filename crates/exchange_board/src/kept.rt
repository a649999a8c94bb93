//! A board can be kept by a lock: its progress numbers are the lock's words.

ghost use Rattle.exchange_board.specs.Views.{words_of};

use crate::board::Board;
use crate::origin::Origin;
use turn_cell::Kept;

impl Kept for Board {
    type Origin = Origin;

    ghost origin = { λ b. b.origin };

    ghost marks = { λ b. words_of b };
}
