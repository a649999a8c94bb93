//! A board is put under a lock, with its seats.

ghost use Rattle.std.specs.Prelude.{◌≡◌, ◌<◌, ◌≤◌, length, IfOk, vec_len};
ghost use Rattle.exchange_board.specs.Machine.{NoneOut, IsPhased};
ghost use Rattle.turn_cell.specs.Seats.{AreOpened};
ghost use Rattle.exchange_board.specs.Views.{words_of};

use crate::shared::{BoardPass, SharedBoard};
use exchange_board::Board;
use glass_edges::NoMemory;
use std::alloc::Global;
use turn_cell::TurnCell;

// The progress words of a board.
fn words(alloc: Global, board: &Board) -> Result<Vec<u64>, NoMemory>
    ensures words { IfOk result (λ words. words.items ≡ words_of board.now) }
    ensures phased { IfOk result (λ words. IsPhased board.now.places) }
{
    let slots = board.slots();
    let mut words = Vec::with_capacity(alloc, slots as usize)?;
    'words: for slot in 0..slots {
        words.push(board.progress(slot))?;
    }
    Ok(words)
}

impl SharedBoard {
    ghost use Rattle.shared_board.specs.Shared.{lock_id};

    /// A board of which no slot is in work, under a lock, and its 1 to 64 seats.
    ///
    /// The seats have the numbers 0, 1, 2 and on, in this order, and the board's provenance; none holds
    /// the lock, has seen a word or has work. Where memory is refused the board is dropped.
    pub fn open(
        alloc: Global,
        board: Board,
        passes: u32,
    ) -> Result<(SharedBoard, Vec<BoardPass>), NoMemory>
        requires home { NoneOut board.places }
        requires seats { (0 < passes) × (passes ≤ 64) }
        ensures count { IfOk result (λ c. vec_len c.1 ≡ passes) }
        ensures opened { IfOk result (λ c. AreOpened (lock_id c.0) board.origin (length board.places) passes 0 c.1.items) }
    {
        let words = words(alloc, &board)?;
        let (cell, seats) = TurnCell::open(alloc, board, words.as_slice(), passes)?;
        Ok((SharedBoard { cell }, seats))
    }
}
