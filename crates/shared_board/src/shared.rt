//! The board of all workers, and their seats.

use exchange_board::Board;
use turn_cell::{Pass, TurnCell};

/// A worker's seat at a shared board. It has no bytes.
///
/// A seat that is dropped is lost: the board can't be closed without it.
pub type BoardPass = Pass<Board>;

/// A board that workers share. Each hand-out and each hand-back is one turn of its lock.
#[derive(Drop)]
pub struct SharedBoard {
    pub(crate) cell: TurnCell<Board>,
}
