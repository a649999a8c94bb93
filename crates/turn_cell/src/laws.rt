//! What the lock's invariant says, as laws. These functions do nothing: each contract is a law.
ghost use Rattle.turn_cell.specs.Laws.{HolderKnowsMost, ItemsAreInWork, WorkHasOneSeat, NumbersHaveOneSeat};

use crate::kept::Kept;

/// In each state that keeps the invariant, no word that the holder of the lock knows is below what
/// any seat has seen.
pub fn known_words_are_not_below_seen_words<V: Kept>()
    ensures { HolderKnowsMost V.origin V.marks }
{}

/// In each state that keeps the invariant, each item (place, e) in a seat's work has the word
/// 4e + 1, and each word of phase 1 has exactly one item, in exactly one seat's work.
pub fn each_item_in_work_has_one_seat<V: Kept>()
    ensures word { ItemsAreInWork V.origin V.marks }
    ensures one { WorkHasOneSeat V.origin V.marks }
{}

/// In each state that keeps the invariant, each seat's number below the total stands with exactly
/// one seat.
pub fn each_number_has_one_seat<V: Kept>()
    ensures { NumbersHaveOneSeat V.origin V.marks }
{}
