//! What a seat of the lock knows.
use std::collections::LinkedList;

/// A seat's knowledge, for contracts alone: no value of it is ever made, so its counts have no end.
pub struct View<O> {
    /// The seat's own number.
    pub number: u32,
    /// The provenance of the lock's value; none once the seat was joined to another.
    pub base: Option<O>,
    /// Whether the seat holds the lock.
    pub holding: bool,
    /// The progress words, while it holds the lock.
    pub known: LinkedList<u64>,
    /// The items that it has in work: place and epoch.
    pub out: LinkedList<(u32, u64)>,
    /// The progress words as it last left them, or as the seats left them that were joined to it.
    pub seen: LinkedList<u64>,
    /// How often it has taken the lock.
    pub turns: u64,
    /// How many of its tries were refused.
    pub refused: u64,
    /// The numbers of the seats that it stands for.
    pub numbers: LinkedList<u32>,
    /// How many seats the lock was opened with.
    pub total: u32,
    /// How many progress words there are.
    pub places: usize,
}
