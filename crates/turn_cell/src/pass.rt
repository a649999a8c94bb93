//! The lock's seat of one worker.
use crate::kept::Kept;
use crate::view::View;
use atomic_table::Seat;

/// A worker's seat. It has no bytes.
///
/// A seat that is dropped is lost: the lock can't be closed without it.
#[derive(Drop)]
pub struct Pass<V: Kept> {
    pub(crate) seat: Seat<Option<V>, View<V::Origin>>,
}

/// The answer to one try.
pub enum Tried<V> {
    /// The lock is taken, and this is its value.
    Turn(V),
    /// Another seat held the lock.
    Busy,
}
