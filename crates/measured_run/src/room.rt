//! Room for what is left of a bank at its end.

ghost use Rattle.std.specs.Prelude.{◌≡◌, ◌<◌, ◌≤◌, [], ◌∷◌, ◌++◌, vec_len, vec_capacity};

use plain_list::Items;
use plane_sums::SlotSums;
use plane_sweep::{Duo, Place};
use scalar_rule::Record;

/// Room for the replicas of a bank's slots and for their sums, and the places of slots at rest at the last epoch.
#[derive(Drop)]
pub(crate) struct EndRoom {
    pub(crate) duos: Vec<Duo>,
    pub(crate) sums: Vec<SlotSums>,
    pub(crate) places: Items<Place>,
    pub(crate) pending: Items<Record>,
}

/// Adds an item to a list that has room for it.
pub(crate) fn put<T: Drop>(list: &mut Vec<T>, item: T)
    requires { vec_len list.old < vec_capacity list.old }
    ensures items { list.new.items ≡ list.old.items ++ item ∷ [] }
    ensures room { vec_capacity list.old ≤ vec_capacity list.new }
{
    let _ = list.push(item);
}
