//! The lock.
ghost use Rattle.std.specs.Prelude.{◌≡◌, ◌<◌};

use crate::kept::Kept;
use crate::steps::Turns;
use crate::view::View;
use atomic_table::Table;
use std::alloc::Global;
use std::snapshot::Snapshot;

/// A lock that keeps one value, whose progress words lie beside it as atomic words.
#[derive(Drop)]
pub struct TurnCell<V: Kept> {
    // Word 0 is the turn, 0 free and 1 held; word 1 + i is progress word i. The one slot keeps the value.
    pub(crate) table: Table<Option<V>, View<V::Origin>, (Snapshot<V>, u32), Turns<V>, Global>,
    ghost sized: { (0 < table.shared.table_id.words) × (table.shared.table_id.slots ≡ 1) },
}
