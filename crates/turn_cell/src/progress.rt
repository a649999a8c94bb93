//! The holder of the lock stores progress words.
ghost use Rattle.std.specs.Prelude.{◌≡◌, true};
ghost use Rattle.turn_cell.specs.AtomicSteps.{IsLawfulStore, IsStored};
ghost use Rattle.turn_cell.specs.Seats.{cell_id, seat_view, IsSeatOf};

use crate::cell::TurnCell;
use crate::kept::Kept;
use crate::pass::Pass;
use crate::steps::Mark;

impl<V: Kept> TurnCell<V> {
    /// Stores the progress word of a place, by one atomic step, while the seat holds the lock.
    ///
    /// A word 4e becomes 4e + 1, and the item (place, e) is then in this seat's work. A word 4e + 1
    /// whose item this seat has in work becomes 4e + 2 or 4e + 4, and the item leaves. A word 4e + 2
    /// becomes 4e + 4.
    pub fn store_mark(&self, pass: &mut Pass<V>, place: u32, mark: u64)
        requires own { IsSeatOf (cell_id self.now) pass.old }
        requires held { (seat_view pass.old).holding ≡ true }
        requires lawful { IsLawfulStore (seat_view pass.old) place mark }
        ensures own { IsSeatOf (cell_id self.now) pass.new }
        ensures stored { IsStored (seat_view pass.old) place mark (seat_view pass.new) }
    {
        let shared = &self.table.shared;
        shared.store::<Mark<V>>(&mut pass.seat, place as usize + 1, mark);
    }
}
