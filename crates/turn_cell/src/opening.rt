//! How a lock is opened, with its seats.
ghost use Rattle.std.specs.Prelude.{◌≡◌, ℕ, ◌<◌, ◌≤◌, false, [], length, IfOk, vec_len, vec_capacity};
ghost use Rattle.turn_cell.specs.Progress.{AreAtHome, first_view};
ghost use Rattle.turn_cell.specs.AtomicSteps.{kept_part, given_part};
ghost use Rattle.turn_cell.specs.Seats.{cell_id, seat_view, IsSeatOf, AreOpened};

use crate::cell::TurnCell;
use crate::kept::Kept;
use crate::pass::Pass;
use crate::steps::Part;
use atomic_table::{Refused, Table};
use glass_edges::NoMemory;
use std::alloc::Global;
use std::snapshot::Snapshot;

impl<V: Kept> TurnCell<V> {
    /// A lock over the value, whose progress words these are, none in work; and its 1 to 64 seats.
    ///
    /// The seats have the numbers 0, 1, 2 and on, in this order, and the value's provenance; none
    /// holds the lock, has seen a word or has work. Where memory is refused the value is dropped.
    pub fn open(
        alloc: Global,
        value: V,
        marks: &[u64],
        passes: u32,
    ) -> Result<(TurnCell<V>, Vec<Pass<V>>), NoMemory>
        requires words { V.marks value ≡ marks.now }
        requires at_home { AreAtHome marks.now }
        requires seats { (0 < passes) × (passes ≤ 64) }
        ensures count { IfOk result (λ c. vec_len c.1 ≡ passes) }
        ensures opened { IfOk result (λ c.
            AreOpened (cell_id c.0) (V.origin value) (length marks.now) passes 0 c.1.items) }
    {
        let seats = Vec::with_capacity(alloc, passes as usize)?;
        let (cell, last) = made(alloc, value, marks, passes)?;
        let seats = cell.deal(seats, last, passes);
        Ok((cell, seats))
    }

    // Each of the seat's numbers goes to a seat of its own.
    fn deal(&self, mut seats: Vec<Pass<V>>, mut last: Pass<V>, passes: u32) -> Vec<Pass<V>>
        requires own { IsSeatOf (cell_id self.now) last }
        requires all { (base : _) × (places : ℕ) × (seat_view last ≡ first_view base places passes) }
        requires some { 0 < passes }
        requires room { (seats.items ≡ []) × (passes ≤ vec_capacity seats) }
        ensures count { vec_len result ≡ passes }
        ensures opened { (base : _) (places : ℕ) → seat_view last ≡ first_view base places passes
            → AreOpened (cell_id self.now) base places passes 0 result.items }
    {
        for _number in 1..passes {
            seats.push_reserved(self.split(&mut last));
        }
        seats.push_reserved(last);
        seats
    }

    // The first of the seat's numbers goes to a new seat.
    fn split(&self, pass: &mut Pass<V>) -> Pass<V>
        requires own { IsSeatOf (cell_id self.now) pass.old }
        requires free { (seat_view pass.old).holding ≡ false }
        requires two { 1 < length (seat_view pass.old).numbers }
        ensures own { IsSeatOf (cell_id self.now) pass.new × IsSeatOf (cell_id self.now) result }
        ensures kept { seat_view pass.new ≡ kept_part (seat_view pass.old) }
        ensures given { seat_view result ≡ given_part (seat_view pass.old) }
    {
        let seat = self.table.shared.split_seat::<Part>(&mut pass.seat);
        Pass { seat }
    }
}

// The lock, and one seat that stands for all.
fn made<V: Kept>(
    alloc: Global,
    value: V,
    marks: &[u64],
    passes: u32,
) -> Result<(TurnCell<V>, Pass<V>), NoMemory>
    requires words { V.marks value ≡ marks.now }
    requires at_home { AreAtHome marks.now }
    requires some { 0 < passes }
    ensures own { IfOk result (λ c. IsSeatOf (cell_id c.0) c.1) }
    ensures first { IfOk result (λ c. seat_view c.1 ≡ first_view (V.origin value) (length marks.now) passes) }
{
    let key = (Snapshot::of(&value), passes);
    let mut words = Vec::new(alloc);
    words.push(0)?;
    words.extend_from_slice(marks)?;
    let mut slots = Vec::with_capacity(alloc, 1)?;
    slots.push_reserved(Some(value));
    match Table::new(alloc, words.as_slice(), slots, &key) {
        Ok((table, seat)) => Ok((TurnCell { table }, Pass { seat })),
        // The slots come back here, and the value with them.
        Err(Refused { slots: _ }) => Err(NoMemory),
    }
}
