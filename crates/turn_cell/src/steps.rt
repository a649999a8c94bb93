//! The invariant of the table, and the names of its atomic steps. These types are for the proofs alone.
ghost use Rattle.std.specs.Prelude.{length};
ghost use Rattle.turn_cell.specs.Progress.{first_view, spent_view};
ghost use Rattle.turn_cell.specs.LockRule.{LockRule};
ghost use Rattle.turn_cell.specs.AtomicSteps.{Tries, Stores, GivesBack, kept_part, given_part, after_join};

use crate::kept::Kept;
use crate::view::View;
use atomic_table::{Join, Play, Split, TableRule};
use std::marker::PhantomData;
use std::snapshot::Snapshot;

/// The lock's invariant. The key is the first value and the number of seats.
pub struct Turns<V> {
    marker: PhantomData<V>,
}

impl<V: Kept> TableRule<Option<V>, View<V::Origin>, (Snapshot<V>, u32)> for Turns<V> {
    ghost holds = { λ key. LockRule V.origin V.marks };

    ghost first = { λ key. first_view (V.origin key.0.value) (length (V.marks key.0.value)) key.1 };
}

/// A try to take the lock: it is taken, or the try is refused.
pub struct Try<V> {
    marker: PhantomData<V>,
}

impl<V: Kept> Play<Option<V>, View<V::Origin>> for Try<V> {
    ghost then = { Tries V.origin V.marks };
}

/// The store of a progress word: a hand-out, a hand-back, or the partner's.
pub struct Mark<V> {
    marker: PhantomData<V>,
}

impl<V: Kept> Play<Option<V>, View<V::Origin>> for Mark<V> {
    ghost then = { Stores V.origin V.marks };
}

/// The lock given back.
pub struct Give<V> {
    marker: PhantomData<V>,
}

impl<V: Kept> Play<Option<V>, View<V::Origin>> for Give<V> {
    ghost then = { GivesBack V.origin V.marks };
}

/// A seat gives its first number to a new seat.
pub struct Part;

impl<O> Split<View<O>> for Part {
    ghost left = { kept_part };

    ghost right = { given_part };
}

/// A seat gives all that it has to another.
pub struct Whole;

impl<O> Join<View<O>> for Whole {
    ghost both = { after_join };

    ghost spent = { spent_view };
}
