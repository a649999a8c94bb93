//! Each two of four copies.

ghost use Rattle.std.specs.Prelude.{◌≡◌, ◌<◌};
ghost use Rattle.copies_report.specs.States.{pair_at, replica_among};

use plane_sweep::{Duo, Replica};

/// How many pairs there are.
pub(crate) const PAIRS: usize = 6;

/// Two of the four copies.
#[derive(Clone, Copy)]
pub(crate) struct Pair {
    pub(crate) one: u32,
    pub(crate) other: u32,
}

/// The pairs in their order.
pub(crate) fn pair_at(number: usize) -> Pair
    requires { number < PAIRS }
    ensures one { result.one ≡ (pair_at number).one }
    ensures other { result.other ≡ (pair_at number).other }
    ensures first { result.one < 4 }
    ensures second { result.other < 4 }
{
    match number {
        0 => Pair { one: 0, other: 1 },
        1 => Pair { one: 0, other: 2 },
        2 => Pair { one: 0, other: 3 },
        3 => Pair { one: 1, other: 2 },
        4 => Pair { one: 1, other: 3 },
        _ => Pair { one: 2, other: 3 },
    }
}

/// A copy of a slot: 0 and 1 are the replicas of the first state, 2 and 3 those of the second.
pub(crate) fn replica_among<'a>(first: &'a Duo, second: &'a Duo, copy: u32) -> &'a Replica
    ensures { result.now ≡ replica_among first.now second.now copy }
{
    match copy {
        0 => &first.first,
        1 => &first.second,
        2 => &second.first,
        _ => &second.second,
    }
}
