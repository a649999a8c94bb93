//! How much room the draws of a plane take.

ghost use Rattle.std.specs.Prelude.{◌≡◌, nat_le};

use spin_model::GREATEST_HALF_PLANE;

/// The most numbers that the sites of a colour in a plane draw, one each.
pub const PLANE_DRAWS: usize = GREATEST_HALF_PLANE;

/// The most numbers that the sites of a colour draw in a plane of each of two replicas.
pub const DUO_DRAWS: usize = 2 * GREATEST_HALF_PLANE;

/// The greatest size that takes a room of its own for draws: a room is cleared in each sweep.
const SMALL_SIZE: usize = 16;

/// The numbers that the sites of a colour in a plane draw at that size.
pub const SMALL_DRAWS: usize = 128;

/// Whether a lattice of this size takes the room of `SMALL_DRAWS`.
#[inline(always)]
pub fn is_small(size: usize) -> bool
    ensures { result ≡ nat_le size 16 }
{
    size <= SMALL_SIZE
}
