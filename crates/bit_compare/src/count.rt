//! How many of six bits are set.

ghost use Rattle.std.specs.Prelude.{◌≡◌, ℕ};
ghost use Rattle.multispin_word.specs.Planes.{number};
ghost use Rattle.bit_compare.specs.Counting.{count_of};

use crate::addition::full_adder;
use multispin_word::Planes;

/// A line of full adders: the low and the high bit of each sum of three.
macro_rules! adders {
    ($($low:ident, $high:ident = $a:expr, $b:expr, $c:expr;)*) => {
        $(let ($low, $high) = full_adder($a, $b, $c);)*
    };
}

/// How many of the six bits of each sample are set, 0 to 6.
#[inline]
pub fn count6(six: &[u64; 6]) -> Planes<3>
    ensures { (k : ℕ) → number result.words k ≡ count_of six.now k }
{
    adders! {
        front, front_twos = six[0], six[1], six[2];
        back, back_twos = six[3], six[4], six[5];
        ones, carry = front, back, 0;
        twos, fours = front_twos, back_twos, carry;
    }
    Planes {
        words: [ones, twos, fours],
    }
}
