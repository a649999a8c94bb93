//! Spins as hexadecimal digits.

ghost use Rattle.std.specs.Prelude.{◌≡◌, ◌+◌, ◌*◌, ◌<◌, ◌≤◌};
ghost use Rattle.scalar_rule.specs.SpinDigits.{hex_digit as digit_of};
ghost use Rattle.spin_model.specs.Words.{one_if};

/// The digit of four spins, the first in the highest bit, 1 for +1.
pub fn spin_digit(first: bool, second: bool, third: bool, fourth: bool) -> u8
    ensures { result ≡
        digit_of (8 * one_if first + 4 * one_if second + 2 * one_if third + one_if fourth) }
{
    let high = bit(first, 8) + bit(second, 4);
    let low = bit(third, 2) + bit(fourth, 1);
    hex_digit(high + low)
}

// The digit of a number below 16.
fn hex_digit(n: u8) -> u8
    requires { n < 16 }
    ensures { result ≡ digit_of n }
{
    if n < 10 { b'0' + n } else { b'a' + (n - 10) }
}

// A bit of a digit.
fn bit(up: bool, worth: u8) -> u8
    requires { worth ≤ 8 }
    ensures value { result ≡ worth * one_if up }
    ensures within { result ≤ worth }
{
    if up { worth } else { 0 }
}
