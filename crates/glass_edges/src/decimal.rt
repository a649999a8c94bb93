//! Whole numbers written in decimal digits.

ghost use Rattle.std.specs.Prelude.{◌≡◌, ◌≤◌, length, true};
ghost use Rattle.std.specs.Char.{is_ascii_digit};
ghost use Rattle.std.specs.List.{list_all};
ghost use Rattle.glass_edges.specs.Decimal as model;

/// Whether the text is a number of one to `most` decimal digits. Leading zeros are digits too.
pub fn is_numeral(most: usize, text: &[u8]) -> bool
    ensures { result ≡ model.is_numeral most text.now }
{
    1 <= text.len() && text.len() <= most && has_digits_alone(text)
}

fn has_digits_alone(text: &[u8]) -> bool
    ensures { result ≡ list_all is_ascii_digit text.now }
{
    text.iter().all(|b| b.is_ascii_digit())
}

/// The value of at most ten decimal digits.
pub fn value_of(digits: &[u8]) -> u64
    requires short { length digits.now ≤ 10 }
    requires digits { list_all is_ascii_digit digits.now ≡ true }
    ensures { result ≡ model.value_of digits.now }
{
    let mut value = 0u64;
    'digits: for b in digits {
        value = value * 10 + (*b - b'0') as u64;
    }
    value
}
