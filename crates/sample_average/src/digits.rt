//! The fields of a line, each with the bytes that follow it.

ghost use Rattle.std.specs.Prelude.{◌≡◌, ◌<◌, ◌≤◌, ◌^◌, option_map, length, IfSome};
ghost use Rattle.sample_average.specs.LineReading as reading;

use glass_edges::value_of;

/// What follows this text, where the bytes begin with it.
pub(crate) fn after<'a>(text: &[u8], bytes: &'a [u8]) -> Option<&'a [u8]>
    ensures { option_map (λ rest. rest.now) result ≡ reading.after text.now bytes.now }
{
    if bytes.len() >= text.len() && &bytes[..text.len()] == text {
        Some(&bytes[text.len()..])
    } else {
        None
    }
}

// How many digits the bytes begin with.
fn digits_in(bytes: &[u8]) -> usize
    ensures value { result ≡ reading.digits_in bytes.now }
    ensures within { result ≤ length bytes.now }
{
    'bytes: for (i, b) in bytes.iter().enumerate() {
        if !b.is_ascii_digit() {
            return i;
        }
    }
    bytes.len()
}

// Whether so many digits are a number below 10^10 as it is printed.
fn is_plain(bytes: &[u8], count: usize) -> bool
    requires { count ≤ length bytes.now }
    ensures { result ≡ reading.is_plain bytes.now count }
{
    1 <= count && count <= 10 && (count == 1 || bytes[0] != b'0')
}

/// The number that the bytes begin with, of at most `most`, followed by the byte `end`.
#[tactic(auto, unfolding(crate::specs::LineReading::number_at))]
pub(crate) fn number_at(most: u64, end: u8, bytes: &[u8]) -> Option<(u64, &[u8])>
    ensures value { option_map (λ x. (x.0, x.1.now)) result ≡ reading.number_at most end bytes.now }
    ensures within { IfSome result (λ x. x.0 ≤ most) }
{
    let count = digits_in(bytes);
    if !is_plain(bytes, count) || count == bytes.len() || bytes[count] != end {
        return None;
    }
    let value = value_of(&bytes[..count]);
    if value > most {
        return None;
    }
    Some((value, &bytes[count + 1..]))
}

/// The number with a sign that the bytes begin with, of at most `most` on both sides of 0, followed
/// by the byte `end`.
#[tactic(auto, unfolding(crate::specs::LineReading::signed_at))]
pub(crate) fn signed_at(most: u64, end: u8, bytes: &[u8]) -> Option<(i32, &[u8])>
    requires { most < 2 ^ 31 }
    ensures { option_map (λ x. (x.0, x.1.now)) result ≡ reading.signed_at most end bytes.now }
{
    if bytes.is_empty() || bytes[0] != b'-' {
        let (size, rest) = number_at(most, end, bytes)?;
        return Some((size as i32, rest));
    }
    let (size, rest) = number_at(most, end, &bytes[1..])?;
    if size == 0 {
        return None;
    }
    Some((-(size as i32), rest))
}
