//! Words of the command line, and the numbers that some of them write.

ghost use Rattle.std.specs.Prelude.{◌≡◌, ◌≤◌, ◌^◌, length, true, option_map, IfSome, IfNone};
ghost use Rattle.std.specs.Char.{is_ascii_digit};
ghost use Rattle.std.specs.List.{list_all};
ghost use Rattle.glass_edges.specs.Decimal.{value_of};
ghost use Rattle.command_words.specs.Words as model;
ghost use Rattle.command_words.specs.Words.{texts};

use glass_edges::{is_file_name, is_numeral};

/// Word `k`, counted from 0; empty where there is none.
pub(crate) fn word_at(words: &[String], k: usize) -> &str
    ensures { result.now ≡ model.word_at (texts words.now) k }
{
    match words.get(k) {
        Some(word) => word.as_str(),
        None => "",
    }
}

/// A word that can name a file and is no option.
pub(crate) fn name_word(word: &str) -> Option<&str>
    ensures { option_map (λ name. name.now) result ≡ model.name_word word.now }
{
    if is_file_name(word) && !word.starts_with("--") {
        Some(word)
    } else {
        None
    }
}

/// The value of a word of one to twenty decimal digits that lies from `low` to `high`.
pub(crate) fn number_word(text: &str, low: u64, high: u64) -> Option<u64>
    ensures { result ≡ model.number_word low high text.now }
{
    if !is_numeral(20, text.as_bytes()) {
        return None;
    }
    let value = value_of(text)?;
    if low <= value && value <= high {
        Some(value)
    } else {
        None
    }
}

// The value of decimal digits, where it is below 2^64.
fn value_of(digits: &str) -> Option<u64>
    requires some { 1 ≤ length digits.now }
    requires digits { list_all is_ascii_digit digits.now ≡ true }
    ensures value { IfSome result (λ value. value ≡ value_of digits.now) }
    ensures great { IfNone result (2 ^ 64 ≤ value_of digits.now) }
{
    digits.parse().ok()
}
