//! The number in one field.

ghost use Rattle.std.specs.Prelude.{◌≡◌, ◌-◌, ◌≤◌, length, IfOk};
ghost use Rattle.std.specs.List.{prefix_len, suffix_len};
ghost use Rattle.glass_edges.specs.Refusals.{refusal_of};
ghost use Rattle.threshold_table.specs.TableText.{is_space, trimmed, field_refusal, field_value};

use crate::refused::TableRefused;
use glass_edges::{is_numeral, value_of};
use spin_model::CERTAIN;

fn spaces_in_front(field: &[u8]) -> usize
    ensures value { result ≡ prefix_len is_space field.now }
    ensures within { result ≤ length field.now }
{
    'bytes: for (i, b) in field.iter().enumerate() {
        if *b != b' ' {
            return i;
        }
    }
    field.len()
}

// Where the spaces at the end begin.
fn end_of(field: &[u8]) -> usize
    ensures value { result ≡ length field.now - suffix_len is_space field.now }
    ensures within { result ≤ length field.now }
{
    let mut end = field.len();
    'bytes: while end > 0 && field[end - 1] == b' ' {
        end -= 1;
    }
    end
}

#[tactic(auto, unfolding(crate::specs::TableText::trimmed))]
fn trimmed(field: &[u8]) -> &[u8]
    ensures { result.now ≡ trimmed field.now }
{
    let front = &field[spaces_in_front(field)..];
    &front[..end_of(front)]
}

/// The number in a field of record `at`, or the field's refusal.
#[tactic(auto, unfolding(crate::specs::TableText::field_refusal))]
pub(crate) fn number_at(at: u64, field: u64, text: &[u8]) -> Result<u64, TableRefused>
    ensures refused { refusal_of result ≡ field_refusal at field text.now }
    ensures value { IfOk result (λ n. n ≡ field_value text.now) }
{
    let digits = trimmed(text);
    if !is_numeral(10, digits) {
        return Err(TableRefused::Number { at, field });
    }
    let value = value_of(digits);
    if value > CERTAIN {
        return Err(TableRefused::TooGreat { at, field, value });
    }
    Ok(value)
}
