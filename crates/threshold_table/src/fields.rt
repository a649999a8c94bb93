//! The fields of one record.

ghost use Rattle.std.specs.Prelude.{◌≡◌, ◌≤◌, ◌∷◌, ◌++◌, length, drop, option_map, OnOk};
ghost use Rattle.std.specs.List.{position_or_len};
ghost use Rattle.glass_edges.specs.Refusals.{first_found, refusal_of};
ghost use Rattle.threshold_table.specs.TableText.{is_comma, fields, field_refusal, record_values};
ghost use Rattle.threshold_table.specs.Pieces.{fields_left};

use crate::number::number_at;
use crate::refused::TableRefused;

// How many bytes stand before the first comma.
fn field_len(line: &[u8]) -> usize
    ensures { result ≡ position_or_len is_comma line.now }
{
    'bytes: for (i, b) in line.iter().enumerate() {
        if *b == b',' {
            return i;
        }
    }
    line.len()
}

// The first field, and what follows its comma, if it has one.
fn next_field(line: &[u8]) -> (&[u8], Option<&[u8]>)
    ensures { fields line.now ≡ result.0.now ∷ fields_left (option_map (λ left. left.now) result.1) }
{
    let end = field_len(line);
    if end < line.len() {
        (&line[..end], Some(&line[end + 1..]))
    } else {
        (line, None)
    }
}

/// The number of fields, one more than there are commas.
pub(crate) fn field_count(line: &[u8]) -> usize
    ensures { result ≡ length (fields line.now) }
{
    let mut commas = 0;
    'bytes: for b in line {
        if *b == b',' {
            commas += 1;
        }
    }
    commas + 1
}

/// Writes the numbers of record `at` to the front of `out`, or answers the first refusal of its
/// fields.
pub(crate) fn numbers(at: u64, line: &[u8], out: &mut [u64]) -> Result<(), TableRefused>
    requires { length (fields line.now) ≤ length out.old }
    ensures refused { refusal_of result ≡ first_found (field_refusal at) 0 (fields line.now) }
    ensures values { OnOk result (out.new ≡ record_values line.now ++ drop (length (fields line.now)) out.old) }
{
    let mut field = 0;
    let mut left = Some(line);
    'fields: while let Some(text) = left {
        let (first, others) = next_field(text);
        let n = number_at(at, field as u64, first)?;
        out[field] = n;
        field += 1;
        left = others;
    }
    Ok(())
}
