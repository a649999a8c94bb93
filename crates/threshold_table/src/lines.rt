//! The bytes of a table cut into its records, one after the other.

ghost use Rattle.std.specs.Prelude.{◌≡◌, ◌<◌, length, option_map, IfSome};
ghost use Rattle.std.specs.List.{list_all, position_or_len};
ghost use Rattle.threshold_table.specs.TableText.{without_mark, is_line_end, is_lawful, records};
ghost use Rattle.threshold_table.specs.Pieces.{with_line, records_left};

/// The text without the byte order mark that it may begin with.
#[tactic(auto, unfolding(crate::specs::TableText::without_mark))]
pub(crate) fn text_of(bytes: &[u8]) -> &[u8]
    ensures { result.now ≡ without_mark bytes.now }
{
    if bytes.len() >= 3 && bytes[0] == 239 && bytes[1] == 187 && bytes[2] == 191 {
        &bytes[3..]
    } else {
        bytes
    }
}

/// Whether each byte may stand in a table.
pub(crate) fn is_lawful_text(text: &[u8]) -> bool
    ensures { result ≡ list_all is_lawful text.now }
{
    text.iter().all(|b| is_lawful(*b))
}

fn is_lawful(b: u8) -> bool
    ensures { result ≡ is_lawful b }
{
    is_line_end(b) || (b >= b' ' && b <= b'~' && b != b'"')
}

fn is_line_end(b: u8) -> bool
    ensures { result ≡ is_line_end b }
{
    b == b'\n' || b == b'\r'
}

// How many bytes stand before the first end of a line.
fn line_len(text: &[u8]) -> usize
    ensures { result ≡ position_or_len is_line_end text.now }
{
    'bytes: for (i, b) in text.iter().enumerate() {
        if is_line_end(*b) {
            return i;
        }
    }
    text.len()
}

// The first line, and what follows its end.
fn next_line(text: &[u8]) -> (&[u8], &[u8])
    ensures found { records text.now ≡ with_line result.0.now (records result.1.now) }
    ensures shorter { 0 < length text.now → length result.1.now < length text.now }
{
    let end = line_len(text);
    if end < text.len() {
        (&text[..end], &text[end + 1..])
    } else {
        (text, &[])
    }
}

/// The first record and the text after its line, if there is a record.
pub(crate) fn next_record(text: &[u8]) -> Option<(&[u8], &[u8])>
    ensures found { records text.now ≡ records_left (option_map (λ x. (x.0.now, x.1.now)) result) }
    ensures shorter { IfSome result (λ x. length x.1.now < length text.now) }
{
    let mut rest = text;
    'lines: while !rest.is_empty() {
        let (line, after) = next_line(rest);
        if !line.is_empty() {
            return Some((line, after));
        }
        rest = after;
    }
    None
}
