//! The first line of a report.

ghost use Rattle.std.specs.Prelude.{◌≡◌, option_map};
ghost use Rattle.sample_average.specs.LineReading as reading;

use crate::digits::{after, number_at};
use crate::header::{Header, Rule};
use spin_model::{LAST_EPOCH, MOST_SAMPLES, MOST_SLOTS};

// The word of the dynamics.
fn rule_at(bytes: &[u8]) -> Option<(Rule, &[u8])>
    ensures { option_map (λ x. (x.0, x.1.now)) result ≡ reading.rule_at bytes.now }
{
    if let Some(rest) = after(b"heat ", bytes) {
        return Some((Rule::Heat, rest));
    }
    let rest = after(b"metropolis ", bytes)?;
    Some((Rule::Metropolis, rest))
}

// The size, and the numbers of slots and samples.
#[tactic(auto, unfolding(crate::specs::LineReading::counts_at))]
fn counts_at(bytes: &[u8]) -> Option<((u32, u32, u32), &[u8])>
    ensures { option_map (λ x. (x.0, x.1.now)) result ≡ reading.counts_at bytes.now }
{
    let (size, rest) = number_at(64, b' ', after(b"glass 1 size=", bytes)?)?;
    let (slots, rest) = number_at(MOST_SLOTS as u64, b' ', after(b"slots=", rest)?)?;
    let (samples, rest) = number_at(MOST_SAMPLES as u64, b' ', after(b"samples=", rest)?)?;
    Some(((size as u32, slots as u32, samples as u32), rest))
}

// The dynamics, and the epochs from which and to which the run goes.
#[tactic(auto, unfolding(crate::specs::LineReading::span_at))]
fn span_at(bytes: &[u8]) -> Option<((Rule, u64, u64), &[u8])>
    ensures { option_map (λ x. (x.0, x.1.now)) result ≡ reading.span_at bytes.now }
{
    let (rule, rest) = rule_at(after(b"rule=", bytes)?)?;
    let (from, rest) = number_at(LAST_EPOCH, b' ', after(b"from=", rest)?)?;
    let (to, rest) = number_at(LAST_EPOCH, b'\n', after(b"to=", rest)?)?;
    Some(((rule, from, to), rest))
}

/// The numbers of the first line that the bytes begin with, and what follows it.
pub(crate) fn header_at(bytes: &[u8]) -> Option<(Header, &[u8])>
    ensures { option_map (λ x. (x.0, x.1.now)) result ≡ reading.header_at bytes.now }
{
    let ((size, slots, samples), rest) = counts_at(bytes)?;
    let ((rule, from, to), rest) = span_at(rest)?;
    let header = Header {
        size,
        slots,
        samples,
        rule,
        from,
        to,
    };
    Some((header, rest))
}
