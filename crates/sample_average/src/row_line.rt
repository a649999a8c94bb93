//! One row of a report.

ghost use Rattle.std.specs.Prelude.{◌≡◌, option_map};
ghost use Rattle.sample_average.specs.LawfulReport.{IsLawfulHeader};
ghost use Rattle.sample_average.specs.LineReading as reading;

use crate::digits::{after, number_at, signed_at};
use crate::header::Header;
use crate::row::Row;

/// The row that the bytes begin with, of numbers that a report with this header may have, and what
/// follows it.
#[tactic(auto, unfolding(crate::specs::LineReading::row_at))]
pub(crate) fn row_at<'a>(header: &Header, bytes: &'a [u8]) -> Option<(Row, &'a [u8])>
    requires { IsLawfulHeader header.now }
    ensures { option_map (λ x. (x.0, x.1.now)) result ≡ reading.row_at header.now bytes.now }
{
    let sites = header.size as u64 * header.size as u64 * header.size as u64;
    let last = header.slots as u64 - 1;
    let rest = after(b"row,", bytes)?;
    let (epoch, rest) = number_at(header.to, b',', rest)?;
    let (sample, rest) = number_at(header.samples as u64, b',', rest)?;
    let (slot, rest) = number_at(header.slots as u64, b',', rest)?;
    let (first_energy, rest) = signed_at(3 * sites, b',', rest)?;
    let (second_energy, rest) = signed_at(3 * sites, b',', rest)?;
    let (overlap, rest) = signed_at(sites, b',', rest)?;
    let (first_replica, rest) = number_at(last, b',', rest)?;
    let (second_replica, rest) = number_at(last, b'\n', rest)?;
    let row = Row {
        epoch,
        sample: sample as u32,
        slot: slot as u32,
        first_energy,
        second_energy,
        overlap,
        first_replica: first_replica as u8,
        second_replica: second_replica as u8,
    };
    Some((row, rest))
}
