//! The reading of a report, line by line.

ghost use Rattle.std.specs.Prelude.{◌≡◌, ◌+◌, ◌<◌, ◌≤◌, ◌++◌, List, length, [], take, ◌^◌, IsTrue, IsFalse, true, false, Some, IfSome, IfNone, IfOk, IfErr};
ghost use Rattle.sample_average.specs.LawfulReport.{IsLawfulHeader, IsReading, IsWrongAt};
ghost use Rattle.sample_average.specs.Following as following;
ghost use Rattle.sample_average.specs.LineReading.{header_at};
ghost use Rattle.sample_average.specs.declared.row.Row.{Row as RowValue};

use crate::header::Header;
use crate::header_line::header_at;
use crate::next_line::next_line;
use crate::place::Place;
use crate::row::Row;
use spin_model::{LAST_EPOCH, MOST_SAMPLES, MOST_SLOTS, is_lawful_size};

/// The header of a report and the number of its rows.
#[derive(Clone, Copy, Debug, PartialEq, Eq)]
pub(crate) struct Scanned {
    pub(crate) header: Header,
    pub(crate) rows: usize,
}

// Whether every number of the header is lawful.
fn is_lawful(header: &Header) -> bool
    ensures { result ≡ following.is_lawful header.now }
{
    is_lawful_size(header.size as u64)
        && header.slots >= 1
        && header.slots <= MOST_SLOTS
        && header.samples >= 1
        && header.samples <= MOST_SAMPLES
        && header.from <= header.to
        && header.to <= LAST_EPOCH
}

// Whether a report may end at this place.
fn may_end(header: &Header, place: Place) -> bool
    requires { IsLawfulHeader header.now }
    ensures { result ≡ following.may_end header.now place }
{
    match place {
        Place::Spins { replica } => { replica == 0 || replica == 2 * header.samples * header.slots }
        Place::Between { .. } | Place::Inside { .. } => false,
    }
}

// Whether the report ends at this place, and nothing follows.
fn ends_here(header: &Header, place: Place, rest: &[u8]) -> bool
    requires { IsLawfulHeader header.now }
    ensures whole { IsTrue result → (rest.now ≡ []) × (following.may_end header.now place ≡ true) }
    ensures part { IsFalse result → rest.now ≡ [] → following.may_end header.now place ≡ false }
{
    rest.is_empty() && may_end(header, place)
}

// Puts a row, if there is one, behind so many others where there is a place for it. Answers how
// many rows there are then.
fn keep(out: &mut [Row], count: usize, row: Option<Row>) -> usize
    requires { count < 2 ^ 63 }
    ensures count { result ≡ count + length (following.row_then row []) }
    ensures sized { length out.new ≡ length out.old }
    ensures kept { (seen : List RowValue) → length seen ≡ count → (count ≤ length out.old → take count out.old ≡ seen)
        → result ≤ length out.old → take result out.new ≡ seen ++ following.row_then row [] }
{
    let Some(row) = row else {
        return count;
    };
    if count < out.len() {
        out[count] = row;
    }
    count + 1
}

// The lawful header that the bytes begin with, and what follows it.
fn header_of(bytes: &[u8]) -> Option<(Header, &[u8])>
    ensures lawful { IfSome result (λ x. IsLawfulHeader x.0) }
    ensures found { IfSome result (λ x. header_at bytes.now ≡ Some (x.0, x.1.now)) }
    ensures shorter { IfSome result (λ x. 1 + length x.1.now ≤ length bytes.now) }
    ensures wrong { IfNone result (IsWrongAt bytes.now 0) }
{
    let Some((header, rest)) = header_at(bytes) else {
        return None;
    };
    if is_lawful(&header) {
        Some((header, rest))
    } else {
        None
    }
}

// Reads the lines behind the header, and answers how many rows there are.
fn scan_lines(header: &Header, bytes: &[u8], behind: &[u8], out: &mut [Row]) -> Result<usize, u64>
    requires lawful { IsLawfulHeader header.now }
    requires header { header_at bytes.now ≡ Some (header.now, behind.now) }
    requires shorter { 1 + length behind.now ≤ length bytes.now }
    ensures found { IfOk result (λ count. (rows : List RowValue) × IsReading bytes.now header.now rows
        × (length rows ≡ count) × (count ≤ length out.old → take count out.new ≡ rows)) }
    ensures few { IfOk result (λ count. count ≤ length bytes.now) }
    ensures wrong { IfErr result (IsWrongAt bytes.now) }
    ensures sized { length out.new ≡ length out.old }
{
    let mut place = Place::Between { least: header.from };
    let mut rest = behind;
    let mut line = 1u64;
    let mut rows = 0usize;
    'lines: while let Some((step, after)) = next_line(header, place, rest) {
        rows = keep(out, rows, step.row);
        place = step.place;
        rest = after;
        line += 1;
    }
    if ends_here(header, place, rest) {
        Ok(rows)
    } else {
        Err(line)
    }
}

/// Reads a report. Its first rows go into `out`, as many as there are places. Takes no memory.
///
/// # Errors
///
/// The number of the first wrong line.
pub(crate) fn scan(bytes: &[u8], out: &mut [Row]) -> Result<Scanned, u64>
    ensures found { IfOk result (λ s. (rows : List RowValue) × IsReading bytes.now s.header rows
        × (length rows ≡ s.rows) × (s.rows ≤ length out.old → take s.rows out.new ≡ rows)) }
    ensures few { IfOk result (λ s. s.rows ≤ length bytes.now) }
    ensures lawful { IfOk result (λ s. IsLawfulHeader s.header) }
    ensures wrong { IfErr result (IsWrongAt bytes.now) }
    ensures sized { length out.new ≡ length out.old }
{
    let Some((header, behind)) = header_of(bytes) else {
        return Err(0);
    };
    let rows = scan_lines(&header, bytes, behind, out)?;
    Ok(Scanned { header, rows })
}
