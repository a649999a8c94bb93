//! One line of a report behind its header.

ghost use Rattle.std.specs.Prelude.{◌≡◌, ◌+◌, ◌*◌, ◌<◌, ◌≤◌, ◌++◌, option_map, length};
ghost use Rattle.std.specs.List.{list_all};
ghost use Rattle.sample_average.specs.LawfulReport.{IsLawfulHeader, is_hex, pairs, spin_head};
ghost use Rattle.sample_average.specs.Following as following;

use crate::digits::after;
use crate::header::Header;
use crate::place::{Place, Step};
use crate::row::Row;
use crate::row_line::row_at;
use glass_edges::Line;

// The row of this pair that the bytes begin with.
fn row_of<'a>(header: &Header, pair: u32, bytes: &'a [u8]) -> Option<(Row, &'a [u8])>
    requires { IsLawfulHeader header.now }
    ensures { option_map (λ x. (x.0, x.1.now)) result ≡ following.row_of header.now pair bytes.now }
{
    let (row, rest) = row_at(header, bytes)?;
    if row.sample != pair / header.slots || row.slot != pair % header.slots {
        return None;
    }
    Some((row, rest))
}

// The place behind the row of this epoch and pair.
fn behind_row(header: &Header, epoch: u64, pair: u32) -> Place
    requires header { IsLawfulHeader header.now }
    requires epoch { epoch < header.now.to }
    requires pair { pair < pairs header.now }
    ensures { result ≡ following.behind_row header.now epoch pair }
{
    if pair + 1 == header.samples * header.slots {
        Place::Between { least: epoch + 1 }
    } else {
        Place::Inside {
            epoch,
            pair: pair + 1,
        }
    }
}

// The first row of a group, whose epoch is at least this one.
fn first_row<'a>(header: &Header, least: u64, bytes: &'a [u8]) -> Option<(Step, &'a [u8])>
    requires { IsLawfulHeader header.now }
    ensures { option_map (λ x. (x.0, x.1.now)) result ≡ following.first_row header.now least bytes.now }
{
    let (row, rest) = row_of(header, 0, bytes)?;
    if row.epoch < least || row.epoch >= header.to {
        return None;
    }
    let place = behind_row(header, row.epoch, 0);
    Some((
        Step {
            place,
            row: Some(row),
        },
        rest,
    ))
}

// The row of this epoch and pair.
fn next_row<'a>(header: &Header, epoch: u64, pair: u32, bytes: &'a [u8]) -> Option<(Step, &'a [u8])>
    requires header { IsLawfulHeader header.now }
    requires epoch { epoch < header.now.to }
    requires pair { pair < pairs header.now }
    ensures { option_map (λ x. (x.0, x.1.now)) result ≡ following.next_row header.now epoch pair bytes.now }
{
    let (row, rest) = row_of(header, pair, bytes)?;
    if row.epoch != epoch {
        return None;
    }
    let place = behind_row(header, epoch, pair);
    Some((
        Step {
            place,
            row: Some(row),
        },
        rest,
    ))
}

// The last line of the rows.
#[tactic(auto, unfolding(crate::specs::LawfulReport::end_line))]
fn end_at<'a>(header: &Header, bytes: &'a [u8]) -> Option<(Step, &'a [u8])>
    ensures { option_map (λ x. (x.0, x.1.now)) result ≡ following.end_at header.now bytes.now }
{
    let mut line = Line::new();
    line.add(b"end,");
    line.number(header.to);
    line.add(b"\n");
    let rest = after(line.as_slice(), bytes)?;
    let place = Place::Spins { replica: 0 };
    Some((Step { place, row: None }, rest))
}

// Adds what stands before the spins of a replica.
#[tactic(auto, unfolding(crate::specs::LawfulReport::spin_head))]
fn add_head(line: &mut Line, header: &Header, replica: u32)
    requires empty { length line.old ≤ 100 }
    requires header { IsLawfulHeader header.now }
    ensures { line.new ≡ line.old ++ spin_head header.now replica }
{
    line.add(b"spin,");
    line.number((replica / 2 / header.slots) as u64);
    line.add(b",");
    line.number((replica / 2 % header.slots) as u64);
    line.add(b",");
    line.number((replica % 2) as u64);
    line.add(b",");
}

fn is_hex(b: u8) -> bool
    ensures { result ≡ is_hex b }
{
    (b >= b'0' && b <= b'9') || (b >= b'a' && b <= b'f')
}

fn has_hex_alone(digits: &[u8]) -> bool
    ensures { result ≡ list_all is_hex digits.now }
{
    digits.iter().all(|b| is_hex(*b))
}

// What follows so many hexadecimal digits and a line feed.
fn digits_at(count: usize, bytes: &[u8]) -> Option<&[u8]>
    ensures { option_map (λ rest. rest.now) result ≡ following.digits_at count bytes.now }
{
    if count >= bytes.len() || bytes[count] != b'\n' || !has_hex_alone(&bytes[..count]) {
        return None;
    }
    Some(&bytes[count + 1..])
}

// The spins of this replica.
fn spins_at<'a>(header: &Header, replica: u32, bytes: &'a [u8]) -> Option<(Step, &'a [u8])>
    requires header { IsLawfulHeader header.now }
    requires replica { replica ≤ 2 * pairs header.now }
    ensures { option_map (λ x. (x.0, x.1.now)) result ≡ following.spins_at header.now replica bytes.now }
{
    if replica == 2 * header.samples * header.slots {
        return None;
    }
    let sites = header.size as usize * header.size as usize * header.size as usize;
    let mut line = Line::new();
    add_head(&mut line, header, replica);
    let rest = digits_at(sites / 4, after(line.as_slice(), bytes)?)?;
    let place = Place::Spins {
        replica: replica + 1,
    };
    Some((Step { place, row: None }, rest))
}

/// The line of this place that the bytes begin with, and what follows it.
#[tactic(auto, unfolding(crate::specs::Following::line_at))]
pub(crate) fn next_line<'a>(
    header: &Header,
    place: Place,
    bytes: &'a [u8],
) -> Option<(Step, &'a [u8])>
    requires header { IsLawfulHeader header.now }
    requires place { following.FitsPlace header.now place }
    ensures { option_map (λ x. (x.0, x.1.now)) result ≡ following.line_at header.now place bytes.now }
{
    match place {
        Place::Between { least } => {
            let row = first_row(header, least, bytes);
            if row.is_some() {
                return row;
            }
            end_at(header, bytes)
        }
        Place::Inside { epoch, pair } => next_row(header, epoch, pair, bytes),
        Place::Spins { replica } => spins_at(header, replica, bytes),
    }
}
