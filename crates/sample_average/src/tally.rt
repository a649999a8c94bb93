//! Tables of sums by temperature slot and block of samples.

ghost use Rattle.std.specs.Prelude.{◌≡◌, ◌+◌, ◌*◌, ◌<◌, ◌≤◌, length};
ghost use Rattle.std.specs.List.{AllByRecursion};
ghost use Rattle.sample_average.specs.LawfulReport.{IsLawfulHeader};
ghost use Rattle.sample_average.specs.ReadReport.{most_report_bytes};
ghost use Rattle.sample_average.specs.Tallies.{cell_of, IsRowOfReport, Tallies, AllNone};

use crate::header::Header;
use crate::row::Row;
use crate::sums::Sums;

// Where a table of so many blocks a slot has the sums of a row's slot and block.
fn cell_of(header: &Header, blocks: u32, row: &Row) -> usize
    requires header { IsLawfulHeader header.now }
    requires some { 0 < blocks }
    requires few { blocks ≤ header.now.samples }
    requires row { IsRowOfReport header.now row.now }
    ensures value { result ≡ cell_of header.now.samples blocks row.now }
    ensures within { result < header.now.slots * blocks }
{
    (row.slot * blocks + row.sample * blocks / header.samples) as usize
}

/// Adds each row to the sums of its slot and block, in a table that begins with the sums of no row.
pub(crate) fn tally(header: &Header, blocks: u32, rows: &[Row], table: &mut [Sums])
    requires header { IsLawfulHeader header.now }
    requires some { 0 < blocks }
    requires few { blocks ≤ header.now.samples }
    requires rows { AllByRecursion (IsRowOfReport header.now) rows.now }
    requires short { length rows.now ≤ most_report_bytes }
    requires sized { length table.old ≡ header.now.slots * blocks }
    requires empty { AllNone table.old }
    ensures sized { length table.new ≡ length table.old }
    ensures told { Tallies header.now.samples blocks table.new rows.now }
{
    'rows: for row in rows {
        let cell = cell_of(header, blocks, row);
        let sums = table[cell].with(row);
        table[cell] = sums;
    }
}
