//! A report as it is read: tested first, then kept.

ghost use Rattle.std.specs.Prelude.{◌≡◌, ◌*◌, ◌<◌, ◌≤◌, List, length, IfOk, IfErr};
ghost use Rattle.glass_edges.specs.Refusals.{Gives};
ghost use Rattle.sample_average.specs.Averages.{IsRefusal};
ghost use Rattle.sample_average.specs.LawfulReport.{IsLawfulHeader, IsReading};
ghost use Rattle.sample_average.specs.ReadReport.{averages_in, most_report_bytes};
ghost use Rattle.sample_average.specs.Tallies.{Tallies};
ghost use Rattle.sample_average.specs.declared.row.Row.{Row as RowValue};

use crate::averages::Averages;
use crate::header::Header;
use crate::refused::ReportRefused;
use crate::row::Row;
use crate::scan::{Scanned, scan};
use crate::sums::Sums;
use crate::tally::tally;
use plain_list::Items;
use std::alloc::Global;

/// The most bytes of a report that is read.
pub const MOST_REPORT_BYTES: u64 = 67108864;

/// Reads a report of at most `MOST_REPORT_BYTES` bytes and takes its sums, in this many blocks of its samples.
/// All memory is taken here, and only after the report is tested.
///
/// # Errors
///
/// Line exactly where the bytes are not a lawful report, with its first wrong line. Blocks exactly
/// where the report is lawful and has fewer samples than blocks. NoMemory only where the report is
/// lawful and has samples enough.
#[tactic(auto, using(crate::proofs::ReadReports::gives_averages))]
pub fn read_report(alloc: Global, bytes: &[u8], blocks: u32) -> Result<Averages, ReportRefused>
    requires limit { length bytes.now ≤ most_report_bytes }
    requires some { 0 < blocks }
    ensures found { IfOk result (λ a. IsReading bytes.now a.header a.rows) }
    ensures blocks { IfOk result (λ a. a.blocks ≡ blocks) }
    ensures enough { IfOk result (λ a. blocks ≤ a.header.samples) }
    ensures refused { IfErr result (IsRefusal bytes.now blocks) }
    ensures gives { Gives ReportRefused.NoMemory (λ a. a) result (averages_in blocks bytes.now) }
{
    let found = test_report(bytes, blocks)?;
    let rows = rows_in(alloc, bytes, blocks, found)?;
    let totals = tallied(alloc, bytes, blocks, &found.header, 1, rows.as_slice())?;
    let parts = tallied(alloc, bytes, blocks, &found.header, blocks, rows.as_slice())?;
    Ok(Averages {
        header: found.header,
        rows,
        blocks,
        totals,
        parts,
    })
}

// Tests the report and the number of its samples. Takes no memory.
fn test_report(bytes: &[u8], blocks: u32) -> Result<Scanned, ReportRefused>
    ensures found { IfOk result (λ s. (rows : List RowValue) × IsReading bytes.now s.header rows × (length rows ≡ s.rows)) }
    ensures few { IfOk result (λ s. s.rows ≤ length bytes.now) }
    ensures lawful { IfOk result (λ s. IsLawfulHeader s.header) }
    ensures enough { IfOk result (λ s. blocks ≤ s.header.samples) }
    ensures refused { IfErr result (IsRefusal bytes.now blocks) }
{
    match scan(bytes, &mut []) {
        Err(line) => Err(ReportRefused::Line { line }),
        Ok(found) => {
            let samples = found.header.samples;
            if blocks > samples {
                return Err(ReportRefused::Blocks { blocks, samples });
            }
            Ok(found)
        }
    }
}

// The rows of a report that was tested.
fn rows_in(
    alloc: Global,
    bytes: &[u8],
    blocks: u32,
    found: Scanned,
) -> Result<Items<Row>, ReportRefused>
    requires found { (rows : List RowValue) × IsReading bytes.now found.header rows × (length rows ≡ found.rows) }
    requires enough { blocks ≤ found.header.samples }
    ensures rows { IfOk result (IsReading bytes.now found.header) }
    ensures count { IfOk result (λ rows. length rows ≡ found.rows) }
    ensures refused { IfErr result (IsRefusal bytes.now blocks) }
{
    let mut rows = vec![in alloc; Row::blank(); found.rows]?;
    match scan(bytes, rows.as_mut_slice()) {
        Err(line) => Err(ReportRefused::Line { line }),
        Ok(_) => Ok(Items::of(rows)),
    }
}

// The sums of each slot and of this many parts of its samples.
fn tallied(
    alloc: Global,
    bytes: &[u8],
    blocks: u32,
    header: &Header,
    count: u32,
    rows: &[Row],
) -> Result<Items<Sums>, ReportRefused>
    requires found { IsReading bytes.now header.now rows.now }
    requires enough { blocks ≤ header.now.samples }
    requires lawful { IsLawfulHeader header.now }
    requires some { 0 < count }
    requires few { count ≤ header.now.samples }
    requires short { length rows.now ≤ most_report_bytes }
    ensures told { IfOk result (λ table. Tallies header.now.samples count table rows.now) }
    ensures sized { IfOk result (λ table. length table ≡ header.now.slots * count) }
    ensures refused { IfErr result (IsRefusal bytes.now blocks) }
{
    let mut table = vec![in alloc; Sums::none(); header.slots as usize * count as usize]?;
    tally(header, count, rows, table.as_mut_slice());
    Ok(Items::of(table))
}
