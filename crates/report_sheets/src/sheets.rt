//! The sheets of a report.

ghost use Rattle.std.specs.Prelude.{◌≡◌, ◌+◌, ◌*◌, ◌<◌, ◌≤◌};

use crate::sheet::Sheet;
use glass_edges::NoMemory;
use std::alloc::Global;

/// The rows that the parts of a round have together where several threads make them: a round starts its threads
/// anew.
const ROUND_ROWS: u64 = 131072;

/// The rows of a part where one thread makes them.
const PART_ROWS: u64 = 16384;

/// The most rows of an epoch for which a sheet has room: those of 256 samples in 32 slots.
const EPOCH_ROWS: u64 = 8192;

/// The bytes of room that a sheet has for a row; those of a run have fewer. Speed alone depends on it.
const ROW_ROOM: usize = 64;

/// How many sheets all threads together have in a half, as nearly as can be: so many that a thread waits for a small
/// part of the round at its end, and so few that each is worth its place in memory.
const HALF_SHEETS: usize = 64;

/// The fewest sheets of one of several threads in a half, so that it need not stop behind its first part.
const FEWEST_EACH: usize = 2;

/// The most sheets of one of several threads in a half.
const MOST_EACH: usize = 16;

/// The sheets of a report, and by how many threads they are to be filled. They have two halves: while the one goes
/// out, the other is filled. There are twice as many in a half as there are parts in a round, so that a thread that
/// gets on better than others makes more of the parts.
#[derive(Drop)]
pub struct Sheets {
    pub(crate) threads: usize,
    pub(crate) rows: u64,
    pub(crate) sheets: Vec<Sheet>,
}

/// How many sheets a thread has in each half, of so many threads.
fn sheets_each(threads: usize) -> usize
    ensures some { 1 ≤ result }
    ensures few { result ≤ MOST_EACH }
{
    if threads < 2 {
        return 1;
    }
    (HALF_SHEETS / threads).clamp(FEWEST_EACH, MOST_EACH)
}

/// How many rows the parts of a round have each at least, where there are as many and an epoch has no more.
fn part_rows(threads: usize) -> u64
    ensures { result ≤ ROUND_ROWS }
{
    if threads < 2 {
        return PART_ROWS;
    }
    let parts = (threads as u64).saturating_mul(sheets_each(threads) as u64) / 2;
    ROUND_ROWS / parts.max(1)
}

impl Sheets {
    /// The sheets by which 1 to 64 threads make a report of so many rows, where an epoch has so many of them. All
    /// their memory is taken here. Speed alone depends on these numbers.
    ///
    /// # Errors
    ///
    /// Refuses only for lack of memory.
    pub fn new(alloc: Global, threads: u32, rows: u64, an_epoch: u64) -> Result<Sheets, NoMemory>
        requires { threads ≤ 64 }
    {
        let threads = threads as usize;
        let part = part_rows(threads);
        let room = rows.min(part.max(an_epoch.min(EPOCH_ROWS))) as usize * ROW_ROOM;
        let count = 2 * threads * sheets_each(threads);
        let mut sheets = Vec::with_capacity(alloc, count)?;
        for _ in 0..count {
            sheets.push(Sheet::new(alloc, room)?)?;
        }
        Ok(Sheets {
            threads,
            rows: part,
            sheets,
        })
    }

    /// No sheets: the rows go straight.
    pub fn none(alloc: Global) -> Sheets {
        Sheets {
            threads: 1,
            rows: PART_ROWS,
            sheets: Vec::new(alloc),
        }
    }
}
