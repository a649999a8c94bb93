//! How rows go to an output: straight, or by sheets.

ghost use Rattle.std.specs.Prelude.{◌≡◌, ◌≤◌, false, length, All};
ghost use Rattle.glass_edges.specs.Writes.{Writes};
ghost use Rattle.report_sheets.specs.Views.{SheetView};

use crate::round::Pace;
use crate::sheet::Sheet;
use crate::sheets::Sheets;
use crate::source::RowSource;
use crate::turn::{Turn, fill_and_put};
use glass_edges::{Fault, Line, Sink};
use std::sync::atomic::{AtomicU64, Ordering};
use std::thread::Threads;

/// Puts all rows of a source, straight, one row behind the other. It takes no memory.
///
/// # Errors
///
/// Where the output failed; it has then taken a prefix of them.
pub fn put_rows<O: Sink, S: RowSource>(out: &mut O, rows: &S) -> Result<(), Fault>
    requires { S.ready rows.now }
    ensures { Writes O.Sink out.old out.new
        (S.text rows.now (S.begin rows.now) (S.end rows.now)) result }
{
    put_between(out, rows, rows.first(), rows.last())
}

/// Puts all rows of a source as `put_rows` does, but by sheets, half of which threads fill side by side while
/// the other half goes out, in rounds. The parts of a round go to the threads as they come for them. With fewer
/// than two sheets the rows go straight. It takes no memory.
///
/// # Errors
///
/// Where the output failed; it has then taken a prefix of the rows.
pub fn put_rows_by<R: Threads + Sync, O: Sink, S: RowSource + Sync>(
    rt: &R,
    sheets: &mut Sheets,
    out: &mut O,
    rows: &S,
) -> Result<(), Fault>
    requires { S.ready rows.now }
    ensures { Writes O.Sink out.old out.new
        (S.text rows.now (S.begin rows.now) (S.end rows.now)) result }
{
    let half = sheets.sheets.len() / 2;
    if half == 0 {
        return put_rows(out, rows);
    }
    let each = half.div_ceil(sheets.threads.max(1));
    let pace = Pace::of(rows.epochs_of(sheets.rows), half.div_ceil(2), rows.last());
    let taken = AtomicU64::new(0);
    let (front, back) = sheets.sheets.as_mut_slice().split_at_mut(half);
    forget_rows(front);
    forget_rows(back);
    let mut done = pace.empty(rows.first());
    'rounds: while done.first < pace.end {
        let next = pace.round(done.last);
        taken.store(0, Ordering::SeqCst);
        let turn = Turn {
            filled: back,
            done,
            next,
            taken: &taken,
            each,
        };
        fill_and_put(rt, rows, &turn, 0, out, front)?;
        done = pace.round(next.last);
        taken.store(0, Ordering::SeqCst);
        let turn = Turn {
            filled: front,
            done: next,
            next: done,
            taken: &taken,
            each,
        };
        fill_and_put(rt, rows, &turn, 0, out, back)?;
    }
    Ok(())
}

/// Puts the rows from one epoch to another, one row behind the other.
pub(crate) fn put_between<O: Sink, S: RowSource>(
    out: &mut O,
    rows: &S,
    from: u64,
    to: u64,
) -> Result<(), Fault>
    requires ready { S.ready rows.now }
    requires begin { S.begin rows.now ≤ from }
    requires window { from ≤ to }
    requires end { to ≤ S.end rows.now }
    ensures { Writes O.Sink out.old out.new (S.text rows.now from to) result }
{
    let mut line = Line::new();
    rows.add(out, &mut line, from, to)?;
    line.put(out)
}

// Whatever the sheets had, none of them gives a text before it is filled.
fn forget_rows(sheets: &mut [Sheet])
    ensures none { All (λ (s : SheetView). s.whole ≡ false) sheets.new }
    ensures count { length sheets.new ≡ length sheets.old }
{
    'sheets: for k in 0..sheets.len() {
        sheets[k].forget();
    }
}
