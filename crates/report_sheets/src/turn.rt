//! One round goes out while the next is filled.

ghost use Rattle.std.specs.Prelude.{◌≡◌, ◌<◌, ◌≤◌, All, length};
ghost use Rattle.glass_edges.specs.Writes.{Writes};
ghost use Rattle.std.specs.Thread.{IsSync};
ghost use Rattle.report_sheets.specs.Sheets.{HasItsRows, CanTurn};

use crate::round::Round;
use crate::sheet::Sheet;
use crate::source::RowSource;
use crate::writer::put_between;
use glass_edges::{Fault, Sink, put_all};
use std::sync::atomic::{AtomicU64, Ordering};
use std::thread::{self, Threads};

/// What happens side by side: the parts of one round, which are on sheets, go out, and those of the next round are
/// filled. A thread has so many sheets for these, and takes the next part of the round for each of them.
#[derive(Clone, Copy)]
pub(crate) struct Turn<'a> {
    pub(crate) filled: &'a [Sheet],
    pub(crate) done: Round,
    pub(crate) next: Round,
    pub(crate) taken: &'a AtomicU64,
    pub(crate) each: usize,
}

/// Puts the parts that are on sheets, and fills the parts of the next round into these sheets, by as many threads as
/// have sheets and parts. Each is started here, since a system may start a thread's own threads late. The caller
/// puts, and then fills too.
#[cycle(fills)]
pub(crate) fn fill_and_put<R: Threads + Sync, O: Sink, S: RowSource + Sync>(
    rt: &R,
    rows: &S,
    turn: &Turn,
    number: u64,
    out: &mut O,
    sheets: &mut [Sheet],
) -> Result<(), Fault>
    requires turn { CanTurn S.ready S.text S.begin S.end rows.now turn.now }
    requires held { All (HasItsRows (S.text rows.now)) sheets.old }
    ensures filled { All (HasItsRows (S.text rows.now)) sheets.new }
    ensures count { length sheets.new ≡ length sheets.old }
    ensures written { Writes O.Sink out.old out.new
        (S.text rows.now turn.now.done.first turn.now.done.last) result }
{
    // One thread less where there is no part for it.
    let next = number.saturating_add(1);
    if sheets.len() <= turn.each || turn.next.start(next) >= turn.next.last {
        turn.put(out, rows)?;
        fill_parts(rows, turn, sheets);
        return Ok(());
    }
    let (own, others) = sheets.split_at_mut(turn.each);
    fill_both(rt, rows, turn, next, out, own, others)
}

// Apart from `fill_and_put`, so that what the closures require is what this function is given.
#[cycle(fills)]
fn fill_both<R: Threads + Sync, O: Sink, S: RowSource + Sync>(
    rt: &R,
    rows: &S,
    turn: &Turn,
    next: u64,
    out: &mut O,
    own: &mut [Sheet],
    others: &mut [Sheet],
) -> Result<(), Fault>
    requires turn { CanTurn S.ready S.text S.begin S.end rows.now turn.now }
    requires own { All (HasItsRows (S.text rows.now)) own.old }
    requires others { All (HasItsRows (S.text rows.now)) others.old }
    requires some { 0 < length own.old }
    ensures own { All (HasItsRows (S.text rows.now)) own.new }
    ensures own_count { length own.new ≡ length own.old }
    ensures others { All (HasItsRows (S.text rows.now)) others.new }
    ensures others_count { length others.new ≡ length others.old }
    ensures written { Writes O.Sink out.old out.new
        (S.text rows.now turn.now.done.first turn.now.done.last) result }
{
    let (_, put) = thread::join_mut(
        rt,
        &mut ||
            requires { IsSync S.row × CanTurn S.ready S.text S.begin S.end rows.now turn.now
                × All (HasItsRows (S.text rows.now)) own.now }
            ensures { All (HasItsRows (S.text rows.entry.now)) own.exit.now
                × (length own.exit.now ≡ length own.entry.now) }
        { fill_parts(rows, turn, own) },
        &mut || -> Result<(), Fault>
            requires { IsSync R.row × IsSync S.row × CanTurn S.ready S.text S.begin S.end rows.now turn.now
                × All (HasItsRows (S.text rows.now)) others.now }
            ensures { All (HasItsRows (S.text rows.entry.now)) others.exit.now
                × (length others.exit.now ≡ length others.entry.now)
                × Writes O.Sink out.entry.now out.exit.now
                (S.text rows.entry.now turn.entry.now.done.first turn.entry.now.done.last) result }
        { fill_and_put(rt, rows, turn, next, out, others) },
    );
    put
}

// Takes parts of the next round, as long as there is one and a sheet for it, and fills the sheets with them. Which
// parts it takes, others doing so too, nobody says.
#[inline(never)]
fn fill_parts<S: RowSource>(rows: &S, turn: &Turn, sheets: &mut [Sheet])
    requires turn { CanTurn S.ready S.text S.begin S.end rows.now turn.now }
    requires held { All (HasItsRows (S.text rows.now)) sheets.old }
    ensures filled { All (HasItsRows (S.text rows.now)) sheets.new }
    ensures count { length sheets.new ≡ length sheets.old }
{
    'sheets: for k in 0..sheets.len() {
        let part = turn.taken.fetch_add(1, Ordering::SeqCst);
        let from = turn.next.start(part);
        if from >= turn.next.last {
            return;
        }
        let to = turn.next.start(part.saturating_add(1));
        sheets[k].fill(rows, from, to);
    }
}

impl Turn<'_> {
    // Puts the parts that are on sheets, in order.
    #[inline(never)]
    fn put<O: Sink, S: RowSource>(&self, out: &mut O, rows: &S) -> Result<(), Fault>
        requires turn { CanTurn S.ready S.text S.begin S.end rows.now self.now }
        ensures { Writes O.Sink out.old out.new
            (S.text rows.now self.now.done.first self.now.done.last) result }
    {
        'parts: for k in 0..self.filled.len() as u64 {
            let from = self.done.start(k);
            let to = self.done.start(k + 1);
            if from < to {
                put_part(out, self.filled, rows, from, to)?;
            }
        }
        Ok(())
    }
}

// Puts the rows from one epoch to another, from the sheet on which they are, or straight where they are on none.
fn put_part<O: Sink, S: RowSource>(
    out: &mut O,
    sheets: &[Sheet],
    rows: &S,
    from: u64,
    to: u64,
) -> Result<(), Fault>
    requires ready { S.ready rows.now }
    requires begin { S.begin rows.now ≤ from }
    requires window { from ≤ to }
    requires end { to ≤ S.end rows.now }
    requires filled { All (HasItsRows (S.text rows.now)) sheets.now }
    ensures { Writes O.Sink out.old out.new (S.text rows.now from to) result }
{
    'sheets: for k in 0..sheets.len() {
        if let Some(text) = sheets[k].text(from, to) {
            return put_all(out, text);
        }
    }
    put_between(out, rows, from, to)
}
