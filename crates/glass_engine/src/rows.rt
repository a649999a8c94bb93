//! The rows of a run, in order of epoch, sample and slot over all its banks.

ghost use Rattle.std.specs.Prelude.{◌≡◌, ◌+◌, ◌*◌, ◌/◌, ◌^◌, ◌<◌, ◌≤◌, ◌++◌, [], if◌then◌else◌, length, take, drop, slice_index_or, true, IfOk};
ghost use Rattle.glass_edges.specs.Writes.{WritesFront};
ghost use Rattle.spin_model.specs.Limits.{last_epoch, most_slots};
ghost use Rattle.scalar_rule.specs.Records.{is_recorded};
ghost use Rattle.glass_engine.specs.BankRuns.{run_measured};
ghost use Rattle.glass_engine.specs.RecordPieces.{AreRunRows, AreRowsFrom, HaveNext};
ghost use Rattle.glass_engine.specs.Report as text;
ghost use Rattle.glass_engine.specs.RowLaws.{rows-empty, rows-joined};

use crate::done::BankDone;
use glass_edges::{Fault, Line, Sink};
use report_sheets::RowSource;
use report_text::add_row;
use run_plan::Orders;
use scalar_rule::{Plan, Record, is_recorded, recorded_epochs};

/// The rows of banks that were driven, between two epochs: the plan of the first bank, the orders of the
/// whole, the number of slots, and the epoch to which the run was to go.
#[derive(Clone, Copy)]
pub(crate) struct RunRows<'a> {
    pub(crate) driven: &'a [BankDone],
    pub(crate) plan: &'a Plan,
    pub(crate) orders: Orders,
    pub(crate) slots: usize,
    pub(crate) from: u64,
    pub(crate) to: u64,
    pub(crate) until: u64,
}

impl RowSource for RunRows<'_> {
    ghost ready = { AreRunRows };

    ghost text = { λ r. text.rows_in_order (run_measured r.driven.now) r.orders.samples r.orders.every };

    ghost begin = { λ r. r.from };

    ghost end = { λ r. r.to };

    fn first(&self) -> u64 {
        self.from
    }

    fn last(&self) -> u64 {
        self.to
    }

    fn epochs_of(&self, rows: u64) -> u64 {
        epochs_of(rows, self.orders.every, self.orders.samples, self.slots)
    }

    fn add<O: Sink>(&self, out: &mut O, line: &mut Line, from: u64, to: u64) -> Result<(), Fault> {
        add_rows(out, line, self, from, to)
    }

    ghost empty = { λ r e. rows-empty (run_measured r.driven.now) r.orders.samples r.orders.every e };

    ghost joined = { λ r a b c from to. rows-joined (run_measured r.driven.now) r.orders.samples r.orders.every a b c from to };
}

// For how many epochs, at least one, room for so many rows is mostly enough. Speed alone depends on it.
fn epochs_of(rows: u64, every: u64, samples: u32, slots: usize) -> u64
    requires every { 1 ≤ every }
    requires slots { slots ≤ most_slots }
    ensures { 1 ≤ result }
{
    let each = (samples as u64 * slots as u64).max(1);
    every.saturating_mul((rows / each).max(1))
}

// How many epochs before an epoch were recorded.
fn recorded_before(rows: &RunRows, epoch: u64) -> usize
    requires ready { AreRunRows rows.now }
    requires from { rows.now.from ≤ epoch }
    requires to { epoch ≤ rows.now.to }
    ensures { AreRowsFrom rows.now.driven.now rows.now.orders rows.now.slots epoch rows.now.to result }
{
    recorded_epochs(rows.orders.every, rows.from, epoch) as usize
}

// Adds the rows between two epochs behind a text that is still to be put.
fn add_rows<O: Sink>(
    out: &mut O,
    line: &mut Line,
    rows: &RunRows,
    from: u64,
    to: u64,
) -> Result<(), Fault>
    requires ready { AreRunRows rows.now }
    requires begin { rows.now.from ≤ from }
    requires window { from ≤ to }
    requires end { to ≤ rows.now.to }
    ensures { WritesFront O.Sink out.old out.new (line.old
        ++ text.rows_in_order (run_measured rows.now.driven.now) rows.now.orders.samples rows.now.orders.every
        from to) line.new result }
{
    let mut passed = recorded_before(rows, from);
    'epochs: for epoch in from..to {
        let count = add_recorded(out, line, rows, epoch, passed)?;
        passed += count;
    }
    Ok(())
}

// Adds the rows of an epoch if it is recorded, before which so many were, and answers how many more
// there are behind it.
fn add_recorded<O: Sink>(
    out: &mut O,
    line: &mut Line,
    rows: &RunRows,
    epoch: u64,
    passed: usize,
) -> Result<usize, Fault>
    requires { HaveNext rows.now.driven.now rows.now.orders rows.now.slots epoch passed }
    ensures count { IfOk result (λ count. count ≡ (if is_recorded rows.now.orders.every epoch then 1 else 0)) }
    ensures written { WritesFront O.Sink out.old out.new (line.old
        ++ (if is_recorded rows.now.orders.every epoch
        then text.epoch_rows (run_measured rows.now.driven.now) rows.now.orders.samples epoch
        else [])) line.new result }
{
    if !is_recorded(rows.orders.every, epoch) {
        return Ok(0);
    }
    add_epoch(out, line, rows, epoch, passed)?;
    Ok(1)
}

// Adds the rows of a recorded epoch, before which so many were recorded.
fn add_epoch<O: Sink>(
    out: &mut O,
    line: &mut Line,
    rows: &RunRows,
    epoch: u64,
    passed: usize,
) -> Result<(), Fault>
    requires next { HaveNext rows.now.driven.now rows.now.orders rows.now.slots epoch passed }
    requires recorded { is_recorded rows.now.orders.every epoch ≡ true }
    ensures { WritesFront O.Sink out.old out.new (line.old
        ++ text.epoch_rows (run_measured rows.now.driven.now) rows.now.orders.samples epoch) line.new result }
{
    'samples: for b in 0..rows.orders.samples {
        let bank = bank_with(rows.driven, b);
        let records = sample_records(bank, rows.slots, passed, b as usize % 64);
        add_sample(out, line, epoch, b, records)?;
    }
    Ok(())
}

/// The bank that a sample is in.
pub(crate) fn bank_with(driven: &[BankDone], sample: u32) -> &BankDone
    requires { sample / 64 < length driven.now }
    ensures { result.now ≡ slice_index_or driven.now (sample / 64) result.now }
{
    &driven[sample as usize / 64]
}

// The records of a bit of a bank in a recorded epoch, before which so many were recorded.
fn sample_records(bank: &BankDone, slots: usize, passed: usize, bit: usize) -> &[Record]
    requires short { passed ≤ last_epoch }
    requires few_slots { slots ≤ most_slots }
    requires few_bits { bit < 64 }
    requires within { (passed * bank.now.run.orders.samples + bit) * slots + slots ≤ length bank.now.ended.records }
    ensures { result.now ≡ take slots
        (drop ((passed * bank.now.run.orders.samples + bit) * slots) bank.now.ended.records) }
{
    let at = (passed * bank.orders.samples as usize + bit) * slots;
    &bank.ended.records()[at..at + slots]
}

// Adds the rows of one sample at one epoch.
fn add_sample<O: Sink>(
    out: &mut O,
    line: &mut Line,
    epoch: u64,
    sample: u32,
    records: &[Record],
) -> Result<(), Fault>
    requires { length records.now < 2 ^ 32 }
    ensures { WritesFront O.Sink out.old out.new
        (line.old ++ text.sample_rows epoch sample records.now) line.new result }
{
    'slots: for slot in 0..records.len() {
        add_row(out, line, epoch, sample, slot as u32, &records[slot])?;
    }
    Ok(())
}
