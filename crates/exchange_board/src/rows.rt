//! The places of a slot's records at an epoch.

ghost use Rattle.std.specs.Prelude.{◌≡◌, ℕ, ◌+◌, ◌*◌, ◌<◌, ◌≤◌, true, length};
ghost use Rattle.spin_model.specs.Limits.{most_rows};
ghost use Rattle.plane_sweep.specs.Packed.{part_slot, FitsDuo};
ghost use Rattle.scalar_rule.specs.Epoch as model;
ghost use Rattle.scalar_rule.specs.Records as records_model;
ghost use Rattle.exchange_board.specs.Content.{slots_in, floor_in, record_at, row_total, IsLawfulOrigin};
ghost use Rattle.exchange_board.specs.Meeting.{AreRowsOf, RowsAfter, RecordsAfter};
ghost use Rattle.slot_steps.specs.Totals.{AreTotals};

use crate::measured::{measure, record_of};
use crate::origin::Origin;
use plain_list::Items;
use plane_sweep::Duo;
use scalar_rule::{Plan, Record, is_recorded, recorded_epochs};
use slot_steps::Totals;

/// A record of zeros.
pub(crate) const NO_RECORD: Record = Record {
    first_energy: 0,
    second_energy: 0,
    overlap: 0,
    first_replica: 0,
    second_replica: 0,
};

/// Where the records of a slot at a recorded epoch go: `at` is the number of recorded epochs before it, times
/// the samples.
#[derive(Clone, Copy)]
pub(crate) struct Rows {
    pub(crate) at: usize,
    pub(crate) samples: u32,
    pub(crate) slots: usize,
    pub(crate) slot: usize,
}

impl Rows {
    /// Where the record of a sample goes: in order of epoch, sample and slot.
    pub(crate) fn place(&self, sample: u32) -> usize
        requires sample { sample < self.now.samples }
        requires slot { self.now.slot < self.now.slots }
        requires few { (self.now.at + self.now.samples) * self.now.slots ≤ most_rows }
        ensures { result ≡ (self.now.at + sample) * self.now.slots + self.now.slot }
    {
        (self.at + sample as usize) * self.slots + self.slot
    }
}

/// The places of the records of a slot at a recorded epoch.
pub(crate) fn rows_of(origin: &Origin, slot: u32, epoch: u64) -> Rows
    requires lawful { IsLawfulOrigin origin.now }
    requires slot { slot < slots_in origin.now }
    requires from { floor_in origin.now ≤ epoch }
    requires below { epoch < origin.now.window.until }
    requires recorded { records_model.is_recorded origin.now.window.every epoch ≡ true }
    ensures rows { AreRowsOf origin.now slot epoch result }
    ensures room { (result.at + result.samples) * result.slots ≤ row_total origin.now }
{
    let before = recorded_epochs(origin.window.every, origin.base.floor(), epoch);
    Rows {
        at: before as usize * origin.window.samples as usize,
        samples: origin.window.samples,
        slots: origin.base.slots.len(),
        slot: slot as usize,
    }
}

/// A slot at an epoch.
#[derive(Clone, Copy)]
pub(crate) struct SlotEpoch {
    pub(crate) slot: u32,
    pub(crate) epoch: u64,
}

/// Writes the records of a slot in all samples, where they are wanted.
pub(crate) fn fill_page(
    page: &mut [Record; 64],
    duo: &Duo,
    totals: &Totals,
    plan: &Plan,
    is_wanted: bool,
)
    requires duo { FitsDuo plan.now.size duo.now }
    requires totals { AreTotals plan.now duo.now totals.now }
    ensures { is_wanted ≡ true → (b : ℕ) → b < 64 → record_at page.new b ≡ model.record_of plan.now b (part_slot plan.now.size b duo.now) }
{
    if is_wanted {
        make_page(page, duo, totals, plan);
    }
}

// Writes the records of a slot in all samples. Out of line, since its room is cleared when it is called.
#[inline(never)]
fn make_page(page: &mut [Record; 64], duo: &Duo, totals: &Totals, plan: &Plan)
    requires duo { FitsDuo plan.now.size duo.now }
    requires totals { AreTotals plan.now duo.now totals.now }
    ensures { (b : ℕ) → b < 64 → record_at page.new b ≡ model.record_of plan.now b (part_slot plan.now.size b duo.now) }
{
    let measured = measure(duo, totals, plan);
    'samples: for b in 0..64u32 {
        page[b as usize] = record_of(duo, &measured, plan, b);
    }
}

// The record of a sample.
#[inline]
fn record_in(made: &[Record; 64], sample: u32) -> Record
    requires { sample < 64 }
    ensures { result ≡ record_at made.now sample }
{
    made[sample as usize]
}

// The records of a slot that are made go to their places.
fn put_rows(records: &mut Items<Record>, made: &[Record; 64], rows: &Rows)
    requires samples { rows.now.samples ≤ 64 }
    requires slot { rows.now.slot < rows.now.slots }
    requires few { length records.old ≤ most_rows }
    requires room { (rows.now.at + rows.now.samples) * rows.now.slots ≤ length records.old }
    ensures { RowsAfter rows.now (λ i. record_at made.now i) records.old records.new }
{
    'samples: for i in 0..rows.samples {
        *records.at_mut(rows.place(i)) = record_in(made, i);
    }
}

/// Writes the records of a slot that are made, where its epoch is recorded.
pub(crate) fn put_records(
    records: &mut Items<Record>,
    made: &[Record; 64],
    origin: &Origin,
    at: SlotEpoch,
)
    requires lawful { IsLawfulOrigin origin.now }
    requires slot { at.slot < slots_in origin.now }
    requires from { floor_in origin.now ≤ at.epoch }
    requires below { at.epoch < origin.now.window.until }
    requires sized { length records.old ≡ row_total origin.now }
    ensures { RecordsAfter origin.now at.slot at.epoch (λ i. record_at made.now i) records.old records.new }
{
    // Where the rows are is found by divisions and a look at all places, and other workers wait meanwhile.
    let every = origin.window.every;
    if is_recorded(every, at.epoch) {
        let rows = rows_of(origin, at.slot, at.epoch);
        put_rows(records, made, &rows);
    }
}
