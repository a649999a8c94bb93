//! The report of a run.

ghost use Rattle.std.specs.Prelude.{◌≡◌, ◌%◌, ◌&&◌, ◌==◌, length, All};
ghost use Rattle.glass_edges.specs.Writes.{Writes};
ghost use Rattle.plane_sweep.specs.Packed.{part_slot, FitsDuo};
ghost use Rattle.plane_sweep.specs.Uneven.{uneven_part};
ghost use Rattle.scalar_rule.specs.Plan.{slots_of};
ghost use Rattle.glass_engine.specs.BankRuns.{run_report, run_slots, runs_of, samples_in, AreAbreast};
ghost use Rattle.glass_engine.specs.RecordPieces.{parts_of, tail_of, AreRunRows, HaveSpins};
ghost use Rattle.glass_engine.specs.Report as text;

use crate::bank_opening::of_samples;
use crate::done::{BankDone, Done};
use crate::rows::{RunRows, bank_with};
use glass_edges::{Fault, Sink};
use lattice_geometry::Lattice;
use plane_sweep::{Duo, RaggedStand};
use report_sheets::{Sheets, put_rows_by};
use report_text::{end, header, spins};
use scalar_rule::Plan;
use spin_model::BANK_SAMPLES;
use std::thread::Threads;

/// Puts the one report of a run: the header with the number of all
/// samples, the rows in order of epoch, sample and slot as far as every slot came, the end, and where the
/// orders ask for them and the run came to its last epoch the last spins. The rows go by sheets, which
/// threads fill side by side where they can be started. Takes no memory.
///
/// # Errors
///
/// Where the output failed; it has then taken a prefix of the report.
pub fn print_report<R: Threads + Sync, O: Sink>(
    rt: &R,
    sheets: &mut Sheets,
    done: &Done,
    out: &mut O,
) -> Result<(), Fault>
    ensures { Writes O.Sink out.old out.new (run_report done.now) result }
{
    let rows = rows_of(done.banks());
    header(out, rows.plan, rows.orders.samples, rows.from, rows.to)?;
    put_rows_by(rt, sheets, out, &rows)?;
    put_tail(out, &rows)
}

// The rows of banks that were driven, as far as every slot came.
fn rows_of(driven: &[BankDone]) -> RunRows<'_>
    requires { AreAbreast driven.now }
    ensures ready { AreRunRows result }
    ensures spins { result.to ≡ result.until → HaveSpins result }
    ensures text { run_report driven.now ≡ parts_of result }
{
    let first = &driven[0];
    let plan = first.plan();
    RunRows {
        driven,
        plan,
        orders: of_samples(first.orders(), samples_of(driven)),
        slots: plan.slots() as usize,
        from: first.from(),
        to: first.to(),
        until: first.ended().origin().window.until,
    }
}

// How many samples banks print, of which all but the last print 64.
fn samples_of(driven: &[BankDone]) -> u32
    requires { AreAbreast driven.now }
    ensures { result ≡ samples_in (runs_of driven.now) }
{
    let behind = driven.len() - 1;
    BANK_SAMPLES * behind as u32 + driven[behind].orders().samples
}

// Puts what stands behind the rows.
fn put_tail<O: Sink>(out: &mut O, rows: &RunRows) -> Result<(), Fault>
    requires { rows.now.to ≡ rows.now.until → HaveSpins rows.now }
    ensures { Writes O.Sink out.old out.new (tail_of rows.now) result }
{
    end(out, rows.to)?;
    if prints(rows.orders.spins, rows.to, rows.until) {
        write_spins(out, rows)?;
    }
    Ok(())
}

// Whether the spins are printed.
fn prints(spins: bool, to: u64, until: u64) -> bool
    ensures { result ≡ (spins && to == until) }
{
    spins && to == until
}

// Puts the spins of the first samples of all banks.
fn write_spins<O: Sink>(out: &mut O, rows: &RunRows) -> Result<(), Fault>
    requires { HaveSpins rows.now }
    ensures { Writes O.Sink out.old out.new
        (text.all_spins rows.now.plan.now rows.now.orders.samples (run_slots rows.now.to rows.now.driven.now)) result }
{
    'samples: for b in 0..rows.orders.samples {
        let stand = bank_with(rows.driven, b).ended().stand();
        write_sample_spins(out, rows.plan, stand, b)?;
    }
    Ok(())
}

// Puts the spins of one sample, which is a bit of these states.
fn write_sample_spins<O: Sink>(
    out: &mut O,
    plan: &Plan,
    stand: &RaggedStand,
    sample: u32,
) -> Result<(), Fault>
    requires count { length stand.now.slots ≡ slots_of plan.now }
    requires fits { All (FitsDuo plan.now.size) stand.now.slots }
    ensures { Writes O.Sink out.old out.new
        (text.sample_spins plan.now sample (uneven_part plan.now.size (sample % 64) stand.now).slots) result }
{
    'slots: for slot in 0..plan.slots() {
        write_slot_spins(
            out,
            plan.lattice(),
            sample,
            slot,
            stand.slots.at(slot as usize),
        )?;
    }
    Ok(())
}

// Puts the spins of both replicas of one slot.
fn write_slot_spins<O: Sink>(
    out: &mut O,
    lattice: Lattice,
    sample: u32,
    slot: u32,
    duo: &Duo,
) -> Result<(), Fault>
    requires fits { FitsDuo lattice duo.now }
    ensures { Writes O.Sink out.old out.new
        (text.slot_spins lattice sample slot (part_slot lattice (sample % 64) duo.now)) result }
{
    spins(out, sample, slot, 0, &duo.first, lattice)?;
    spins(out, sample, slot, 1, &duo.second, lattice)
}
