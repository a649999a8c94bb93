//! The summary of a run whose plan is made from a number.

ghost use Rattle.std.specs.Prelude.{◌≡◌, ℕ, ◌+ℤ◌, ◌*◌, ◌<◌, ◌≤◌, ◌==◌, not, unsigned_abs, length, slice_index, flat_map};
ghost use Rattle.spin_model.specs.Limits.{most_slots};
ghost use Rattle.glass_edges.specs.Causes.{HasCause};
ghost use Rattle.glass_edges.specs.Writes.{Writes};
ghost use Rattle.plane_sweep.specs.Uneven.{uneven_part};
ghost use Rattle.scalar_rule.specs.Plan.{slots_of};
ghost use Rattle.scalar_rule.specs.declared.sample.Sample as samples;
ghost use Rattle.spin_model.specs.SignedSums.{sum_of};
ghost use Rattle.spin_model.specs.Steps.{table, count_below};
ghost use Rattle.spin_model.specs.Words.{one_if};
ghost use Rattle.glass_engine.specs.BankRuns.{runs_of};
ghost use Rattle.glass_engine.specs.RecordPieces.{piece};
ghost use Rattle.glass_engine.specs.Summary as text;

use crate::done::Done;
use crate::laws::level_run_is_serial;
use glass_edges::{Fault, Sink};
use plane_sweep::RaggedStand;
use report_text::{end, slot_line, summary_header};
use scalar_rule::{Plan, Record};

/// The disorder samples of a word.
const SAMPLES: usize = 64;

/// Puts the summary of a run of 64 samples from epoch 0, whose plan was made from the number `n`: for
/// each slot the sum over the samples of both replicas' energies in the last epoch, in units of the
/// coupling, and the number of samples whose first replica began in another slot. Takes no memory.
///
/// # Errors
///
/// Where the output failed; it has then taken a prefix of the summary.
pub fn write_summary<O: Sink>(done: &Done, plan: &Plan, n: u64, out: &mut O) -> Result<(), Fault>
    requires { (start : ℕ → samples.Sample) × (e : ℕ) × text.IsSummed plan.now start e (runs_of done.now) }
    ensures written { (start : ℕ → samples.Sample) (e : ℕ) → text.IsSummed plan.now start e (runs_of done.now)
        → Writes O.Sink out.old out.new (text.summary n plan.now start e) result }
    ensures cause { HasCause (O.faults out.old) (O.faults out.new) result }
{
    level_run_is_serial();
    let banks = done.banks();
    let ended = banks[0].ended();
    let records = ended.records();
    let last = records.len() - SAMPLES * plan.slots() as usize;
    let until = ended.origin().window.until;
    put_summary(out, n, plan, ended.stand(), &records[last..], until)
}

// Puts a summary, from the records of the last epoch.
#[tactic(auto, unfolding(crate::specs::Summary::summary_text))]
fn put_summary<O: Sink>(
    out: &mut O,
    n: u64,
    plan: &Plan,
    stand: &RaggedStand,
    records: &[Record],
    until: u64,
) -> Result<(), Fault>
    requires slots { length stand.now.slots ≡ slots_of plan.now }
    requires records { length records.now ≡ 64 * slots_of plan.now }
    ensures { Writes O.Sink out.old out.new
        (text.summary_text n plan.now (λ b. piece records.now (slots_of plan.now) b)
        (λ b. (uneven_part plan.now.size b stand.now).slots) until) result }
{
    summary_header(out, n, plan, SAMPLES as u32, until)?;
    put_slots(out, plan, stand, records)?;
    end(out, until)
}

// Puts the lines of the slots.
fn put_slots<O: Sink>(
    out: &mut O,
    plan: &Plan,
    stand: &RaggedStand,
    records: &[Record],
) -> Result<(), Fault>
    requires slots { length stand.now.slots ≡ slots_of plan.now }
    requires records { length records.now ≡ 64 * slots_of plan.now }
    ensures { Writes O.Sink out.old out.new
        (flat_map (text.slot_sums (λ b. piece records.now (slots_of plan.now) b)
        (λ b. (uneven_part plan.now.size b stand.now).slots)) (table (λ t. t) (slots_of plan.now))) result }
{
    let slots = plan.slots() as usize;
    'slots: for slot in 0..slots {
        let energy = slot_energy(records, slots, slot);
        let away = away_count(&stand.slots.at(slot).first.labels, slot as u32);
        slot_line(out, slot as u32, energy, away)?;
    }
    Ok(())
}

// The energies of a slot, summed over the samples and both replicas.
fn slot_energy(records: &[Record], slots: usize, slot: usize) -> i64
    requires records { length records.now ≡ 64 * slots }
    requires slot { slot < slots }
    requires few { slots ≤ most_slots }
    ensures { result ≡ sum_of (λ b. text.both_energies (piece records.now slots b) slot) 64 }
{
    let mut sum = 0;
    'samples: for b in 0..SAMPLES {
        sum += both_energies(&records[b * slots + slot]);
    }
    sum
}

// The energies of both replicas.
fn both_energies(values: &Record) -> i64
    ensures value { result ≡ values.now.first_energy +ℤ values.now.second_energy }
    ensures few { unsigned_abs result ≤ 4294967296 }
{
    values.first_energy as i64 + values.second_energy as i64
}

// In how many samples a replica in this slot began in another one.
fn away_count(labels: &[u8; SAMPLES], slot: u32) -> u32
    ensures { result ≡ count_below (λ b. not (slice_index labels.now b == slot)) 64 }
{
    let mut away = 0;
    'samples: for b in 0..SAMPLES {
        away += is_away(labels[b], slot);
    }
    away
}

// 1 where a label is not the slot's number.
fn is_away(label: u8, slot: u32) -> u32
    ensures value { result ≡ one_if (not (label == slot)) }
    ensures few { result ≤ 1 }
{
    if label as u32 == slot { 0 } else { 1 }
}
