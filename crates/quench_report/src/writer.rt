//! The text, line by line.

ghost use Rattle.std.specs.Prelude.{◌≡◌, ℕ, ◌/◌, ◌%◌, ◌<◌, ◌≤◌, ◌++◌, length, flat_map, map};
ghost use Rattle.std.specs.Arc.{arc_value};
ghost use Rattle.glass_edges.specs.Writes.{Writes, WritesFront};
ghost use Rattle.measured_sums.specs.MeasuredSums.{Observed};
ghost use Rattle.measured_sums.specs.OverlapField.{Field};
ghost use Rattle.quenched_states.specs.KeptStates.{time_at};
ghost use Rattle.quenched_states.specs.QuenchText.{lines_between, pair_line, sample_lines, slot_lines, time_lines};
ghost use Rattle.quench_report.specs.Held.{of_earlier, of_sample, HasRoom, HoldBank, HoldKept, HoldPairs, HoldsBankOf, TellsKept};
ghost use Rattle.quench_report.specs.States.{heading_of, kept_fields, kept_seen, plan_among, states_text, AreKept, TextIsTheSamples};
ghost use Rattle.spin_model.specs.Steps.{table};

use crate::head::{QuenchHead, add_heading};
use crate::lines::{LinePlace, add_pair_line, add_state_line};
use crate::measuring::{KeptSums, QuenchRoom};
use glass_edges::{Fault, Line, Sink};
use plain_list::Items;
use plane_sweep::Stand;
use quenched_sums::PairSums;
use scalar_rule::Plan;
use std::alloc::Global;
use std::sync::Arc;

/// Puts the text of a quench: of each kept state but those that were held from the beginning what is printed
/// of it, and of it with each earlier one. The states are given by their times, and each bank by bank of 64
/// samples, as are the plans. Takes no memory; the states are as before at the end.
///
/// # Errors
///
/// Where the output failed; it has then taken a prefix of the text.
pub fn write_quench<O: Sink>(
    out: &mut O,
    head: &QuenchHead,
    plans: &[Arc<Plan, Global>],
    states: &mut [Items<Stand>],
    room: &mut QuenchRoom,
) -> Result<(), Fault>
    requires rule { length head.now.rule.now ≤ 64 }
    requires held { head.now.held ≤ length head.now.times.now }
    requires kept { AreKept (heading_of head.now) (map arc_value plans.now) states.old }
    requires room { HasRoom head.now.slots (length head.now.times.now) room.old }
    ensures text { Writes O.Sink out.old out.new
        (states_text (heading_of head.now) (map arc_value plans.now) states.old) result }
    ensures states { states.new ≡ states.old }
{
    let mut line = Line::new();
    add_heading(&mut line, head);
    let quench = Quench { head, plans };
    add_states(out, &mut line, &quench, states, room)?;
    line.extend(out, b"end\n")?;
    line.put(out)
}

/// Where the states that are given are those of the samples, and so the plans, this is the text of the
/// samples. A law: the body is empty.
pub fn text_is_the_samples()
    ensures { TextIsTheSamples }
{}

// What all lines share.
#[derive(Clone, Copy)]
struct Quench<'a> {
    head: &'a QuenchHead<'a>,
    plans: &'a [Arc<Plan, Global>],
}

// A slot of a sample of a kept state.
#[derive(Clone, Copy)]
struct KeptPlace {
    state: usize,
    sample: u32,
    slot: u32,
}

// Adds the lines of all states but those that were held, behind a text that is still to be put.
fn add_states<O: Sink>(
    out: &mut O,
    line: &mut Line,
    quench: &Quench,
    states: &mut [Items<Stand>],
    room: &mut QuenchRoom,
) -> Result<(), Fault>
    requires held { quench.now.head.now.held ≤ length quench.now.head.now.times.now }
    requires kept { AreKept (heading_of quench.now.head.now) (map arc_value quench.now.plans.now) states.old }
    requires room { HasRoom quench.now.head.now.slots (length quench.now.head.now.times.now) room.old }
    ensures text { WritesFront O.Sink out.old out.new
        (line.old ++ lines_between (heading_of quench.now.head.now)
        (kept_seen quench.now.head.now.lattice (map arc_value quench.now.plans.now) states.old)
        (kept_fields quench.now.head.now.lattice states.old)
        quench.now.head.now.held (length quench.now.head.now.times.now)) line.new result }
    ensures states { states.new ≡ states.old }
{
    'states: for j in quench.head.held..quench.head.times.len() {
        add_state(out, line, quench, states, room, j)?;
    }
    Ok(())
}

// Adds those of one state.
fn add_state<O: Sink>(
    out: &mut O,
    line: &mut Line,
    quench: &Quench,
    states: &mut [Items<Stand>],
    room: &mut QuenchRoom,
    state: usize,
) -> Result<(), Fault>
    requires state { state < length quench.now.head.now.times.now }
    requires kept { AreKept (heading_of quench.now.head.now) (map arc_value quench.now.plans.now) states.old }
    requires room { HasRoom quench.now.head.now.slots (length quench.now.head.now.times.now) room.old }
    ensures text { WritesFront O.Sink out.old out.new
        (line.old ++ time_lines (heading_of quench.now.head.now)
        (kept_seen quench.now.head.now.lattice (map arc_value quench.now.plans.now) states.old)
        (kept_fields quench.now.head.now.lattice states.old) state) line.new result }
    ensures room { HasRoom quench.now.head.now.slots (length quench.now.head.now.times.now) room.new }
    ensures states { states.new ≡ states.old }
{
    'samples: for sample in 0..quench.head.samples {
        hold_bank(room, quench, states, state, sample);
        add_sample(out, line, quench.head, room, state, sample)?;
    }
    Ok(())
}

// Has the sums of a sample's bank: where the sample is the first of its bank, the bank is measured.
fn hold_bank(
    room: &mut QuenchRoom,
    quench: &Quench,
    states: &mut [Items<Stand>],
    state: usize,
    sample: u32,
)
    requires state { state < length quench.now.head.now.times.now }
    requires sample { sample < quench.now.head.now.samples }
    requires kept { AreKept (heading_of quench.now.head.now) (map arc_value quench.now.plans.now) states.old }
    requires room { HasRoom quench.now.head.now.slots (length quench.now.head.now.times.now) room.old }
    requires before { HoldsBankOf (heading_of quench.now.head.now) (map arc_value quench.now.plans.now) states.old state room.old sample }
    ensures held { HoldBank (plan_among (map arc_value quench.now.plans.now) sample) states.old state (sample / 64)
        room.new quench.now.head.now.slots }
    ensures room { HasRoom quench.now.head.now.slots (length quench.now.head.now.times.now) room.new }
    ensures states { states.new ≡ states.old }
{
    if sample % 64 == 0 {
        let bank = (sample / 64) as usize;
        let plan: &Plan = &quench.plans[bank];
        room.measure(states, plan, quench.head.slots, state, bank);
    }
}

// Adds the lines of one sample, whose bank is measured.
fn add_sample<O: Sink>(
    out: &mut O,
    line: &mut Line,
    head: &QuenchHead,
    room: &QuenchRoom,
    state: usize,
    sample: u32,
) -> Result<(), Fault>
    requires state { state < length head.now.times.now }
    requires room { HasRoom head.now.slots (length head.now.times.now) room.now }
    ensures { (seen : ℕ → ℕ → Observed) (fields : ℕ → ℕ → ℕ → ℕ → Field)
        → HoldKept head.now.lattice state room.now seen fields head.now.slots
        → WritesFront O.Sink out.old out.new
        (line.old ++ sample_lines (heading_of head.now) (of_sample seen) (of_earlier fields) state sample) line.new result }
{
    'slots: for slot in 0..head.slots {
        let place = KeptPlace {
            state,
            sample,
            slot,
        };
        add_slot(out, line, head, room.sums_at(slot as usize), place)?;
    }
    Ok(())
}

// Adds those of one slot.
fn add_slot<O: Sink>(
    out: &mut O,
    line: &mut Line,
    head: &QuenchHead,
    sums: &KeptSums,
    place: KeptPlace,
) -> Result<(), Fault>
    requires state { place.state < length head.now.times.now }
    requires room { place.state ≤ length sums.now.pairs }
    ensures { (seen : ℕ → ℕ → Observed) (fields : ℕ → ℕ → ℕ → ℕ → Field)
        → TellsKept head.now.lattice place.state sums.now (seen place.slot) (fields place.slot)
        → WritesFront O.Sink out.old out.new
        (line.old ++ slot_lines (heading_of head.now) (of_sample seen) (of_earlier fields) place.state place.sample place.slot) line.new result }
{
    let at = LinePlace {
        time: head.times[place.state],
        sample: place.sample,
        slot: place.slot,
    };
    add_state_line(out, line, &sums.state, head.lattice, at)?;
    add_pairs(out, line, head, &sums.pairs, at, place.state)
}

// Adds the lines of a state with each earlier one.
fn add_pairs<O: Sink>(
    out: &mut O,
    line: &mut Line,
    head: &QuenchHead,
    pairs: &Items<PairSums>,
    at: LinePlace,
    state: usize,
) -> Result<(), Fault>
    requires state { state < length head.now.times.now }
    requires room { state ≤ length pairs.now }
    ensures { (fields : ℕ → ℕ → ℕ → Field) → HoldPairs head.now.lattice pairs.now fields state
        → WritesFront O.Sink out.old out.new
        (line.old ++ flat_map (λ i. pair_line head.now.lattice (time_at head.now.times.now i) at.time at.sample at.slot
        (fields i (at.sample % 64))) (table (λ i. i) state)) line.new result }
{
    'pairs: for i in 0..state {
        add_pair_line(out, line, pairs.at(i), head.times[i], at)?;
    }
    Ok(())
}
