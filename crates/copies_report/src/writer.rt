//! The text, line by line.

ghost use Rattle.std.specs.Prelude.{◌≡◌, ℕ, ◌*◌, ◌/◌, ◌<◌, ◌≤◌, List, ◌++◌, length, flat_map};
ghost use Rattle.copies_report.specs.Held.{bank_fields, HoldCopies, HoldsBankOf};
ghost use Rattle.copies_report.specs.States.{bank_at, heading_of, states_fields, AreStates};
ghost use Rattle.glass_edges.specs.Writes.{Writes, WritesFront};
ghost use Rattle.plane_sweep.specs.declared.replica.Duo.{Duo};
ghost use Rattle.quenched_states.specs.CrossText.{copies_lines, cross_text, slots_lines};
ghost use Rattle.spin_model.specs.Steps.{table};

use crate::head::{CopiesHead, add_heading};
use crate::lines::{CopiesPlace, add_pair_lines};
use crate::measuring::CopiesRoom;
use crate::pairs::{PAIRS, pair_at};
use glass_edges::{Fault, Line, Sink};
use plane_sweep::Stand;

/// Puts the text of the overlaps of each two of the four copies that two states have, which are given bank
/// by bank of 64 samples. Takes no memory.
///
/// # Errors
///
/// Where the output failed; it has then taken a prefix of the text.
pub fn write_copies<O: Sink>(
    out: &mut O,
    head: &CopiesHead,
    first: &[Stand],
    second: &[Stand],
    room: &mut CopiesRoom,
) -> Result<(), Fault>
    requires rule { length head.now.rule.now ≤ 64 }
    requires slots { head.now.slots ≤ 32 }
    requires first { AreStates (heading_of head.now) first.now }
    requires second { AreStates (heading_of head.now) second.now }
    requires room { 6 * head.now.slots ≤ length room.old }
    ensures { Writes O.Sink out.old out.new
        (cross_text (heading_of head.now) (states_fields head.now.lattice first.now second.now)) result }
{
    let mut line = Line::new();
    add_heading(&mut line, head);
    add_samples(out, &mut line, head, first, second, room)?;
    line.extend(out, b"end\n")?;
    line.put(out)
}

// Adds the lines of all samples behind a text that is still to be put.
fn add_samples<O: Sink>(
    out: &mut O,
    line: &mut Line,
    head: &CopiesHead,
    first: &[Stand],
    second: &[Stand],
    room: &mut CopiesRoom,
) -> Result<(), Fault>
    requires slots { head.now.slots ≤ 32 }
    requires first { AreStates (heading_of head.now) first.now }
    requires second { AreStates (heading_of head.now) second.now }
    requires room { 6 * head.now.slots ≤ length room.old }
    ensures { WritesFront O.Sink out.old out.new
        (line.old ++ flat_map (slots_lines (heading_of head.now) (states_fields head.now.lattice first.now second.now))
        (table (λ b. b) head.now.samples)) line.new result }
{
    'samples: for b in 0..head.samples {
        hold_bank(room, head, first, second, b);
        add_sample(out, line, head, room, b)?;
    }
    Ok(())
}

// Has the sums of a sample's bank: where the sample is the first of its bank, the bank is measured.
fn hold_bank(
    room: &mut CopiesRoom,
    head: &CopiesHead,
    first: &[Stand],
    second: &[Stand],
    sample: u32,
)
    requires slots { head.now.slots ≤ 32 }
    requires first { AreStates (heading_of head.now) first.now }
    requires second { AreStates (heading_of head.now) second.now }
    requires sample { sample < head.now.samples }
    requires room { 6 * head.now.slots ≤ length room.old }
    requires before { HoldsBankOf (heading_of head.now) first.now second.now room.old sample }
    ensures held { HoldCopies head.now.lattice (bank_at first.now (sample / 64)).slots
        (bank_at second.now (sample / 64)).slots room.new head.now.slots }
    ensures long { length room.new ≡ length room.old }
{
    if sample % 64 == 0 {
        let bank = (sample / 64) as usize;
        room.measure(&first[bank], &second[bank], head.lattice, head.slots);
    }
}

// Adds the lines of one sample, whose bank is measured.
fn add_sample<O: Sink>(
    out: &mut O,
    line: &mut Line,
    head: &CopiesHead,
    room: &CopiesRoom,
    sample: u32,
) -> Result<(), Fault>
    requires slots { head.now.slots ≤ 32 }
    requires room { 6 * head.now.slots ≤ length room.now }
    ensures { (first second : List Duo) → HoldCopies head.now.lattice first second room.now head.now.slots
        → WritesFront O.Sink out.old out.new
        (line.old ++ slots_lines (heading_of head.now) (bank_fields head.now.lattice first second) sample) line.new result }
{
    'slots: for slot in 0..head.slots {
        add_slot(out, line, head, room, sample, slot)?;
    }
    Ok(())
}

// Adds those of one slot.
fn add_slot<O: Sink>(
    out: &mut O,
    line: &mut Line,
    head: &CopiesHead,
    room: &CopiesRoom,
    sample: u32,
    slot: u32,
) -> Result<(), Fault>
    requires slots { head.now.slots ≤ 32 }
    requires slot { slot < head.now.slots }
    requires room { 6 * head.now.slots ≤ length room.now }
    ensures { (first second : List Duo) → HoldCopies head.now.lattice first second room.now head.now.slots
        → WritesFront O.Sink out.old out.new
        (line.old ++ copies_lines (heading_of head.now) (bank_fields head.now.lattice first second) sample slot) line.new result }
{
    'pairs: for p in 0..PAIRS {
        let place = CopiesPlace {
            sample,
            slot,
            pair: pair_at(p),
        };
        let sums = room.sums_at(slot as usize, p);
        add_pair_lines(out, line, sums, head.lattice, place)?;
    }
    Ok(())
}
