//! The text, line by line.

ghost use Rattle.std.specs.Prelude.{◌≡◌, ℕ, ◌+◌, ◌<◌, ◌≤◌, [], ◌++◌, length, flat_map, if◌then◌else◌, nat_lt};
ghost use Rattle.glass_edges.specs.Writes.{Writes, WritesFront};
ghost use Rattle.measured_sums.specs.MeasuredSums.{epochs_in_bin};
ghost use Rattle.measured_sums.specs.SumsText.{bin_lines, sample_sums, slot_sums, sums_text};
ghost use Rattle.plane_sums.specs.Bins.{bin_at, sum_in};
ghost use Rattle.spin_model.specs.Steps.{table};
ghost use Rattle.sums_report.specs.HeldSums.{heading_of, held_sums, sums_of_slot, AreHeld, HasBins, RunsHaveBins, TextIsTheSamples};

use crate::head::{END_ROOM, SumsHead, add_end, add_heading};
use crate::lines::{SumsPlace, add_bin_lines};
use glass_edges::{Fault, Line, Sink};
use plain_list::Items;
use plane_sums::SlotSums;

/// Puts the text of the sums of a run: bank by bank of 64 samples, of each bank slot by slot. Takes no memory.
///
/// # Errors
///
/// Where the output failed; it has then taken a prefix of the text.
pub fn write_sums<O: Sink>(
    out: &mut O,
    head: &SumsHead,
    banks: &[Items<SlotSums>],
) -> Result<(), Fault>
    requires rule { length head.now.rule.now ≤ 64 }
    requires digest { length head.now.digest.now ≤ 64 }
    requires held { AreHeld (heading_of head.now) banks.now }
    ensures { Writes O.Sink out.old out.new (sums_text (heading_of head.now) (held_sums banks.now)) result }
{
    let mut line = Line::new();
    add_heading(&mut line, head);
    add_samples(out, &mut line, head, banks)?;
    line.make_room(out, END_ROOM)?;
    add_end(&mut line, head.to);
    line.put(out)
}

/// Where what is held are the sums of the samples, this is their text. A law: the body is empty.
pub fn text_is_the_samples()
    ensures { TextIsTheSamples }
{}

/// A slot that holds the sums of a run has its bins. A law: the body is empty.
pub fn runs_have_bins()
    ensures { RunsHaveBins }
{}

// Adds the lines of all samples behind a text that is still to be put.
fn add_samples<O: Sink>(
    out: &mut O,
    line: &mut Line,
    head: &SumsHead,
    banks: &[Items<SlotSums>],
) -> Result<(), Fault>
    requires { AreHeld (heading_of head.now) banks.now }
    ensures { WritesFront O.Sink out.old out.new
        (line.old ++ flat_map (sample_sums (heading_of head.now) (held_sums banks.now)) (table (λ b. b) head.now.samples)) line.new result }
{
    'samples: for b in 0..head.samples {
        add_sample(out, line, head, banks, b)?;
    }
    Ok(())
}

// Adds those of one sample.
fn add_sample<O: Sink>(
    out: &mut O,
    line: &mut Line,
    head: &SumsHead,
    banks: &[Items<SlotSums>],
    sample: u32,
) -> Result<(), Fault>
    requires held { AreHeld (heading_of head.now) banks.now }
    requires sample { sample < head.now.samples }
    ensures { WritesFront O.Sink out.old out.new
        (line.old ++ sample_sums (heading_of head.now) (held_sums banks.now) sample) line.new result }
{
    let slots = &banks[(sample / 64) as usize];
    'slots: for slot in 0..head.slots {
        let place = SumsPlace {
            sample,
            slot,
            bin: 0,
        };
        add_slot(out, line, head, slots.at(slot as usize), place)?;
    }
    Ok(())
}

// Adds those of one slot.
fn add_slot<O: Sink>(
    out: &mut O,
    line: &mut Line,
    head: &SumsHead,
    sums: &SlotSums,
    place: SumsPlace,
) -> Result<(), Fault>
    requires size { head.now.size ≤ 64 }
    requires bins { HasBins (heading_of head.now) sums.now }
    ensures { WritesFront O.Sink out.old out.new
        (line.old ++ slot_sums (heading_of head.now) (λ _ _. sums_of_slot sums.now place.sample) place.sample place.slot) line.new result }
{
    'bins: for k in 0..31u32 {
        let at = SumsPlace { bin: k, ..place };
        add_bin(out, line, head, sums, at)?;
    }
    Ok(())
}

// Adds those of a bin, where it has a measured epoch.
fn add_bin<O: Sink>(
    out: &mut O,
    line: &mut Line,
    head: &SumsHead,
    sums: &SlotSums,
    place: SumsPlace,
) -> Result<(), Fault>
    requires size { head.now.size ≤ 64 }
    requires bins { HasBins (heading_of head.now) sums.now }
    ensures { WritesFront O.Sink out.old out.new
        (line.old ++ (if nat_lt 0 (epochs_in_bin head.now.every place.bin head.now.from head.now.to)
        then bin_lines head.now.size place.sample place.slot place.bin (sums_of_slot sums.now place.sample place.bin) else [])) line.new result }
{
    if sums.has_bin(place.bin) {
        let bin = sums.bin(place.bin);
        let is_measured = bin.epochs > 0;
        if is_measured {
            return add_bin_lines(out, line, bin, head.size, place);
        }
    }
    Ok(())
}
