//! The report of a run. Each line goes to the output through a fixed buffer.

ghost use Rattle.std.specs.Prelude.{◌≡◌, ◌+◌, ◌<◌, ◌≤◌, [], ◌++◌, pos, length, slice_index, slice_index_or};
ghost use Rattle.glass_edges.specs.Writes.{Writes, WritesFront};
ghost use Rattle.spin_model.specs.Lattice.{volume};
ghost use Rattle.spin_model.specs.Steps.{table};
ghost use Rattle.potts_glass.specs.PottsStates.{state_of, energy_of};
ghost use Rattle.potts_glass.specs.PottsText.{header_line, energy_line, colour_digit, colour_digits, colours_head, colours_line, sample_text, samples_text, potts_text};

use crate::potts::Potts;
use glass_edges::{Fault, Line, Sink, put_all};

/// Puts the report of a glass that has made so many sweeps from this seed: the energy and the
/// colours of its first samples, at most 64. Takes no memory. The format stands in
/// docs/specification/potts.md.
///
/// # Errors
///
/// Where the output failed; it has then taken a prefix of the text.
pub fn write_potts<O: Sink>(
    potts: &Potts,
    sweeps: u32,
    seed: u64,
    samples: u32,
    out: &mut O,
) -> Result<(), Fault>
    requires { samples ≤ 64 }
    ensures { Writes O.Sink out.old out.new (potts_text potts.now sweeps seed samples) result }
{
    put_header(potts.size(), sweeps, seed, samples, out)?;
    put_samples(potts, samples, out)?;
    put_all(out, b"end\n")
}

// Puts the first line.
fn put_header<O: Sink>(
    size: u32,
    sweeps: u32,
    seed: u64,
    samples: u32,
    out: &mut O,
) -> Result<(), Fault>
    ensures { Writes O.Sink out.old out.new (header_line size sweeps seed samples) result }
{
    let mut line = Line::new();
    add_header(&mut line, size, sweeps, seed, samples);
    line.put(out)
}

// Fills an empty line with the first one.
#[tactic(auto, unfolding(crate::specs::PottsText::header_line))]
fn add_header(line: &mut Line, size: u32, sweeps: u32, seed: u64, samples: u32)
    requires { line.old ≡ [] }
    ensures { line.new ≡ header_line size sweeps seed samples }
{
    line.add(b"potts 1 size=");
    line.number(size as u64);
    line.add(b" sweeps=");
    line.number(sweeps as u64);
    line.add(b" seed=");
    line.number(seed);
    line.add(b" samples=");
    line.number(samples as u64);
    line.add(b"\n");
}

// Puts the lines of the samples.
fn put_samples<O: Sink>(potts: &Potts, samples: u32, out: &mut O) -> Result<(), Fault>
    requires { samples ≤ 64 }
    ensures { Writes O.Sink out.old out.new (samples_text potts.now samples) result }
{
    let mut energies = [0i32; 64];
    potts.energies(&mut energies);
    put_with(potts, samples, &energies, out)
}

// Puts the lines of samples that have these energies.
fn put_with<O: Sink>(
    potts: &Potts,
    samples: u32,
    energies: &[i32; 64],
    out: &mut O,
) -> Result<(), Fault>
    requires samples { samples ≤ 64 }
    requires energies { energies.now ≡ table (energy_of potts.now) 64 }
    ensures { Writes O.Sink out.old out.new (samples_text potts.now samples) result }
{
    'samples: for b in 0..samples {
        put_sample(potts, b, energies, out)?;
    }
    Ok(())
}

// Puts the two lines of a sample.
fn put_sample<O: Sink>(
    potts: &Potts,
    sample: u32,
    energies: &[i32; 64],
    out: &mut O,
) -> Result<(), Fault>
    requires sample { sample < 64 }
    requires energies { energies.now ≡ table (energy_of potts.now) 64 }
    ensures { Writes O.Sink out.old out.new (sample_text potts.now sample) result }
{
    put_energy(sample, energies, out)?;
    put_colours(potts, sample, out)
}

// Puts a sample's energy.
fn put_energy<O: Sink>(sample: u32, energies: &[i32; 64], out: &mut O) -> Result<(), Fault>
    requires { sample < 64 }
    ensures { Writes O.Sink out.old out.new
        (energy_line sample (slice_index_or energies.now sample (pos 0))) result }
{
    let mut line = Line::new();
    add_energy(&mut line, sample, energies);
    line.put(out)
}

// Fills an empty line with a sample's energy.
#[tactic(auto, unfolding(crate::specs::PottsText::energy_line))]
fn add_energy(line: &mut Line, sample: u32, energies: &[i32; 64])
    requires sample { sample < 64 }
    requires empty { line.old ≡ [] }
    ensures { line.new ≡ energy_line sample (slice_index_or energies.now sample (pos 0)) }
{
    line.add(b"energy,");
    line.number(sample as u64);
    line.add(b",");
    line.signed(energies[sample as usize] as i64);
    line.add(b"\n");
}

// Puts a sample's colours.
#[tactic(auto, unfolding(crate::specs::PottsText::colours_line))]
fn put_colours<O: Sink>(potts: &Potts, sample: u32, out: &mut O) -> Result<(), Fault>
    requires { sample < 64 }
    ensures { Writes O.Sink out.old out.new
        (colours_line potts.now.couplings.size sample (state_of potts.now sample)) result }
{
    let mut line = Line::new();
    add_head(&mut line, sample);
    put_digits(potts, sample, &mut line, out)?;
    line.make_room(out, 1)?;
    line.add(b"\n");
    line.put(out)
}

// Adds what stands before the digits.
#[tactic(auto, unfolding(crate::specs::PottsText::colours_head))]
fn add_head(line: &mut Line, sample: u32)
    requires { length line.old ≤ 100 }
    ensures { line.new ≡ line.old ++ colours_head sample }
{
    line.add(b"spin,");
    line.number(sample as u64);
    line.add(b",");
}

// Adds the digits of a sample's colours; what does not fit goes out in pieces.
fn put_digits<O: Sink>(
    potts: &Potts,
    sample: u32,
    line: &mut Line,
    out: &mut O,
) -> Result<(), Fault>
    requires { sample < 64 }
    ensures { WritesFront O.Sink out.old out.new
        (line.old ++ colour_digits potts.now.couplings.size (state_of potts.now sample)) line.new result }
{
    line.extend_by(out, potts.sites() as usize, |site| {
        digit(potts, sample, site as u32)
    })
}

// The digit of a sample's colour at a site.
fn digit(potts: &Potts, sample: u32, site: u32) -> u8
    requires sample { sample < 64 }
    requires site { site < volume potts.now.couplings.size }
    ensures { result ≡ colour_digit (slice_index (state_of potts.now sample) site) }
{
    b'0' + potts.colour_of(sample, site) as u8
}
