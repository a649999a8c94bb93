//! The sums of a report as text.

ghost use Rattle.std.specs.Prelude.{◌≡◌, ◌<◌, ◌≤◌, [], ◌++◌, length};
ghost use Rattle.glass_edges.specs.Writes.{Writes};
ghost use Rattle.sample_average.specs.Averages.{averages_text, first_line, pieces, rows_without, slot_rows, slot_text, sum_line, sums_of, sums_text, without_line};

use crate::averages::Averages;
use crate::header::Header;
use crate::sums::Sums;
use glass_edges::{Fault, Line, Sink, put_all};

/// Puts the sums: of each slot over all its rows, and over those of the samples outside each block.
/// Takes no memory. The format stands in docs/specification/averages.md.
///
/// # Errors
///
/// Where the output failed; it has then taken a prefix of the text.
pub fn write_averages<O: Sink>(averages: &Averages, out: &mut O) -> Result<(), Fault>
    ensures { Writes O.Sink out.old out.new (averages_text averages.now) result }
{
    put_numbers(averages, out)?;
    put_slots(averages, out)?;
    put_all(out, b"end\n")
}

// Puts the line of the report's numbers.
fn put_numbers<O: Sink>(averages: &Averages, out: &mut O) -> Result<(), Fault>
    ensures { Writes O.Sink out.old out.new
        (first_line averages.now.header averages.now.blocks (length averages.now.rows)) result }
{
    let header = averages.header();
    let rows = averages.rows().len();
    put_first(&header, averages.blocks(), rows, out)
}

// Puts the line of these numbers.
fn put_first<O: Sink>(header: &Header, blocks: u32, rows: usize, out: &mut O) -> Result<(), Fault>
    ensures { Writes O.Sink out.old out.new (first_line header.now blocks rows) result }
{
    let mut line = Line::new();
    add_first(&mut line, header, blocks, rows);
    line.put(out)
}

// Adds the report's numbers.
#[tactic(auto, unfolding(crate::specs::Averages::first_line))]
fn add_first(line: &mut Line, header: &Header, blocks: u32, rows: usize)
    requires { line.old ≡ [] }
    ensures { line.new ≡ first_line header.now blocks rows }
{
    line.add(b"average 1 size=");
    line.number(header.size as u64);
    line.add(b" slots=");
    line.number(header.slots as u64);
    line.add(b" samples=");
    line.number(header.samples as u64);
    line.add(b" blocks=");
    line.number(blocks as u64);
    line.add(b" rows=");
    line.number(rows as u64);
    line.add(b"\n");
}

// Puts the lines of every slot.
fn put_slots<O: Sink>(averages: &Averages, out: &mut O) -> Result<(), Fault>
    ensures { Writes O.Sink out.old out.new
        (pieces (slot_text averages.now) averages.now.header.slots) result }
{
    'slots: for slot in 0..averages.header().slots {
        put_slot(averages, slot, out)?;
    }
    Ok(())
}

// Puts the lines of a slot.
fn put_slot<O: Sink>(averages: &Averages, slot: u32, out: &mut O) -> Result<(), Fault>
    requires { slot < averages.now.header.slots }
    ensures { Writes O.Sink out.old out.new (slot_text averages.now slot) result }
{
    put_sum(averages, slot, out)?;
    put_blocks(averages, slot, out)
}

// Puts the sums over all rows of a slot.
#[tactic(auto, unfolding(crate::specs::Averages::sum_line))]
fn put_sum<O: Sink>(averages: &Averages, slot: u32, out: &mut O) -> Result<(), Fault>
    requires { slot < averages.now.header.slots }
    ensures { Writes O.Sink out.old out.new
        (sum_line slot (sums_of (slot_rows averages.now slot))) result }
{
    let mut line = Line::new();
    line.add(b"sum,");
    line.number(slot as u64);
    line.add(b",");
    add_sums(&mut line, averages.sums(slot));
    line.put(out)
}

// Puts the sums over the rows of a slot outside each block.
fn put_blocks<O: Sink>(averages: &Averages, slot: u32, out: &mut O) -> Result<(), Fault>
    requires { slot < averages.now.header.slots }
    ensures { Writes O.Sink out.old out.new
        (pieces (λ block. without_line slot block (sums_of (rows_without averages.now slot block))) averages.now.blocks) result }
{
    'parts: for block in 0..averages.blocks() {
        put_without(averages, slot, block, out)?;
    }
    Ok(())
}

// Puts the sums over the rows of a slot outside one block.
#[tactic(auto, unfolding(crate::specs::Averages::without_line))]
fn put_without<O: Sink>(
    averages: &Averages,
    slot: u32,
    block: u32,
    out: &mut O,
) -> Result<(), Fault>
    requires slot { slot < averages.now.header.slots }
    requires block { block < averages.now.blocks }
    ensures { Writes O.Sink out.old out.new
        (without_line slot block (sums_of (rows_without averages.now slot block))) result }
{
    let mut line = Line::new();
    line.add(b"without,");
    line.number(slot as u64);
    line.add(b",");
    line.number(block as u64);
    line.add(b",");
    add_sums(&mut line, averages.sums_without(slot, block));
    line.put(out)
}

// Adds the sums and the end of the line.
fn add_sums(line: &mut Line, sums: Sums)
    requires { length line.old ≤ 80 }
    ensures { line.new ≡ line.old ++ sums_text sums }
{
    line.number(sums.rows);
    line.add(b",");
    line.add(itoa::Buffer::new().format(sums.energy).as_bytes());
    line.add(b",");
    line.add(itoa::Buffer::new().format(sums.squares).as_bytes());
    line.add(b",");
    line.add(itoa::Buffer::new().format(sums.fourths).as_bytes());
    line.add(b"\n");
}
