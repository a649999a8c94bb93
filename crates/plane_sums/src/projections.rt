//! The overlap summed along the lines of each axis.

ghost use Rattle.std.specs.Prelude.{◌≡◌, ℕ, ◌+◌, ◌*◌, ◌/◌, ◌%◌, ◌^◌, ◌<◌, ◌≤◌, Bool, length};
ghost use Rattle.multispin_word.specs.Planes.{is_set, one_if};
ghost use Rattle.plane_sums.specs.Counts.{count_at, line_at};
ghost use Rattle.plane_sums.specs.Families.{HasLines, HasRoom};
ghost use Rattle.plane_sums.specs.Lines.{agrees, word_in};
ghost use Rattle.plane_sums.specs.Projected.{AreProjected, AreSheets};
ghost use Rattle.plane_sweep.specs.Packed.{FitsReplica};
ghost use Rattle.spin_model.specs.Lattice.{IsLawfulSize};
ghost use Rattle.spin_model.specs.Steps.{count_below};

use crate::agreement::{fill, turn};
use crate::counts::{Counts, line_width};
use plain_list::Items;
use plane_sweep::Replica;

/// In how many of the sites of each line two replicas agree. A line along x or y is found by its z and
/// its other coordinate, one along z by y and x. Behind the places of a line they stand once more, so
/// that as many on from any of them are side by side.
#[derive(Drop)]
pub(crate) struct Projections {
    pub along_x: Items<Counts<7>>,
    pub along_y: Items<Counts<7>>,
    pub along_z: Items<Counts<7>>,
}

/// Where two replicas agree in two planes of constant z, a row for each y, and in one of them a row for
/// each x.
#[derive(Drop)]
pub(crate) struct Sheets {
    pub front: Items<[u64; 64]>,
    pub back: Items<[u64; 64]>,
    pub turned: Items<[u64; 64]>,
}

impl Projections {
    /// Counts along all lines.
    pub fn project(&mut self, sheets: &mut Sheets, first: &Replica, second: &Replica, size: usize)
        requires lawful { IsLawfulSize size }
        requires first { FitsReplica size first.now }
        requires second { FitsReplica size second.now }
        requires lines { HasRoom self.old }
        requires sheets { AreSheets sheets.old }
        ensures lines { HasLines size (agrees size first.now.planes second.now.planes) self.new }
        ensures room { HasRoom self.new }
        ensures sheets { AreSheets sheets.new }
    {
        clear_lines(&mut self.along_z, size);
        'pairs: for pair in 0..size / 2 {
            fill(&mut sheets.front, first, second, size, 2 * pair);
            fill(&mut sheets.back, first, second, size, 2 * pair + 1);
            self.project_plane(&sheets.front, &mut sheets.turned, size, 2 * pair);
            self.project_plane(&sheets.back, &mut sheets.turned, size, 2 * pair + 1);
            add_pair(&mut self.along_z, &sheets.front, &sheets.back, size);
        }
        double_lines(&mut self.along_z, size);
    }

    // Counts along the lines of plane z.
    fn project_plane(
        &mut self,
        sheet: &Items<[u64; 64]>,
        turned: &mut Items<[u64; 64]>,
        size: usize,
        z: usize,
    )
        requires lawful { IsLawfulSize size }
        requires lines { HasRoom self.old }
        requires sheets { (length sheet.now ≡ 64) × (length turned.old ≡ 64) }
        requires z { z < size }
        ensures before { (test : ℕ → ℕ → Bool) → AreProjected size test z self.old → AreProjected size test z self.new }
        ensures along_x { (k b : ℕ) → k < 2 * size → b < 64 → count_at (line_at self.new.along_x z) k b
            ≡ count_below (λ x. is_set (word_in sheet.now (k % size) x) b) size }
        ensures along_y { (k b : ℕ) → k < 2 * size → b < 64 → count_at (line_at self.new.along_y z) k b
            ≡ count_below (λ y. is_set (word_in sheet.now y (k % size)) b) size }
        ensures along_z { self.new.along_z ≡ self.old.along_z }
        ensures room { HasRoom self.new }
        ensures turned { length turned.new ≡ 64 }
    {
        sum_rows(self.along_y.at_mut(z), sheet, size);
        turn(turned, sheet, size);
        sum_rows(self.along_x.at_mut(z), turned, size);
    }
}

// At each place the number of rows with each sample's bit.
fn sum_rows(total: &mut Counts<7>, rows: &Items<[u64; 64]>, size: usize)
    requires lawful { IsLawfulSize size }
    requires rows { length rows.now ≡ 64 }
    ensures { (k b : ℕ) → k < 2 * size → b < 64 → count_at total.new.planes k b
        ≡ count_below (λ j. is_set (word_in rows.now j (k % size)) b) size }
{
    let width = line_width(size);
    total.clear(size);
    'pairs: for pair in 0..size / 2 {
        let mut more = *rows.at(2 * pair + 1);
        total.add_words(rows.at(2 * pair), &mut more, size, width);
    }
    total.double(size);
}

// Adds two rows of words to each line.
fn add_pair(
    lines: &mut Items<Counts<7>>,
    front: &Items<[u64; 64]>,
    back: &Items<[u64; 64]>,
    size: usize,
)
    requires size { size ≤ 64 }
    requires lines { length lines.old ≡ 64 }
    requires sheets { (length front.now ≡ 64) × (length back.now ≡ 64) }
    requires room { (j k b : ℕ) → j < size → k < size → b < 64 → count_at (line_at lines.old j) k b + 2 ≤ size }
    ensures sum { (j k b : ℕ) → j < size → k < size → b < 64 → count_at (line_at lines.new j) k b
        ≡ count_at (line_at lines.old j) k b + one_if (is_set (word_in front.now j k) b)
        + one_if (is_set (word_in back.now j k) b) }
    ensures long { length lines.new ≡ 64 }
{
    let width = line_width(size);
    'lines: for j in 0..size {
        let mut more = *back.at(j);
        lines
            .at_mut(j)
            .add_words(front.at(j), &mut more, size, width);
    }
}

fn clear_lines(lines: &mut Items<Counts<7>>, size: usize)
    requires size { size ≤ 64 }
    requires lines { length lines.old ≡ 64 }
    ensures clear { (j k b : ℕ) → j < size → k < size → count_at (line_at lines.new j) k b ≡ 0 }
    ensures long { length lines.new ≡ 64 }
{
    'lines: for j in 0..size {
        lines.at_mut(j).clear(size);
    }
}

fn double_lines(lines: &mut Items<Counts<7>>, size: usize)
    requires size { (0 < size) × (size ≤ 64) }
    requires lines { length lines.old ≡ 64 }
    ensures doubled { (j k b : ℕ) → j < size → k < 2 * size → count_at (line_at lines.new j) k b
        ≡ count_at (line_at lines.old j) (k % size) b }
    ensures long { length lines.new ≡ 64 }
{
    'lines: for j in 0..size {
        lines.at_mut(j).double(size);
    }
}
