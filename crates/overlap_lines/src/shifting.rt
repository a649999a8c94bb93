//! The words of the sites some steps on from a plane's sites, in the order of the latter.

ghost use Rattle.std.specs.Prelude.{◌≡◌, ℕ, ◌+◌, ◌*◌, ◌/◌, ◌%◌, ◌<◌, ◌≤◌, length, slice_index};
ghost use Rattle.overlap_lines.specs.Counted.{place_on, plane_on};
ghost use Rattle.spin_model.specs.Lattice.{half_plane, IsLawfulSize};

use crate::turning::{turn, turn_from};

/// How many steps sites lie apart, and in which direction: 0 is x, 1 is y, 2 is z.
#[derive(Clone, Copy)]
pub(crate) struct Shift {
    pub direction: u32,
    pub distance: u32,
}

/// The plane of the sites that are so far on from those of plane q.
#[tactic(auto, unfolding(crate::specs::Counted::plane_on))]
pub(crate) fn plane_on(size: u32, q: u32, shift: Shift) -> u32
    requires size { IsLawfulSize size }
    requires plane { q < 2 * size }
    requires direction { shift.direction < 3 }
    requires distance { shift.distance ≤ size / 2 }
    ensures value { result ≡ plane_on size q shift.direction shift.distance }
    ensures within { result < 2 * size }
{
    let colour = (q / size + shift.distance) % 2;
    let height = if shift.direction == 2 {
        (q % size + shift.distance) % size
    } else {
        q % size
    };
    colour * size + height
}

/// The words of that plane, in the order of the sites of plane q.
#[tactic(auto, unfolding(crate::specs::Counted::place_on))]
pub(crate) fn turn_plane(out: &mut [u64], words: &[u64], size: u32, q: u32, shift: Shift)
    requires size { IsLawfulSize size }
    requires plane { q < 2 * size }
    requires direction { shift.direction < 3 }
    requires distance { shift.distance ≤ size / 2 }
    requires sized { length words.now ≡ half_plane size }
    requires room { length out.old ≡ half_plane size }
    ensures { (j : ℕ) → j < half_plane size → slice_index out.new j
        ≡ slice_index words.now (place_on size q shift.direction shift.distance j) }
{
    let half = size / 2;
    match shift.direction {
        0 => turn_rows(
            out,
            words,
            half as usize,
            shift.distance as usize,
            ((q / size + q % size) % 2) as usize,
        ),
        1 => turn(out, words, (shift.distance * half) as usize),
        _ => turn(out, words, 0),
    }
}

// Row by row the words of the same row so many columns on. Every second column has a word: the odd ones
// where the row's number and the parity have an odd sum, else the even ones.
fn turn_rows(out: &mut [u64], words: &[u64], row: usize, distance: usize, parity: usize)
    requires sized { length out.old ≡ length words.now }
    requires rows { length words.now ≡ 2 * row * row }
    requires row { 0 < row }
    requires few { row ≤ 32 }
    requires distance { distance ≤ row }
    requires parity { parity < 2 }
    ensures { (y k : ℕ) → y < 2 * row → k < row → slice_index out.new (y * row + k)
        ≡ slice_index words.now (y * row + (k + (distance + (parity + y) % 2) / 2) % row) }
{
    'rows: for y in 0..2 * row {
        turn_from(out, words, y * row, row, (distance + (parity + y) % 2) / 2);
    }
}
