//! Eight words of the stream at a time, in vector lanes.

ghost use Rattle.std.specs.Prelude.{◌≡◌, ℕ, ◌+◌, ◌*◌, ◌%◌, ◌<◌, ◌≤◌, [], ◌++◌, length, take, drop, bit_xor, slice_index, slice_index_or};
ghost use Rattle.pr_generator.specs.Rows.{joined, state_of, from_row, AreRows};
ghost use Rattle.spin_model.specs.Words.{word_sum};
ghost use Rattle.spin_model.specs.Steps.{table};
ghost use Rattle.spin_model.specs.Stream.{advanced, draws, stream_word};

use std::simd::prelude::*;

/// Three words that are past, and then the 61 of a state, oldest first. A turn makes eight new sums,
/// which need no new word: they are the last row of the next eight, and the first row is past.
pub type Rows = [[u32; 8]; 8];

// The rows of 64 words of a longer list, from a place on.
fn rows_at(words: &[u32], place: usize) -> Rows
    requires { place + 64 ≤ length words.now }
    ensures rows { AreRows result }
    ensures joined { joined result ≡ take 64 (drop place words.now) }
{
    let words = &words[place..place + 64];
    [
        row_at(words, 0),
        row_at(words, 8),
        row_at(words, 16),
        row_at(words, 24),
        row_at(words, 32),
        row_at(words, 40),
        row_at(words, 48),
        row_at(words, 56),
    ]
}

fn row_at(words: &[u32], place: usize) -> [u32; 8]
    requires { place + 8 ≤ length words.now }
    ensures { result ≡ take 8 (drop place words.now) }
{
    let mut row = [0u32; 8];
    row.copy_from_slice(&words[place..place + 8]);
    row
}

/// The rows of a state, with three zeros for the words that are past.
pub fn rows_of(words: &[u32; 61]) -> Rows
    ensures rows { AreRows result }
    ensures state { state_of result ≡ words.now }
{
    rows_at(&behind_three(words), 0)
}

fn behind_three(words: &[u32; 61]) -> [u32; 64]
    ensures sized { length result ≡ 64 }
    ensures words { drop 3 result ≡ words.now }
{
    let mut all = [0u32; 64];
    all[3..].copy_from_slice(words);
    all
}

/// Writes the 64 words of the rows.
pub fn write_rows(rows: &Rows, out: &mut [u32])
    requires rows { AreRows rows.now }
    requires sized { length out.old ≡ 64 }
    ensures { out.new ≡ joined rows.now }
{
    'each: for q in 0..8 {
        out[8 * q..8 * q + 8].copy_from_slice(&rows[q]);
    }
}

/// Writes the next random numbers, as many as the slice is long, and moves the rows on by as many.
pub fn fill_words(rows: &mut Rows, out: &mut [u32])
    requires rows { AreRows rows.old }
    ensures rows { AreRows rows.new }
    ensures moved { state_of rows.new ≡ advanced (state_of rows.old) (length out.old) }
    ensures drawn { out.new ≡ draws (state_of rows.old) (length out.old) }
{
    let (blocks, rest) = out.split_at_mut(out.len() / 8 * 8);
    fill_rows(rows, blocks);
    fill_rest(rows, rest);
}

// Writes a multiple of eight random numbers.
fn fill_rows(rows: &mut Rows, out: &mut [u32])
    requires rows { AreRows rows.old }
    requires whole { length out.old % 8 ≡ 0 }
    ensures rows { AreRows rows.new }
    ensures moved { state_of rows.new ≡ advanced (state_of rows.old) (length out.old) }
    ensures drawn { out.new ≡ draws (state_of rows.old) (length out.old) }
{
    let rounds = out.len() / 64;
    'rounds: for i in 0..rounds {
        fill_round(rows, &mut out[64 * i..64 * i + 64]);
    }
    fill_last(rows, &mut out[64 * rounds..]);
}

// Eight turns, each of which puts its sums in the place of the oldest row, so that no row is moved and
// only the rows that a turn reads are in registers. After eight the rows stand in order again.
#[inline(always)]
fn fill_round(rows: &mut Rows, out: &mut [u32])
    requires rows { AreRows rows.old }
    requires sized { length out.old ≡ 64 }
    ensures rows { AreRows rows.new }
    ensures moved { state_of rows.new ≡ advanced (state_of rows.old) 64 }
    ensures drawn { out.new ≡ draws (state_of rows.old) 64 }
{
    let mut old = row_of(rows, 0);
    let mut far = row_of(rows, 1);
    'turns: for k in 0..8 {
        let behind = turn_at(rows, k, old, far, &mut out[8 * k..8 * k + 8]);
        old = far;
        far = behind;
    }
}

// One turn where the oldest row is at that place. The two oldest rows come from the turn before, and
// the second of the next turn is the result: as vectors they are read once, while LLVM, which doesn't
// know that out lies apart from rows, would read them again after each write to out.
#[inline(always)]
fn turn_at(rows: &mut Rows, place: usize, old: u32x8, far: u32x8, out: &mut [u32]) -> u32x8
    requires rows { AreRows rows.old }
    requires place { place < 8 }
    requires old { old ≡ slice_index_or (from_row place rows.old) 0 [] }
    requires far { far ≡ slice_index_or (from_row place rows.old) 1 [] }
    requires sized { length out.old ≡ 8 }
    ensures rows { AreRows rows.new }
    ensures moved { state_of (from_row (place + 1) rows.new)
        ≡ advanced (state_of (from_row place rows.old)) 8 }
    ensures drawn { out.new ≡ draws (state_of (from_row place rows.old)) 8 }
    ensures old { far ≡ slice_index_or (from_row (place + 1) rows.new) 0 [] }
    ensures far { result ≡ slice_index_or (from_row (place + 1) rows.new) 1 [] }
{
    let behind = row_of(rows, (place + 2) % 8);
    let sums = sum_row(row_of(rows, (place + 5) % 8), far, behind);
    draw_row(sums, old, far).copy_to_slice(out);
    rows[place] = sums.to_array();
    behind
}

#[inline(always)]
fn row_of(rows: &Rows, place: usize) -> u32x8
    requires rows { AreRows rows.now }
    requires place { place < 8 }
    ensures { result ≡ slice_index_or rows.now place [] }
{
    u32x8::from_slice(&rows[place])
}

// The numbers behind the last round.
#[inline]
fn fill_last(rows: &mut Rows, out: &mut [u32])
    requires rows { AreRows rows.old }
    requires whole { length out.old % 8 ≡ 0 }
    ensures rows { AreRows rows.new }
    ensures moved { state_of rows.new ≡ advanced (state_of rows.old) (length out.old) }
    ensures drawn { out.new ≡ draws (state_of rows.old) (length out.old) }
{
    if out.is_empty() {
        return;
    }
    fill_by_shifts(rows, out.len() / 8, out);
}

/// That many turns, after each of which every row takes the place of the one before it, in registers.
#[inline(always)]
pub fn fill_by_shifts(rows: &mut Rows, turns: usize, out: &mut [u32])
    requires rows { AreRows rows.old }
    requires sized { length out.old ≡ 8 * turns }
    ensures rows { AreRows rows.new }
    ensures moved { state_of rows.new ≡ advanced (state_of rows.old) (length out.old) }
    ensures drawn { out.new ≡ draws (state_of rows.old) (length out.old) }
{
    let mut a = row_of(rows, 0);
    let mut b = row_of(rows, 1);
    let mut c = row_of(rows, 2);
    let mut d = row_of(rows, 3);
    let mut e = row_of(rows, 4);
    let mut f = row_of(rows, 5);
    let mut g = row_of(rows, 6);
    let mut h = row_of(rows, 7);
    'turns: for i in 0..turns {
        let sums = sum_row(f, b, c);
        let drawn = draw_row(sums, a, b).to_array();
        out[8 * i..8 * i + 8].copy_from_slice(&drawn);
        a = b;
        b = c;
        c = d;
        d = e;
        e = f;
        f = g;
        g = h;
        h = sums;
    }
    *rows = [
        a.to_array(),
        b.to_array(),
        c.to_array(),
        d.to_array(),
        e.to_array(),
        f.to_array(),
        g.to_array(),
        h.to_array(),
    ];
}

// Writes the next random numbers, fewer than eight, and moves the rows on by as many.
fn fill_rest(rows: &mut Rows, out: &mut [u32])
    requires rows { AreRows rows.old }
    requires rest { length out.old < 8 }
    ensures rows { AreRows rows.new }
    ensures moved { state_of rows.new ≡ advanced (state_of rows.old) (length out.old) }
    ensures drawn { out.new ≡ draws (state_of rows.old) (length out.old) }
{
    if out.is_empty() {
        return;
    }
    let drawn = turn_by(rows, out.len());
    out.copy_from_slice(&drawn[..out.len()]);
}

/// Moves the rows on by at most eight words, and gives eight random numbers.
pub fn turn_by(rows: &mut Rows, count: usize) -> [u32; 8]
    requires rows { AreRows rows.old }
    requires count { count ≤ 8 }
    ensures rows { AreRows rows.new }
    ensures moved { state_of rows.new ≡ advanced (state_of rows.old) count }
    ensures drawn { result ≡ draws (state_of rows.old) 8 }
{
    if count == 2 {
        return turn_by_two(rows);
    }
    let mut words = [0u32; 72];
    let drawn = turn_beside(rows, &mut words);
    *rows = rows_at(&words, count);
    drawn
}

// A turn by two words, as many as eights leave of a plane whose side is no multiple of four: in
// registers, since rows that are read beside the places where they were written wait for the writes.
#[inline(always)]
fn turn_by_two(rows: &mut Rows) -> [u32; 8]
    requires { AreRows rows.old }
    ensures rows { AreRows rows.new }
    ensures moved { state_of rows.new ≡ advanced (state_of rows.old) 2 }
    ensures drawn { result ≡ draws (state_of rows.old) 8 }
{
    let old = *rows;
    let drawn = turn(rows);
    *rows = [
        two_on(&old[0], &old[1]),
        two_on(&old[1], &old[2]),
        two_on(&old[2], &old[3]),
        two_on(&old[3], &old[4]),
        two_on(&old[4], &old[5]),
        two_on(&old[5], &old[6]),
        two_on(&old[6], &old[7]),
        two_on(&old[7], &rows[7]),
    ];
    drawn
}

// A row but its first two words, and the first two of the row behind it.
#[inline(always)]
#[tactic(auto, unfolding(spin_model::specs::Steps::table))]
fn two_on(row: &[u32; 8], behind: &[u32; 8]) -> [u32; 8]
    ensures { result ≡ drop 2 row.now ++ take 2 behind.now }
{
    u32x8::from_array(*row)
        .shuffle(u32x8::from_array(*behind), [2, 3, 4, 5, 6, 7, 8, 9])
        .to_array()
}

// Moves the rows on by eight words, and writes them as they were with the eight new words behind.
fn turn_beside(rows: &mut Rows, words: &mut [u32]) -> [u32; 8]
    requires rows { AreRows rows.old }
    requires sized { length words.old ≡ 72 }
    ensures drawn { result ≡ draws (state_of rows.old) 8 }
    ensures words { words.new
        ≡ joined rows.old ++ table (λ k. stream_word (state_of rows.old) (61 + k)) 8 }
{
    write_rows(rows, &mut words[..64]);
    let drawn = turn(rows);
    words[64..].copy_from_slice(&rows[7]);
    drawn
}

// Moves the rows on by eight words, and gives the eight random numbers.
#[inline]
fn turn(rows: &mut Rows) -> [u32; 8]
    requires { AreRows rows.old }
    ensures rows { AreRows rows.new }
    ensures moved { state_of rows.new ≡ advanced (state_of rows.old) 8 }
    ensures drawn { result ≡ draws (state_of rows.old) 8 }
    ensures last { slice_index_or rows.new 7 [] ≡ table (λ k. stream_word (state_of rows.old) (61 + k)) 8 }
{
    let [a, b, c, d, e, f, g, h] = *rows;
    let far = u32x8::from_array(b);
    let sums = sum_row(u32x8::from_array(f), far, u32x8::from_array(c));
    *rows = [b, c, d, e, f, g, h, sums.to_array()];
    draw_row(sums, u32x8::from_array(a), far).to_array()
}

// Eight sums: of the words of one row, which are 24 before, and of those 55 before, which begin at
// the second word of the row far.
#[inline]
fn sum_row(near: u32x8, far: u32x8, behind: u32x8) -> u32x8
    requires { length near ≡ 8 }
    ensures sized { length result ≡ 8 }
    ensures sums { (k : ℕ) → k < 8 →
        slice_index result k
        ≡ word_sum (slice_index near k) (slice_index (far ++ behind) (1 + k)) }
{
    near + far.shuffle(behind, [1, 2, 3, 4, 5, 6, 7, 8])
}

// Eight random numbers: the sums xor the words 61 before them, which begin at the fourth word of
// the row old.
#[inline]
fn draw_row(sums: u32x8, old: u32x8, behind: u32x8) -> u32x8
    requires { length sums ≡ 8 }
    ensures sized { length result ≡ 8 }
    ensures xors { (k : ℕ) → k < 8 →
        slice_index result k
        ≡ bit_xor (slice_index sums k) (slice_index (old ++ behind) (3 + k)) }
{
    sums ^ old.shuffle(behind, [3, 4, 5, 6, 7, 8, 9, 10])
}
