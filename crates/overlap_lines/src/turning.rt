//! Words in the order of a plane's sites, turned by a number of places, as those of neighbours are.

ghost use Rattle.std.specs.Prelude.{◌≡◌, ℕ, ◌+◌, ◌%◌, ◌<◌, ◌≤◌, length, slice_index};
ghost use Rattle.overlap_lines.specs.Turned.{Turned};

/// The words so many places on, the last ones followed by the first. `out` is as long as the words.
#[inline(always)]
pub(crate) fn turn(out: &mut [u64], words: &[u64], step: usize)
    requires sized { length out.old ≡ length words.now }
    requires step { step ≤ length words.now }
    ensures { Turned step words.now out.new }
{
    let (front, back) = out.split_at_mut(words.len() - step);
    front.copy_from_slice(&words[step..]);
    back.copy_from_slice(&words[..step]);
}

/// One row of the words, from a place on, turned by so many places. What is before it in `out`, which is
/// as long as the words, stays.
#[inline(always)]
pub(crate) fn turn_from(out: &mut [u64], words: &[u64], start: usize, row: usize, step: usize)
    requires sized { length out.old ≡ length words.now }
    requires within { start + row ≤ length words.now }
    requires step { step ≤ row }
    ensures turned { (k : ℕ) → k < row
        → slice_index out.new (start + k) ≡ slice_index words.now (start + (k + step) % row) }
    ensures before { (j : ℕ) → j < start → slice_index out.new j ≡ slice_index out.old j }
{
    turn(
        &mut out[start..start + row],
        &words[start..start + row],
        step,
    );
}
