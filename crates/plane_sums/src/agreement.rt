//! Where two replicas agree, row by row of a plane of constant z.

ghost use Rattle.std.specs.Prelude.{◌≡◌, ℕ, ◌+◌, ◌*◌, ◌/◌, ◌<◌, ◌≤◌, length, slice_index};
ghost use Rattle.multispin_word.specs.Planes.{is_set};
ghost use Rattle.plane_sums.specs.Lines.{agrees, word_in, Show};
ghost use Rattle.plane_sweep.specs.Packed.{plane_at, FitsReplica};
ghost use Rattle.scalar_rule.specs.Neighbours.{agree};
ghost use Rattle.spin_model.specs.Lattice.{site_at, IsLawfulSize};

use bit_totals::words_of;
use plain_list::Items;
use plane_sweep::Replica;

/// Writes where two replicas of side `size` agree in plane z: word x of row y.
pub(crate) fn fill(
    rows: &mut Items<[u64; 64]>,
    first: &Replica,
    second: &Replica,
    size: usize,
    z: usize,
)
    requires lawful { IsLawfulSize size }
    requires first { FitsReplica size first.now }
    requires second { FitsReplica size second.now }
    requires rows { length rows.old ≡ 64 }
    requires z { z < size }
    ensures shown { Show size
        (λ b y x. agrees size first.now.planes second.now.planes b (site_at size x y z)) rows.new }
    ensures long { length rows.new ≡ 64 }
{
    'rows: for y in 0..size {
        let (even, odd) = ((y + z) % 2 * size + z, (y + z + 1) % 2 * size + z);
        fill_row(
            rows.at_mut(y),
            row_of(first, even, y, size),
            row_of(second, even, y, size),
            row_of(first, odd, y, size),
            row_of(second, odd, y, size),
        );
    }
}

// Row y of a plane of a replica, whose planes of colour 1 stand behind those of colour 0.
#[inline]
fn row_of(replica: &Replica, plane: usize, y: usize, size: usize) -> &[u64]
    requires lawful { IsLawfulSize size }
    requires replica { FitsReplica size replica.now }
    requires plane { plane < 2 * size }
    requires y { y < size }
    ensures long { length result.now ≡ size / 2 }
    ensures words { (k : ℕ) → k < size / 2 → slice_index result.now k
        ≡ slice_index (plane_at replica.now.planes plane).words (y * (size / 2) + k) }
{
    let words = words_of(replica, plane as u32);
    let begin = y * (size / 2);
    &words[begin..begin + size / 2]
}

// The words of a row from those of its even and its odd columns.
#[inline]
fn fill_row(row: &mut [u64; 64], even: &[u64], other_even: &[u64], odd: &[u64], other_odd: &[u64])
    requires room { length even.now ≤ 32 }
    requires other_even { length other_even.now ≡ length even.now }
    requires odd { length odd.now ≡ length even.now }
    requires other_odd { length other_odd.now ≡ length even.now }
    ensures even { (k b : ℕ) → k < length even.now → b < 64 → is_set (slice_index row.new (2 * k)) b
        ≡ agree (is_set (slice_index even.now k) b) (is_set (slice_index other_even.now k) b) }
    ensures odd { (k b : ℕ) → k < length even.now → b < 64 → is_set (slice_index row.new (2 * k + 1)) b
        ≡ agree (is_set (slice_index odd.now k) b) (is_set (slice_index other_odd.now k) b) }
{
    'columns: for k in 0..even.len() {
        row[2 * k] = alike(even[k], other_even[k]);
        row[2 * k + 1] = alike(odd[k], other_odd[k]);
    }
}

// The samples in which two words have the same bit.
#[inline(always)]
fn alike(a: u64, b: u64) -> u64
    ensures { (k : ℕ) → k < 64 → is_set result k ≡ agree (is_set a k) (is_set b k) }
{
    u64::MAX ^ a ^ b
}

/// Writes the first words of the first rows turned over: word k of row j to word j of row k.
pub(crate) fn turn(turned: &mut Items<[u64; 64]>, rows: &Items<[u64; 64]>, size: usize)
    requires size { size ≤ 64 }
    requires turned { length turned.old ≡ 64 }
    requires rows { length rows.now ≡ 64 }
    ensures words { (j k : ℕ) → j < size → k < size → word_in turned.new k j ≡ word_in rows.now j k }
    ensures long { length turned.new ≡ 64 }
{
    'columns: for k in 0..size {
        turn_column(turned.at_mut(k), rows, k, size);
    }
}

#[inline]
fn turn_column(column: &mut [u64; 64], rows: &Items<[u64; 64]>, k: usize, size: usize)
    requires size { size ≤ 64 }
    requires column { k < 64 }
    requires rows { length rows.now ≡ 64 }
    ensures { (j : ℕ) → j < size → slice_index column.new j ≡ word_in rows.now j k }
{
    'rows: for j in 0..size {
        column[j] = rows.at(j)[k];
    }
}
