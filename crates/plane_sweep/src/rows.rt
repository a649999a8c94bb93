//! The new words of a plane's sites, two rows at a time.

ghost use Rattle.std.specs.Prelude.{◌≡◌, ℕ, ◌+◌, ◌-◌, ◌*◌, ◌/◌, ◌%◌, ◌<◌, ◌≤◌, ◌==◌, if◌then◌else◌, length, All};
ghost use Rattle.plane_sweep.specs.PlaneSweep.{left_column, pulls_lent, right_column, SweepsWords, IsRow, HasRows};
ghost use Rattle.plane_sweep.specs.Packed.{FitsPlane};
ghost use Rattle.spin_model.specs.Lattice.{half_plane, next, previous, IsLawfulSize};
ghost use Rattle.spin_model.specs.Limits.{greatest_half_plane};

use crate::dynamics::HalfPlane;
use crate::pairs::sweep_pair;
use crate::replica::Plane;
use crate::surroundings::{Surroundings, lend, next, previous};
use threshold_table::RuleKind;

/// A row of a plane, and the two rows beside it.
#[derive(Clone, Copy)]
pub struct Row {
    /// Words in a row.
    pub half: usize,
    /// Where the row begins, and the rows one step on and one step back.
    pub here: usize,
    pub up: usize,
    pub down: usize,
    /// The colour's sites in this row begin at x = 0, and not at 1.
    pub even: bool,
}

/// The new words of the sites of a colour in a plane, from the planes of the other colour, each site
/// by the draw of its place. There is code for a size, for each kind of table in order, and for planes
/// whose first row begins at x = 0 or at x = 1: all are then known in its loops. A size of 0 stands for
/// any. A table out of order, which no temperature has, takes the code for all sizes.
#[inline(always)]
pub fn sweep_words<const SIZE: usize>(
    own: &mut [u64],
    other: &[Plane],
    sites: &HalfPlane,
    draws: &[u32],
)
    requires size { 0 < SIZE → sites.now.couplings.now.size ≡ SIZE }
    requires own { length own.old ≡ half_plane sites.now.couplings.now.size }
    requires draws { length draws.now ≡ half_plane sites.now.couplings.now.size }
    requires count { length other.now ≡ sites.now.couplings.now.size }
    requires planes { All (FitsPlane sites.now.couplings.now.size) other.now }
    requires colour { sites.now.colour < 2 }
    requires plane { sites.now.z < sites.now.couplings.now.size }
    ensures { SweepsWords sites.now.couplings.now other.now sites.now.rule.now draws.now sites.now.colour sites.now.z (half_plane sites.now.couplings.now.size) own.old own.new }
{
    let _ = sites.couplings.size();
    if SIZE == 0 {
        sweep_any(own, other, sites, draws);
        return;
    }
    let even = (sites.colour + sites.z) % 2 == 0;
    match sites.rule.kind() {
        RuleKind::Heat if even => { sweep_rows::<SIZE, true, true>(own, other, sites, draws) }
        RuleKind::Heat => { sweep_rows::<SIZE, true, false>(own, other, sites, draws) }
        RuleKind::Metropolis if even => {
            sweep_rows::<SIZE, false, true>(own, other, sites, draws)
        }
        RuleKind::Metropolis => { sweep_rows::<SIZE, false, false>(own, other, sites, draws) }
    }
}

// The new words by heat bath or Metropolis, two rows at a time: an even plane's first row begins at x = 0.
// Not expanded where it is called, since no hint brings so much code into one function.
#[inline(never)]
fn sweep_rows<const SIZE: usize, const HEAT: bool, const EVEN: bool>(
    own: &mut [u64],
    other: &[Plane],
    sites: &HalfPlane,
    draws: &[u32],
)
    requires size { sites.now.couplings.now.size ≡ SIZE }
    requires lawful { IsLawfulSize sites.now.couplings.now.size }
    requires even { EVEN ≡ ((sites.now.colour + sites.now.z) % 2 == 0) }
    requires kind { sites.now.rule.now.kind ≡ (if HEAT then RuleKind.Heat else RuleKind.Metropolis) }
    requires own { length own.old ≡ half_plane sites.now.couplings.now.size }
    requires draws { length draws.now ≡ half_plane sites.now.couplings.now.size }
    requires count { length other.now ≡ sites.now.couplings.now.size }
    requires planes { All (FitsPlane sites.now.couplings.now.size) other.now }
    requires colour { sites.now.colour < 2 }
    requires plane { sites.now.z < sites.now.couplings.now.size }
    ensures { SweepsWords sites.now.couplings.now other.now sites.now.rule.now draws.now sites.now.colour sites.now.z (half_plane sites.now.couplings.now.size) own.old own.new }
{
    if !sites.rule.is_in_order() {
        sweep_any(own, other, sites, draws);
        return;
    }
    let around = lend(other, sites.couplings, sites.colour, sites.z, SIZE);
    // Its own, not the one borrowed beside the words that are written: so the limits stay in registers.
    let rule = sites.rule.copy_in_order(kind_of(HEAT));
    let words = SIZE * (SIZE / 2);
    let mut row = first_row(SIZE, EVEN);
    'pairs: for i in 0..SIZE / 2 {
        let behind = row_behind(&row, words);
        sweep_pair::<SIZE, HEAT, EVEN, 0>(own, &around, &rule, draws, &row, &behind);
        row = row_behind(&behind, words);
    }
}

/// Heat bath, or Metropolis.
#[inline(always)]
pub fn kind_of(heat: bool) -> RuleKind
    ensures { result ≡ (if heat then RuleKind.Heat else RuleKind.Metropolis) }
{
    if heat {
        RuleKind::Heat
    } else {
        RuleKind::Metropolis
    }
}

// What `sweep_words` leaves, by one code for all sizes and tables.
pub(crate) fn sweep_any(own: &mut [u64], other: &[Plane], sites: &HalfPlane, draws: &[u32])
    requires lawful { IsLawfulSize sites.now.couplings.now.size }
    requires own { length own.old ≡ half_plane sites.now.couplings.now.size }
    requires draws { length draws.now ≡ half_plane sites.now.couplings.now.size }
    requires count { length other.now ≡ sites.now.couplings.now.size }
    requires planes { All (FitsPlane sites.now.couplings.now.size) other.now }
    requires colour { sites.now.colour < 2 }
    requires plane { sites.now.z < sites.now.couplings.now.size }
    ensures { SweepsWords sites.now.couplings.now other.now sites.now.rule.now draws.now sites.now.colour sites.now.z (half_plane sites.now.couplings.now.size) own.old own.new }
{
    let size = sites.couplings.size() as usize;
    let around = lend(other, sites.couplings, sites.colour, sites.z, size);
    let rule = sites.rule.copy();
    let words = size * (size / 2);
    let mut row = first_row(size, (sites.colour + sites.z) % 2 == 0);
    'pairs: for i in 0..size / 2 {
        let behind = row_behind(&row, words);
        sweep_pair::<0, false, false, 3>(own, &around, &rule, draws, &row, &behind);
        row = row_behind(&behind, words);
    }
}

/// The first row of a plane, which begins at x = 0 where the plane is even.
#[inline(always)]
pub fn first_row(size: usize, even: bool) -> Row
    requires size { IsLawfulSize size }
    ensures { (c z : ℕ) → even ≡ ((c + z) % 2 == 0) → IsRow size c z 0 result }
{
    let half = size / 2;
    Row {
        half,
        here: 0,
        up: half,
        down: (size - 1) * half,
        even,
    }
}

/// The row behind a row, in a plane of so many words.
#[inline(always)]
pub fn row_behind(row: &Row, words: usize) -> Row
    requires few { words ≤ greatest_half_plane }
    requires here { row.now.here + row.now.half ≤ words }
    requires up { row.now.up + row.now.half ≤ words }
    ensures { (l c z y : ℕ) → IsLawfulSize l → y < l → words ≡ half_plane l → IsRow l c z y row.now
        → IsRow l c z (y + 1) result }
{
    Row {
        half: row.half,
        here: row.here + row.half,
        up: if row.up + row.half < words {
            row.up + row.half
        } else {
            0
        },
        down: row.here,
        even: !row.even,
    }
}

/// J times the neighbours' spins at column k: ahead in x, y and z, and behind.
#[inline(always)]
#[tactic(auto, unfolding(crate::specs::PlaneSweep::pulls_lent))]
pub fn pulls_of(around: &Surroundings, row: &Row, k: usize) -> [u64; 6]
    requires rows { HasRows (length around.now.here.now) around.now row.now }
    requires within { k < row.now.half }
    ensures { result ≡ pulls_lent around.now row.now k }
{
    let here = row.here + k;
    let (up, down) = (row.up + k, row.down + k);
    let right = row.here + ahead_column(row, k);
    let left = row.here + behind_column(row, k);
    [
        around.here[right] ^ around.ahead_x[here],
        around.here[up] ^ around.ahead_y[here],
        around.above[here] ^ around.ahead_z[here],
        around.here[left] ^ around.here_x[left],
        around.here[down] ^ around.here_y[down],
        around.below[here] ^ around.below_z[here],
    ]
}

// The column of the neighbour ahead in x, and of the one behind.
#[inline(always)]
fn ahead_column(row: &Row, k: usize) -> usize
    requires { k < row.now.half }
    ensures value { result ≡ right_column row.now k }
    ensures within { result < row.now.half }
{
    if row.even { k } else { next(row.half, k) }
}

#[inline(always)]
fn behind_column(row: &Row, k: usize) -> usize
    requires { k < row.now.half }
    ensures value { result ≡ left_column row.now k }
    ensures within { result < row.now.half }
{
    if row.even { previous(row.half, k) } else { k }
}
