//! The sums of a slot over the measured epochs of a bin.

ghost use Rattle.std.specs.Prelude.{◌≡◌, ℕ, ◌+◌, ◌<◌, ◌≤◌, ◌+ℤ◌, pos, [], slice_index_or};
ghost use Rattle.measured_sums.specs.EpochBins.{bin_of};
ghost use Rattle.measured_sums.specs.MeasuredSums.{Quantity};
ghost use Rattle.plane_sums.specs.Bins.{sum_in, IsBin};
ghost use Rattle.plane_sums.specs.Correlations.{signed_at};
ghost use Rattle.plane_sums.specs.Measured.{term_in, HasSum, IsWithin};
ghost use Rattle.spin_model.specs.Limits.{last_epoch};
ghost use Rattle.spin_model.specs.Words.{one_if};

use crate::classes::count_classes;
use crate::distance_sums::add_distances;
use crate::measured::Measured;
use crate::moments::add_moments;
use lattice_geometry::Lattice;

/// The sums of 64 samples.
#[derive(Drop)]
pub struct BinSums {
    /// The number of measured epochs.
    pub epochs: u64,
    /// By sample, the other sums of a line of sums, in its order.
    pub moments: [[i128; 11]; 64],
    /// By sample, how many overlaps are in each class.
    pub classes: [[u32; 32]; 64],
    /// By distance, the sums of the correlations across the axes.
    pub axis: [[i64; 64]; 33],
    /// By distance, those across the diagonals of the faces.
    pub face: [[i64; 64]; 33],
}

impl BinSums {
    /// The sums over no epoch.
    pub(crate) fn none() -> BinSums
        ensures zero { (b : ℕ) (quantity : Quantity) → sum_in result b quantity ≡ pos 0 }
        ensures bin { IsBin result }
    {
        BinSums {
            epochs: 0,
            moments: no_moments(),
            classes: no_classes(),
            axis: no_distances(),
            face: no_distances(),
        }
    }

    /// Adds an epoch.
    pub(crate) fn add(&mut self, seen: &Measured, lattice: Lattice)
        requires within { IsWithin lattice seen.now }
        requires bin { IsBin self.old }
        requires few { self.old.epochs < last_epoch }
        ensures bin { IsBin self.new }
        ensures added { (b : ℕ) (quantity : Quantity) → b < 64 → HasSum lattice quantity
            → sum_in self.new b quantity ≡ sum_in self.old b quantity +ℤ term_in lattice seen.now b quantity }
    {
        let size = lattice.size() as usize;
        let distances = size / 2 + 1;
        add_moments(&mut self.moments, seen);
        count_classes(&mut self.classes, &seen.field.overlaps, lattice);
        add_distances(&mut self.axis, &seen.field.axis, distances);
        add_distances(&mut self.face, &seen.field.face, distances);
        self.epochs += 1;
    }
}

fn no_moments() -> [[i128; 11]; 64]
    ensures { (b k : ℕ) → signed_at (slice_index_or result b []) k ≡ pos 0 }
{
    [[0i128; 11]; 64]
}

fn no_classes() -> [[u32; 32]; 64]
    ensures { (b c : ℕ) → slice_index_or (slice_index_or result b []) c 0 ≡ 0 }
{
    [[0u32; 32]; 64]
}

fn no_distances() -> [[i64; 64]; 33]
    ensures { (r b : ℕ) → signed_at (slice_index_or result r []) b ≡ pos 0 }
{
    [[0i64; 64]; 33]
}

/// The bin of an epoch: the number of its binary digits.
pub(crate) fn bin_of(epoch: u64) -> u32
    requires { epoch ≤ last_epoch }
    ensures value { result ≡ bin_of epoch }
    ensures within { result ≤ 30 }
{
    let mut bin = 0u32;
    let mut power = 1u64;
    'digits: for k in 0..30u32 {
        bin += one_if(power <= epoch);
        power *= 2;
    }
    bin
}

#[inline(always)]
fn one_if(holds: bool) -> u32
    ensures value { result ≡ one_if holds }
    ensures within { result ≤ 1 }
{
    holds as u32
}
