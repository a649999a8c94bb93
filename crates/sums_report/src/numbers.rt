//! The numbers of a sample in a bin, in the order of the lines.

ghost use Rattle.std.specs.Prelude.{◌≡◌, ℕ, ◌+◌, ◌/◌, ◌<◌, ◌≤◌, pos, [], length, map, take, slice_index_or};
ghost use Rattle.measured_sums.specs.MeasuredSums.{axis_distances, classes, face_distances, moments};
ghost use Rattle.plane_sums.specs.Bins.{moment_in, sum_in};
ghost use Rattle.plane_sums.specs.Correlations.{signed_at};

use plane_sums::BinSums;

/// The number of epochs, and the sums of energies, links and overlaps.
pub(crate) fn moments_of(bin: &BinSums, b: usize) -> [i128; 12]
    requires { b < 64 }
    ensures { result ≡ map (sum_in bin.now b) moments }
{
    [
        bin.epochs as i128,
        moment(bin, b, 0),
        moment(bin, b, 1),
        moment(bin, b, 2),
        moment(bin, b, 3),
        moment(bin, b, 4),
        moment(bin, b, 5),
        moment(bin, b, 6),
        moment(bin, b, 7),
        moment(bin, b, 8),
        moment(bin, b, 9),
        moment(bin, b, 10),
    ]
}

#[inline(always)]
fn moment(bin: &BinSums, b: usize, k: usize) -> i128
    requires sample { b < 64 }
    requires moment { k < 11 }
    ensures { result ≡ moment_in bin.now b k }
{
    bin.moments[b][k]
}

/// How many overlaps are in each class.
pub(crate) fn classes_of(bin: &BinSums, b: usize) -> [i128; 32]
    requires { b < 64 }
    ensures { result ≡ map (sum_in bin.now b) classes }
{
    let mut counts = [0i128; 32];
    'classes: for c in 0..32usize {
        counts[c] = bin.classes[b][c] as i128;
    }
    counts
}

/// A sample's sums at all distances.
pub(crate) fn column_of(sums: &[[i64; 64]; 33], b: usize) -> [i128; 33]
    requires { b < 64 }
    ensures length { length result ≡ 33 }
    ensures value { (r : ℕ) → r < 33 → signed_at result r ≡ signed_at (slice_index_or sums.now r []) b }
{
    let mut column = [0i128; 33];
    'distances: for r in 0..33usize {
        column[r] = sums[r][b] as i128;
    }
    column
}
