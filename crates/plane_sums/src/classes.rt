//! How many overlaps of 64 samples are in each class.

ghost use Rattle.std.specs.Prelude.{◌≡◌, ℕ, ◌+◌, ◌<◌, ◌≤◌, ◌==◌, nat_abs, [], slice_index_or};
ghost use Rattle.measured_sums.specs.EpochBins.{class_of};
ghost use Rattle.plane_sums.specs.Correlations.{signed_at};
ghost use Rattle.spin_model.specs.Words.{one_if};

use lattice_geometry::Lattice;

/// Counts an overlap more of each sample.
pub(crate) fn count_classes(classes: &mut [[u32; 32]; 64], overlaps: &[i32; 64], lattice: Lattice)
    requires small { (b : ℕ) → b < 64 → nat_abs (signed_at overlaps.now b) ≤ 262144 }
    requires few { (b c : ℕ) → b < 64 → c < 32 → slice_index_or (slice_index_or classes.old b []) c 0 < 4294967295 }
    ensures { (b c : ℕ) → b < 64 → c < 32 → slice_index_or (slice_index_or classes.new b []) c 0
        ≡ slice_index_or (slice_index_or classes.old b []) c 0 + one_if (class_of lattice (signed_at overlaps.now b) == c) }
{
    'samples: for b in 0..64usize {
        let class = class_of(overlaps[b], lattice);
        count_class(&mut classes[b], class);
    }
}

// The class of an overlap by its absolute value.
fn class_of(overlap: i32, lattice: Lattice) -> usize
    requires { nat_abs overlap ≤ 262144 }
    ensures value { result ≡ class_of lattice overlap }
    ensures within { result < 32 }
{
    let class = 32 * overlap.unsigned_abs() / lattice.sites();
    class.min(31) as usize
}

// Counts one overlap more in its class.
fn count_class(classes: &mut [u32; 32], class: usize)
    requires class { class < 32 }
    requires few { (c : ℕ) → c < 32 → slice_index_or classes.old c 0 < 4294967295 }
    ensures { (c : ℕ) → c < 32 → slice_index_or classes.new c 0
        ≡ slice_index_or classes.old c 0 + one_if (class == c) }
{
    classes[class] += 1;
}
