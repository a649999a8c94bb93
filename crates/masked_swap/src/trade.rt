//! The swap of the samples in a mask.

ghost use Rattle.std.specs.Prelude.{◌≡◌, ℕ, ◌^◌, ◌<◌, if◌then◌else◌, length, slice_index, All};
ghost use Rattle.masked_swap.specs.Mask.{HaveSameLengths, AreTraded, AreTradedPlanes, IsTradedPlane};
ghost use Rattle.plane_sweep.specs.Packed.{part_copy, FitsReplica};
ghost use Rattle.scalar_rule.specs.Exchange.{traded};
ghost use Rattle.spin_model.specs.Words.{is_set};

use multispin_word::{bit, choose};
use plane_sweep::{Plane, Replica};

/// Swaps the spins and the labels of the samples in the mask; the others keep theirs, and all
/// generators stay. The replicas have equal lengths. Takes no memory.
pub fn exchange(cold: &mut Replica, hot: &mut Replica, mask: u64)
    requires { HaveSameLengths cold.old.planes hot.old.planes }
    ensures cold { (l b : ℕ) → b < 64
        → part_copy l b cold.new ≡ traded (is_set mask b) (part_copy l b cold.old) (part_copy l b hot.old) }
    ensures hot { (l b : ℕ) → b < 64
        → part_copy l b hot.new ≡ traded (is_set mask b) (part_copy l b hot.old) (part_copy l b cold.old) }
    ensures cold_lengths { HaveSameLengths cold.new.planes cold.old.planes }
    ensures hot_lengths { HaveSameLengths hot.new.planes hot.old.planes }
    ensures fits { (l : ℕ) → FitsReplica l cold.old → FitsReplica l hot.old
        → FitsReplica l cold.new × FitsReplica l hot.new }
{
    swap_planes(cold.planes.as_mut_slice(), hot.planes.as_mut_slice(), mask);
    swap_labels(&mut cold.labels, &mut hot.labels, mask);
}

// The spins of the samples in the mask, plane by plane.
fn swap_planes(cold: &mut [Plane], hot: &mut [Plane], mask: u64)
    requires { HaveSameLengths cold.old hot.old }
    ensures cold { AreTradedPlanes mask cold.old hot.old cold.new }
    ensures hot { AreTradedPlanes mask hot.old cold.old hot.new }
{
    'planes: for k in 0..cold.len() {
        swap_plane(&mut cold[k], &mut hot[k], mask);
    }
}

// The words of one plane; its generator stays.
fn swap_plane(cold: &mut Plane, hot: &mut Plane, mask: u64)
    requires { length cold.old.words ≡ length hot.old.words }
    ensures cold { IsTradedPlane mask cold.old hot.old cold.new }
    ensures hot { IsTradedPlane mask hot.old cold.old hot.new }
{
    swap_words(cold.words.as_mut_slice(), hot.words.as_mut_slice(), mask);
}

// The bits of the samples in the mask, word by word.
fn swap_words(cold: &mut [u64], hot: &mut [u64], mask: u64)
    requires { length cold.old ≡ length hot.old }
    ensures cold { AreTraded mask cold.old hot.old cold.new }
    ensures hot { AreTraded mask hot.old cold.old hot.new }
    ensures cold_range { All (λ word. word < 2 ^ 64) cold.new }
    ensures hot_range { All (λ word. word < 2 ^ 64) hot.new }
{
    'words: for i in 0..cold.len() {
        let (own, other) = (cold[i], hot[i]);
        cold[i] = choose(mask, other, own);
        hot[i] = choose(mask, own, other);
    }
}

// The labels of the samples in the mask.
fn swap_labels(cold: &mut [u8; 64], hot: &mut [u8; 64], mask: u64)
    ensures cold { (b : ℕ) → b < 64 → slice_index cold.new b
        ≡ (if is_set mask b then slice_index hot.old b else slice_index cold.old b) }
    ensures hot { (b : ℕ) → b < 64 → slice_index hot.new b
        ≡ (if is_set mask b then slice_index cold.old b else slice_index hot.old b) }
{
    'samples: for b in 0..64usize {
        swap_label(&mut cold[b], &mut hot[b], bit(mask, b as u32));
    }
}

// The labels of one sample, where it swaps.
#[inline]
fn swap_label(cold: &mut u8, hot: &mut u8, swap: bool)
    ensures cold { cold.new ≡ (if swap then hot.old else cold.old) }
    ensures hot { hot.new ≡ (if swap then cold.old else hot.old) }
{
    if swap {
        std::mem::swap(cold, hot);
    }
}
