//! The update of one site in all samples.

ghost use Rattle.std.specs.Prelude.{◌≡◌, ℕ, ◌<◌, ◌==◌, not};
ghost use Rattle.multispin_word.specs.Planes.{is_set};
ghost use Rattle.potts_glass.specs.Potts as model;
ghost use Rattle.potts_glass.specs.PackedColours.{colour_in, seen};
ghost use Rattle.potts_glass.specs.SitesBeside.{site_in};

use crate::beside::update_sites;
use multispin_word::broadcast;

/// The thresholds of the update at one temperature: `values[g - 1]` is the probability of a change
/// that costs the energy g, times 2^32.
#[derive(Clone, Copy, Debug)]
pub struct PottsRow {
    pub values: [u64; 6],
}

/// The new colours of a site, as its two words: the low bits and the high bits, one bit a sample.
///
/// `step` and `draw` come from the site's two random numbers, the same for all samples. `near` has
/// the words of the six neighbours, and `negative` for each of the six bonds the samples in which J
/// is -1.
#[inline]
pub fn potts_update(
    step: u32,
    draw: u32,
    row: &PottsRow,
    own: [u64; 2],
    near: &[[u64; 2]; 6],
    negative: &[u64; 6],
) -> [u64; 2]
    requires { step < 3 }
    ensures { (b : ℕ) → b < 64 → colour_in result b
        ≡ model.new_colour row.now.values step draw
        (seen near.now negative.now b) (colour_in own b) }
{
    let steps = [[broadcast(step != 1)], [broadcast(step != 0)]];
    let [a, b, c, d, e, f] = *near;
    let near = [alone(a), alone(b), alone(c), alone(d), alone(e), alone(f)];
    let [a, b, c, d, e, f] = *negative;
    let negative = [[a], [b], [c], [d], [e], [f]];
    let [low, high] = update_sites(&steps, &[draw], row, &alone(own), &near, &negative);
    [low[0], high[0]]
}

/// A site with none beside it.
#[inline(always)]
fn alone(site: [u64; 2]) -> [[u64; 1]; 2]
    ensures { (b : ℕ) → colour_in (site_in result 0) b ≡ colour_in site b }
{
    [[site[0]], [site[1]]]
}

/// The samples in which two sites have one colour.
#[inline]
pub(crate) fn same(a: [u64; 2], b: [u64; 2]) -> u64
    ensures { (k : ℕ) → k < 64 → is_set result k ≡ (colour_in a k == colour_in b k) }
{
    others((a[0] ^ b[0]) | (a[1] ^ b[1]))
}

/// The samples that are not set.
#[inline]
pub(crate) fn others(word: u64) -> u64
    ensures { (b : ℕ) → b < 64 → is_set result b ≡ not (is_set word b) }
{
    !word
}
