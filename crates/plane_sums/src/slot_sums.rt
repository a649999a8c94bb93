//! The sums of a slot by bin.

ghost use Rattle.std.specs.Prelude.{◌≡◌, ℕ, ◌+◌, ◌-◌, ◌<◌, ◌≤◌, ◌==◌, false, ◌+ℤ◌, pos, ◌↔◌, IsTrue, length, IfOk};
ghost use Rattle.measured_sums.specs.EpochBins.{bin_of};
ghost use Rattle.measured_sums.specs.MeasuredSums.{Observed, Quantity, term_of};
ghost use Rattle.plane_sums.specs.Bins.{bin_at, sum_in, AreBins, AreEmpty};
ghost use Rattle.plane_sums.specs.Measured.{HasSum, IsWithin, Tells};
ghost use Rattle.spin_model.specs.Limits.{last_epoch};

use crate::epoch_bins::{BinSums, bin_of};
use crate::measured::Measured;
use glass_edges::NoMemory;
use lattice_geometry::Lattice;
use plain_list::Items;
use std::alloc::Global;
use std::marker::Model;

/// The sums of 64 samples in a slot, by bin of epochs.
#[derive(Drop)]
pub struct SlotSums {
    first: u32,
    bins: Items<BinSums>,
}

impl Model for SlotSums {
    ghost use Rattle.plane_sums.specs.Bins.{SumsView};

    ghost Value = { SumsView };

    ghost use Rattle.plane_sums.specs.Sums.{KeepsSums, sums_view};

    ghost view = { sums_view };

    ghost invariant = { KeepsSums };
}

impl SlotSums {
    /// Sums over no epoch, with room for all from one to another.
    ///
    /// # Errors
    ///
    /// Refuses only for lack of memory.
    pub fn none(alloc: Global, first: u64, last: u64) -> Result<SlotSums, NoMemory>
        requires first { first ≤ last_epoch }
        requires last { last ≤ last_epoch }
        ensures first { IfOk result (λ sums. sums.first ≡ bin_of first) }
        ensures bins { IfOk result (λ sums. length sums.bins ≡ bin_of last + 1 - bin_of first) }
        ensures zero { IfOk result (λ sums. (k b : ℕ) (quantity : Quantity) → bin_of first ≤ k → k ≤ bin_of last
            → sum_in (bin_at sums k) b quantity ≡ pos 0) }
    {
        let begin = bin_of(first);
        let count = (bin_of(last) + 1).saturating_sub(begin) as usize;
        let bins = empty_bins(alloc, count)?;
        Ok(SlotSums { first: begin, bins })
    }

    /// Adds what is measured in an epoch to the sums of its bin.
    pub fn add(&mut self, epoch: u64, seen: &Measured, lattice: Lattice)
        requires epoch { epoch ≤ last_epoch }
        requires within { IsWithin lattice seen.now }
        requires from { self.old.first ≤ bin_of epoch }
        requires to { bin_of epoch < self.old.first + length self.old.bins }
        requires few { (bin_at self.old (bin_of epoch)).epochs < last_epoch }
        ensures added { (observed : ℕ → Observed) → Tells lattice seen.now observed
            → (b : ℕ) (quantity : Quantity) → b < 64 → HasSum lattice quantity
            → sum_in (bin_at self.new (bin_of epoch)) b quantity
            ≡ sum_in (bin_at self.old (bin_of epoch)) b quantity +ℤ term_of lattice (observed b) quantity }
        ensures others { (k : ℕ) → self.old.first ≤ k → (k == bin_of epoch) ≡ false
            → bin_at self.new k ≡ bin_at self.old k }
        ensures first { self.new.first ≡ self.old.first }
        ensures bins { length self.new.bins ≡ length self.old.bins }
    {
        let bin = (bin_of(epoch) - self.first) as usize;
        self.bins.at_mut(bin).add(seen, lattice);
    }

    /// Whether there is room for the epochs of a bin.
    pub fn has_bin(&self, bin: u32) -> bool
        ensures { IsTrue result ↔ (self.now.first ≤ bin) × (bin < self.now.first + length self.now.bins) }
    {
        self.first <= bin && ((bin - self.first) as usize) < self.bins.len()
    }

    /// The sums of a bin.
    pub fn bin(&self, bin: u32) -> &BinSums
        requires from { self.now.first ≤ bin }
        requires to { bin < self.now.first + length self.now.bins }
        ensures { result.now ≡ bin_at self.now bin }
    {
        self.bins.at((bin - self.first) as usize)
    }
}

// Bins without an epoch.
fn empty_bins(alloc: Global, count: usize) -> Result<Items<BinSums>, NoMemory>
    requires { count ≤ 31 }
    ensures long { IfOk result (λ bins. length bins ≡ count) }
    ensures bins { IfOk result AreBins }
    ensures zero { IfOk result AreEmpty }
{
    let mut bins = Vec::with_capacity(alloc, count)?;
    'bins: for bin in 0..count {
        bins.push(BinSums::none())?;
    }
    Ok(Items::of(bins))
}
