//! The packed state of a run.

ghost use Rattle.std.specs.Prelude.{◌≡◌, ◌≢◌, ℕ, ◌<◌, IfOk};
ghost use Rattle.plane_sweep.specs.Packed.{part, StandsFor, StandFits, PermutesLabels};
ghost use Rattle.plane_sweep.specs.Sharing.{sharing};
ghost use Rattle.scalar_rule.specs.Opening as model;
ghost use Rattle.scalar_rule.specs.Shape.{Fits};

use crate::copying::{copied_pairs, copied_slots};
use crate::opening::{opening_pairs, opening_slots};
use crate::parts::{sample_pairs, sample_slots};
use crate::replica::Duo;
use crate::storing::{store_epoch, store_pairs, store_slots};
use glass_edges::NoMemory;
use plain_list::Items;
use pr_generator::Wheel;
use scalar_rule::{Plan, Sample, Start};
use std::alloc::Global;

/// The two exchange generators of a pair of neighbouring slots, one for each replica, shared by all
/// samples.
#[derive(Drop)]
pub struct PairWheels {
    pub first: Wheel,
    pub second: Wheel,
}

impl PairWheels {
    /// Generators in the same states. Takes no memory.
    pub fn copy(&self) -> PairWheels
        ensures { result ≡ self.now }
    {
        PairWheels {
            first: self.first.copy(),
            second: self.second.copy(),
        }
    }
}

/// The packed state of 64 disorder samples.
#[derive(Drop)]
pub struct Stand {
    /// The number of epochs done.
    pub epoch: u64,
    /// One entry per temperature slot, slot 0 the coldest.
    pub slots: Items<Duo>,
    /// One entry per pair: pair k is slots k and k + 1.
    pub pairs: Items<PairWheels>,
}

impl Stand {
    /// The states that the 64 disorder samples of bank 0 begin with: epoch 0, each replica labelled
    /// by its slot, the generators as the seed gives them.
    ///
    /// # Errors
    ///
    /// Refuses only for lack of memory.
    pub fn opening(alloc: Global, plan: &Plan, start: Start) -> Result<Stand, NoMemory>
        ensures opening { IfOk result (StandsFor plan.now (model.opening plan.now start 0)) }
        ensures fits { IfOk result (StandFits plan.now) }
    {
        Stand::opening_bank(alloc, plan, start, 0)
    }

    /// The states that the 64 disorder samples of a bank begin with, sample 64 bank + b in bit b: as
    /// `opening`, but the generators of the exchanges and of a random start are the bank's. There
    /// are four banks.
    ///
    /// # Errors
    ///
    /// Refuses only for lack of memory.
    pub fn opening_bank(
        alloc: Global,
        plan: &Plan,
        start: Start,
        bank: u32,
    ) -> Result<Stand, NoMemory>
        requires { bank < 4 }
        ensures opening { IfOk result (StandsFor plan.now (model.opening plan.now start bank)) }
        ensures fits { IfOk result (StandFits plan.now) }
    {
        Ok(Stand {
            epoch: 0,
            slots: opening_slots(alloc, plan, start, bank)?,
            pairs: opening_pairs(alloc, plan, bank)?,
        })
    }

    /// The state of one sample, with copies of the generators.
    ///
    /// # Errors
    ///
    /// Refuses only for lack of memory.
    pub fn sample(&self, alloc: Global, plan: &Plan, bit: u32) -> Result<Sample, NoMemory>
        requires stand { StandFits plan.now self.now }
        requires bit { bit < 64 }
        ensures part { IfOk result (λ sample. sample ≡ part plan.now.size bit self.now) }
        ensures fits { IfOk result (Fits plan.now) }
        ensures labels { IfOk result (PermutesLabels plan.now) }
    {
        Ok(Sample {
            bit,
            epoch: self.epoch,
            slots: sample_slots(alloc, plan, &self.slots, bit)?,
            pairs: sample_pairs(alloc, &self.pairs)?,
        })
    }

    /// Writes one sample back into its bit: its spins and labels, and for all samples the
    /// generators and the epoch. The spins and labels of the others stay. Takes no memory.
    pub fn store(&mut self, plan: &Plan, sample: &Sample)
        requires stand { StandFits plan.now self.old }
        requires sample { Fits plan.now sample.now }
        requires labels { PermutesLabels plan.now sample.now }
        ensures own { part plan.now.size sample.now.bit self.new ≡ sample.now }
        ensures others { (b : ℕ) → b < 64 → b ≢ sample.now.bit
            → part plan.now.size b self.new ≡ sharing sample.now (part plan.now.size b self.old) }
        ensures fits { StandFits plan.now self.new }
    {
        store_epoch(&mut self.epoch, sample.epoch);
        store_slots(&mut self.slots, plan, &sample.slots, sample.bit);
        store_pairs(&mut self.pairs, &sample.pairs);
    }

    /// An equal state.
    ///
    /// # Errors
    ///
    /// Refuses only for lack of memory.
    pub fn copy(&self, alloc: Global) -> Result<Stand, NoMemory>
        ensures { IfOk result (λ stand. stand ≡ self.now) }
    {
        Ok(Stand {
            epoch: self.epoch,
            slots: copied_slots(alloc, &self.slots)?,
            pairs: copied_pairs(alloc, &self.pairs)?,
        })
    }
}
