//! The plan of a run: all that fixes its physics.

ghost use Rattle.std.specs.Prelude.{◌≡◌, ◌+◌, ◌≤◌, length};
ghost use Rattle.spin_model.specs.Limits.{most_sweeps};
ghost use Rattle.scalar_rule.specs.Plan.{IsLawfulPlan, slots_of};

use coupling_set::Couplings;
use lattice_geometry::Lattice;
use std::marker::Model;
use threshold_table::{RuleTable, SwapTable};

/// All that fixes the physics of a run: the lattice, the thresholds of the temperature slots and of
/// their pairs, the couplings of 64 disorder samples, the sweeps of an epoch and the seed.
#[derive(Drop)]
pub struct Plan {
    lattice: Lattice,
    rules: RuleTable,
    swaps: SwapTable,
    couplings: Couplings,
    sweeps: u32,
    seed: u64,
}

impl Model for Plan {
    ghost use Rattle.scalar_rule.specs.Plan as model;

    ghost Value = { model.Plan };

    ghost use Rattle.scalar_rule.specs.KeptPlan.{plan_of, KeepsPlan};

    ghost view = { plan_of };

    ghost invariant = { KeepsPlan };
}

impl Plan {
    /// The plan of these parts, which must fit each other.
    pub fn new(
        lattice: Lattice,
        rules: RuleTable,
        swaps: SwapTable,
        couplings: Couplings,
        sweeps: u32,
        seed: u64,
    ) -> Plan
        requires pairs { length swaps + 1 ≡ length rules.rows }
        requires couplings { couplings.size ≡ lattice }
        requires some_sweeps { 1 ≤ sweeps }
        requires few_sweeps { sweeps ≤ most_sweeps }
        requires seed { seed ≤ 9223372036854775807 }
        ensures { result ≡ record {
          size = lattice;
          rules = rules;
          swaps = swaps;
          couplings = couplings;
          sweeps = sweeps;
          seed = seed;
        } }
    {
        let _ = lattice.size();
        let _ = rules.slots();
        let _ = swaps.pairs();
        let _ = couplings.size();
        Plan {
            lattice,
            rules,
            swaps,
            couplings,
            sweeps,
            seed,
        }
    }

    /// The lattice.
    pub fn lattice(&self) -> Lattice
        ensures value { result ≡ self.now.size }
        ensures lawful { IsLawfulPlan self.now }
    {
        self.lattice
    }

    /// The number of temperature slots, slot 0 the coldest.
    pub fn slots(&self) -> u32
        ensures value { result ≡ slots_of self.now }
        ensures lawful { IsLawfulPlan self.now }
    {
        self.rules.slots()
    }

    /// The thresholds of the spin update, slot by slot.
    pub fn rules(&self) -> &RuleTable
        ensures value { result.now ≡ self.now.rules }
    {
        &self.rules
    }

    /// The thresholds of the exchange, pair by pair.
    pub fn swaps(&self) -> &SwapTable
        ensures value { result.now ≡ self.now.swaps }
    {
        &self.swaps
    }

    /// The couplings of the 64 disorder samples.
    pub fn couplings(&self) -> &Couplings
        ensures value { result.now ≡ self.now.couplings }
    {
        &self.couplings
    }

    /// The sweeps of an epoch, 1 to 1000000.
    pub fn sweeps(&self) -> u32
        ensures value { result ≡ self.now.sweeps }
    {
        self.sweeps
    }

    /// The seed, at most 2^63 - 1.
    pub fn seed(&self) -> u64
        ensures value { result ≡ self.now.seed }
    {
        self.seed
    }
}
