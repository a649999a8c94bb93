//! What makes the Potts glass that of the physics: laws over its definitions, and no code. Each law
//! is the contract of a function with an empty body.
#![tactic(auto)]

ghost use Rattle.potts_laws.specs.Laws.{UpdatesKeepTheRest, ProposalsAreCounted, GapIsEnergyChange, WeightsAreBoltzmann, UpdatesBalance, UpdatesStayNearEquilibrium, HalfSweepsAreUpdates, SweepsStayNearEquilibrium, PartitionIsPositive};

/// The update of a site writes its colour and nothing else.
pub fn updates_keep_the_rest()
    ensures { UpdatesKeepTheRest }
{}

/// Of the 2^32 first draws, 1431655766 propose the next colour, and 1431655765 each of the two others.
pub fn proposals_are_counted()
    ensures { ProposalsAreCounted }
{}

/// The gap of a change is what it adds to the energy of the lattice.
pub fn gap_is_energy_change()
    ensures { GapIsEnergyChange }
{}

/// The whole-number weights are Boltzmann's: an energy greater by m is worth m factors a / b, which
/// stands for exp(-beta).
pub fn weights_are_boltzmann()
    ensures { WeightsAreBoltzmann }
{}

/// Each change of a colour is in detailed balance with the change back, to within one proposal draw
/// and the rounding of the threshold.
pub fn updates_balance()
    ensures { UpdatesBalance }
{}

/// Any updates of sites, by independent draws, leave the mean of every observable near its mean in
/// equilibrium.
pub fn updates_stay_near_equilibrium()
    ensures { UpdatesStayNearEquilibrium }
{}

/// A half sweep is the updates of the sites of its class, in rising order.
pub fn half_sweeps_are_updates()
    ensures { HalfSweepsAreUpdates }
{}

/// Sweeps by independent draws leave the mean of every observable near its mean in equilibrium.
pub fn sweeps_stay_near_equilibrium()
    ensures { SweepsStayNearEquilibrium }
{}

/// The sum of all weights is positive, so that the means are there.
pub fn partition_is_positive()
    ensures { PartitionIsPositive }
{}
