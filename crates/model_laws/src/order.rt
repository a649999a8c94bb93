//! The sites of a half sweep, and what heat bath can reach: each law is the contract of a function with an empty body.

ghost use Rattle.model_laws.specs.Order.{OrderMakesNoDifference, SitesGoAtOnce, DrawsActOnTheirSites, DrawsAreTheirOwn};
ghost use Rattle.model_laws.specs.Reaching.{BothSpinsCanCome, EveryConfigurationCanCome};

/// A half sweep over any list that names each site of the colour once is that in rising order.
pub fn order_makes_no_difference()
    ensures { OrderMakesNoDifference }
{}

/// A half sweep is all its sites at once, each from the spins before it.
pub fn sites_go_at_once()
    ensures { SitesGoAtOnce }
{}

/// A spin depends on no draw of a half sweep but that of its own site.
pub fn draws_act_on_their_sites()
    ensures { DrawsActOnTheirSites }
{}

/// No two sites go by the same number of the same generator.
pub fn draws_are_their_own()
    ensures { DrawsAreTheirOwn }
{}

/// Under heat bath both spins can come at a site whose threshold is neither 0 nor 2^32.
pub fn both_spins_can_come()
    ensures { BothSpinsCanCome }
{}

/// Where no threshold is 0 or 2^32, one sweep of heat bath can lead from every configuration to every
/// other.
pub fn every_configuration_can_come()
    ensures { EveryConfigurationCanCome }
{}
