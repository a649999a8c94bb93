//! What makes the printed observables those of the physics: laws over their definitions, and no code. Each
//! law is the contract of a function with an empty body.
#![tactic(auto)]

ghost use Rattle.observable_laws.specs.Observables.{OverlapIsASum, LinkSumIsASum, LineSumIsASum, LinesAreSymmetric, LinksAreShortestLines, TwoTimeOverlapIsASum, PottsEnergyIsASum};
ghost use Rattle.observable_laws.specs.QuenchedObservables.{DistancesAreLines, LinksAreLinkSums, TwoTimesAreAging};

/// The overlap of the records, twice the agreeing sites less all sites, is the sum of q over the sites.
pub fn overlap_is_a_sum()
    ensures { OverlapIsASum }
{}

/// The sum behind the link overlap is that of q q' over all bonds.
pub fn link_sum_is_a_sum()
    ensures { LinkSumIsASum }
{}

/// The sum of a line is that of q q' over all sites and the sites so many steps on.
pub fn line_sum_is_a_sum()
    ensures { LineSumIsASum }
{}

/// The line at distance r is the line at distance l - r: the boundary is periodic.
pub fn lines_are_symmetric()
    ensures { LinesAreSymmetric }
{}

/// The link overlap's sum is that of the three lines at distance 1.
pub fn links_are_shortest_lines()
    ensures { LinksAreShortestLines }
{}

/// The two-time overlap is the sum over the sites of the product of both times' spins.
pub fn two_time_overlap_is_a_sum()
    ensures { TwoTimeOverlapIsASum }
{}

/// The energy of the Potts glass is minus the sum of J over the bonds whose two colours are equal.
pub fn potts_energy_is_a_sum()
    ensures { PottsEnergyIsASum }
{}

/// What a quench prints of a distance is the sum of the three lines of that length.
pub fn distances_are_lines()
    ensures { DistancesAreLines }
{}

/// The link sum of a field is the sum behind the link overlap.
pub fn links_are_link_sums()
    ensures { LinksAreLinkSums }
{}

/// What a quench prints of a copy at two times is the two-time overlap at the sweeps of these times.
pub fn two_times_are_aging()
    ensures { TwoTimesAreAging }
{}
