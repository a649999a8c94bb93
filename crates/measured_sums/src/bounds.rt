//! How many sites planes have, and how great sums over a field get: each law is the contract of a function with an empty body.

ghost use Rattle.measured_sums.specs.Laws.{CorrelationsAreBounded, LinksAreBounded, OverlapsAreAtMostOne, PlanesAreEqual, PlaneSumsAreBounded};
ghost use Rattle.measured_sums.specs.Bounds.{EpochsAreFew, GreatestSumsFit, SumsAreAtMost};

/// Each plane has as many sites as a face of the lattice.
pub fn planes_are_equal()
    ensures { PlanesAreEqual }
{}

/// The field of two configurations is nowhere above 1.
pub fn overlaps_are_at_most_one()
    ensures { OverlapsAreAtMostOne }
{}

/// The sum over a plane is at most its number of sites.
pub fn plane_sums_are_bounded()
    ensures { PlaneSumsAreBounded }
{}

/// A correlation is at most the fifth power of the side.
pub fn correlations_are_bounded()
    ensures { CorrelationsAreBounded }
{}

/// The link sum is at most the number of bonds.
pub fn links_are_bounded()
    ensures { LinksAreBounded }
{}

/// No sum is above as many times the greatest term as epochs are measured.
pub fn sums_are_at_most()
    ensures { SumsAreAtMost }
{}

/// No more epochs are measured than a run may have.
pub fn epochs_are_few()
    ensures { EpochsAreFew }
{}

/// As many of the greatest terms fit in 128 bits with a sign, of the correlations in 64.
pub fn greatest_sums_fit()
    ensures { GreatestSumsFit }
{}
