//! Overlap fields and the correlations of their planes: each law is the contract of a function with an empty body.

ghost use Rattle.measured_sums.specs.Laws.{ClassesAddUp, DistancesAddUp, DistancesTurn, OverlapsAreEven, PlanesAddUp, TotalIsOverlap};

/// The sum of the field over all sites is the overlap of the records.
pub fn total_is_overlap()
    ensures { TotalIsOverlap }
{}

/// The sum of the field is even, and at most the number of sites.
pub fn overlaps_are_even()
    ensures { OverlapsAreEven }
{}

/// The planes of each family cut the lattice: the sums over them add up to that over all sites.
pub fn planes_add_up()
    ensures { PlanesAddUp }
{}

/// The correlation r planes on is that l - r planes on.
pub fn distances_turn()
    ensures { DistancesTurn }
{}

/// The correlations of a family at all distances add up to the square of the sum over all sites.
pub fn distances_add_up()
    ensures { DistancesAddUp }
{}

/// Each overlap is in one of the classes.
pub fn classes_add_up()
    ensures { ClassesAddUp }
{}
