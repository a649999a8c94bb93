//! Overlap fields of copies: each law is the contract of a function with an empty body.

ghost use Rattle.quenched_states.specs.Laws.{CopiesTurn, DistancesAreBounded, DistancesAreFours, FieldsAreSymmetric, TrianglesHold, TwoTimesAreCopies};

/// The field of a copy at two times is that of two of the four copies of both states.
pub fn two_times_are_copies()
    ensures { TwoTimesAreCopies }
{}

/// Where two states change places, their four copies are turned by two.
pub fn copies_turn()
    ensures { CopiesTurn }
{}

/// The field of two configurations is that of the second and the first.
pub fn fields_are_symmetric()
    ensures { FieldsAreSymmetric }
{}

/// The three overlaps of any three configurations add up to minus the number of sites at least.
pub fn triangles_hold()
    ensures { TrianglesHold }
{}

/// The sum over pairs of sites some steps apart is at most the number of these pairs.
pub fn distances_are_bounded()
    ensures { DistancesAreBounded }
{}

/// The sum over pairs of sites some steps apart, of the field of two configurations, is a multiple of 4.
pub fn distances_are_fours()
    ensures { DistancesAreFours }
{}
