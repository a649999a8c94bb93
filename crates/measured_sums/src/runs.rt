//! Sums over runs: each law is the contract of a function with an empty body.

ghost use Rattle.measured_sums.specs.Laws.{BinsAreBetween, BinsAreDigits, BinsCoverTheRun, DistancesOfBins, EpochsAddUp, HistogramsAddUp, NumberIsEpochs, PartsAddUp, RowsHaveTheSame, SumsAreBounded, SumsBegin, SumsGrow};

/// The bin of an epoch is the number of its binary digits.
pub fn bins_are_digits()
    ensures { BinsAreDigits }
{}

/// A bin with a measured epoch lies between that of the run's first epoch and that of its last.
pub fn bins_are_between()
    ensures { BinsAreBetween }
{}

/// The first number of a bin is how many measured epochs it has, in every sample and slot.
pub fn number_is_epochs()
    ensures { NumberIsEpochs }
{}

/// The sums of a run to an epoch, and of the run that goes on from there, are those of the whole run.
pub fn parts_add_up()
    ensures { PartsAddUp }
{}

/// So are the numbers of measured epochs.
pub fn epochs_add_up()
    ensures { EpochsAddUp }
{}

/// Where a run begins, a slot's sums are 0.
pub fn sums_begin()
    ensures { SumsBegin }
{}

/// Each epoch of the serial dynamics adds to a slot's sums what is observed in it, where it is measured,
/// in its own bin alone.
pub fn sums_grow()
    ensures { SumsGrow }
{}

/// What is summed up of a slot and epoch is what the row of a report has.
pub fn rows_have_the_same()
    ensures { RowsHaveTheSame }
{}

/// The sums over all bins are those over all measured epochs.
pub fn bins_cover_the_run()
    ensures { BinsCoverTheRun }
{}

/// A bin's classes have each of its measured epochs once.
pub fn histograms_add_up()
    ensures { HistogramsAddUp }
{}

/// The correlations of a bin, at the distances from 0 to half the side, make up the squares of its
/// overlaps.
pub fn distances_of_bins()
    ensures { DistancesOfBins }
{}

/// The inequalities that hold between the sums of a bin.
pub fn sums_are_bounded()
    ensures { SumsAreBounded }
{}
