//! What holds of the definitions: each law is the contract of a function with an empty body.

ghost use Rattle.run_laws.specs.AmountLaws.{PartsAreAccepted};
ghost use Rattle.run_laws.specs.LawfulRuns.{BanksReportsAreLawful, EndedReportsAreLawful, RunReportsAreLawful, StoppedReportsAreLawful};
ghost use Rattle.run_laws.specs.LengthLaws.{SavedCheckpointsAreShort};
ghost use Rattle.run_laws.specs.MeasureLaws.{SumsSaveAsRuns};
ghost use Rattle.run_laws.specs.NextRuns.{LawfulRunsGoOn};
ghost use Rattle.run_laws.specs.PackingLaws.{OrdersDontReachCheckpoints, PackingChangesNothing};
ghost use Rattle.run_laws.specs.RunsOfBanks.{RunsOfBanksAddUp};
ghost use Rattle.run_laws.specs.SampleBanks.{SamplesAreOfTheirBanks};
ghost use Rattle.run_laws.specs.SealLaws.{ChangedBytesAreRefused, OtherPlansAreRefused};
ghost use Rattle.run_laws.specs.StopsOfRuns.{StopsOfRunsAddUp};
ghost use Rattle.glass_main.specs.ResumeLaws.{AcceptedBanksAreEncodings, SavedBanksAreRead, SavedBanksGoOn, SavedRunsAreRead, SavedRunsGoOn};
ghost use Rattle.glass_main.specs.SampleLaws.{SamplesBelow64AreOfOneBank};
ghost use Rattle.glass_main.specs.SavedLaws.{EncodedStatesAreRead, ReadStatesAreEncoded};
ghost use Rattle.glass_main.specs.StopLaws.{AcceptedCheckpointsAreEncodings, SavedStopsAreRead, StoppedRunsAddUp};

/// The report of a run to an epoch, from its opening states or from a checkpoint whose records ahead are
/// within their ranges, is a lawful one.
pub fn run_reports_are_lawful()
    ensures { RunReportsAreLawful }
{}

/// The report of a run that may stop between epochs is a lawful one too; the records that it keeps ahead are within their
/// ranges again.
pub fn stopped_reports_are_lawful()
    ensures { StoppedReportsAreLawful }
{}

/// The report of a run that begins or stops with its slots at epochs of their own is a lawful one, where
/// the records that its starting state has ahead are within their ranges.
pub fn ended_reports_are_lawful()
    ensures { EndedReportsAreLawful }
{}

/// The report of a run of 2 to 4 banks, from its opening states or from those of a checkpoint, is a lawful
/// one.
pub fn banks_reports_are_lawful()
    ensures { BanksReportsAreLawful }
{}

/// The bytes of a checkpoint that a run goes on from are the encoding of what it goes on from.
pub fn accepted_checkpoints_are_encodings()
    ensures { AcceptedCheckpointsAreEncodings }
{}

/// What a run saved that stopped with its slots at different epochs is what the next one goes on from.
pub fn saved_stops_are_read()
    ensures { SavedStopsAreRead }
{}

/// The checkpoint of states of 64 samples at one epoch, that fit and are in time, is what the next run
/// goes on from as those states.
pub fn saved_runs_are_read()
    ensures { SavedRunsAreRead }
{}

/// What a run saved at an epoch, whose states there fit, is what the next run goes on from, and the two
/// add up to one run.
pub fn saved_runs_go_on()
    ensures { SavedRunsGoOn }
{}

/// The bytes of a checkpoint that a run of 2 to 4 banks goes on from are the encoding of what it goes on
/// from: states of each bank at one epoch, which is in time.
pub fn accepted_banks_are_encodings()
    ensures { AcceptedBanksAreEncodings }
{}

/// The checkpoint of states of 2 to 4 banks at one epoch, that fit and are in time, is what the next run
/// goes on from as those states.
pub fn saved_banks_are_read()
    ensures { SavedBanksAreRead }
{}

/// What a run of 2 to 4 banks saved at an epoch, whose states there fit, is what the next run goes on from.
/// The report of one run has the rows of both and the end and the spins of the next, whose checkpoint is its.
pub fn saved_banks_go_on()
    ensures { SavedBanksGoOn }
{}

/// No checkpoint that a run saves, at an epoch, where it stopped, or of 2 to 4 banks, is above the limit of
/// one that is read.
pub fn saved_checkpoints_are_short()
    ensures { SavedCheckpointsAreShort }
{}

/// Runs that stop and are resumed add up, however often and wherever they were stopped: the rows of
/// all of them, one after the other, are the rows of one run, and the spins and the checkpoint of the
/// last are those of the one.
pub fn stopped_runs_add_up()
    ensures { StoppedRunsAddUp }
{}

/// Runs that stop, the last one too, are one run: the one that stops after as many hand-outs of a slot as they
/// made comes to the state to which they come, and its report has their rows, one after the other.
pub fn stops_of_runs_add_up()
    ensures { StopsOfRunsAddUp }
{}

/// Runs of 2 to 4 banks that are saved and resumed add up, however often: the rows of all of them, one after
/// the other, are the rows of one run, and the spins and the checkpoint of the last are those of the one.
pub fn runs_of_banks_add_up()
    ensures { RunsOfBanksAddUp }
{}

/// By the name that has what a lawful run saved, whose states fit, the next run of the same plan and orders
/// begins with it: of 64 samples, of a run that stopped, or of 2 to 4 banks.
pub fn lawful_runs_go_on()
    ensures { LawfulRunsGoOn }
{}

/// Where a run is not refused for its amount, another one of the same plan and orders is refused for its
/// rows alone, and for nothing where it begins no sooner and ends no later.
pub fn parts_are_accepted()
    ensures { PartsAreAccepted }
{}

/// The bytes of a checkpoint whose link overlaps and correlation lines are printed are the encoding of the
/// states that they are of.
pub fn read_states_are_encoded()
    ensures { ReadStatesAreEncoded }
{}

/// The encoding of the states of 64 samples that fit, at an epoch of at most 1000000000, is read as those
/// states.
pub fn encoded_states_are_read()
    ensures { EncodedStatesAreRead }
{}

/// The records, the slots and the whole state of a sample below 64 of a run of several banks are, at every epoch
/// from the opening states on, those of the run with 64 samples of the same run file and the same files.
pub fn samples_below_64_are_of_one_bank()
    ensures { SamplesBelow64AreOfOneBank }
{}

/// Sample 64g + m of a run of several banks is bit m of bank g: its records, its slots and its whole state, at
/// every epoch from the opening states on, are those by the plan of that bank.
pub fn samples_are_of_their_banks()
    ensures { SamplesAreOfTheirBanks }
{}

/// Two runs that differ in their workers and pieces alone ask for the same; the text and the checkpoint of
/// a run that goes to its last epoch are one text and one checkpoint.
pub fn packing_changes_nothing()
    ensures { PackingChangesNothing }
{}

/// The checkpoint of a run to its last epoch doesn't depend on the samples, the epochs and the spins that
/// it prints.
pub fn orders_dont_reach_checkpoints()
    ensures { OrdersDontReachCheckpoints }
{}

/// Changed bytes of a checkpoint that keep the 32 bytes at its end are refused, unless what stands before
/// has the same SHA-256.
pub fn changed_bytes_are_refused()
    ensures { ChangedBytesAreRefused }
{}

/// The checkpoint of a plan is refused by every other one, unless the canonical bytes of both have the same
/// SHA-256.
pub fn other_plans_are_refused()
    ensures { OtherPlansAreRefused }
{}

/// A run that is measured has the checkpoint of the run from the same states, and asks for the same with other
/// workers and pieces.
pub fn sums_save_as_runs()
    ensures { SumsSaveAsRuns }
{}
