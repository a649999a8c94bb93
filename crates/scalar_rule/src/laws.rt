//! What holds of the definitions: each law is the contract of a function with an empty body.

ghost use Rattle.scalar_rule.specs.Laws.{EnergiesHaveOneParity, ResumingGoesOn, RecordsGoOn, RecordedEpochsAreCounted, WordsStaySame, LevelStartIsSerial, LevelStartWaits, LevelGeneratorsAreSerial, LevelEndIsSerial, LevelRecordsAreSerial, ReachedStateGoesOn, ReachedStateWaits, ReachedGeneratorsGoOn, ReachedEndIsSame, ReachedRecordsGoOn, StepsAreShort, PendingRecordsAreFew, CompletedSlotsRest};

/// All configurations of one disorder sample have an equal number of unsatisfied bonds modulo 2, so
/// the gap between two of them is even.
pub fn energies_have_one_parity()
    ensures { EnergiesHaveOneParity }
{}

/// Stopping at an epoch and resuming from the state there is going on.
pub fn resuming_goes_on()
    ensures { ResumingGoesOn }
{}

/// The records up to an epoch, followed by those of the states that stand there, are the records of
/// the whole run.
pub fn records_go_on()
    ensures { RecordsGoOn }
{}

/// The number of recorded epochs from one on and below another is how many of these are recorded.
pub fn recorded_epochs_are_counted()
    ensures { RecordedEpochsAreCounted }
{}

/// All samples of a bank that begin with equal generator words keep equal words: the generators
/// move by counts that do not depend on the spins.
pub fn words_stay_same()
    ensures { WordsStaySame }
{}

/// Where all slots start at one epoch, the content of a slot at rest is that of the serial
/// dynamics.
pub fn level_start_is_serial()
    ensures { LevelStartIsSerial }
{}

/// The content of a slot that waits there for its partner is the same after its sweeps.
pub fn level_start_waits()
    ensures { LevelStartWaits }
{}

/// The exchange generators of a pair are those of the serial dynamics.
pub fn level_generators_are_serial()
    ensures { LevelGeneratorsAreSerial }
{}

/// So the state with every slot at rest at one epoch is that of the serial dynamics.
pub fn level_end_is_serial()
    ensures { LevelEndIsSerial }
{}

/// And the records are those of its run.
pub fn level_records_are_serial()
    ensures { LevelRecordsAreSerial }
{}

/// From a state whose slots have the content of another's at later positions, which may differ from
/// slot to slot, the content of a slot at rest is that from the other.
pub fn reached_state_goes_on()
    ensures { ReachedStateGoesOn }
{}

/// The same of a slot that waits for its partner; so its records are the same.
pub fn reached_state_waits()
    ensures { ReachedStateWaits }
{}

/// The same of the exchange generators of a pair.
pub fn reached_generators_go_on()
    ensures { ReachedGeneratorsGoOn }
{}

/// So the state with every slot at rest at one epoch is that from the other.
pub fn reached_end_is_same()
    ensures { ReachedEndIsSame }
{}

/// The records until the least completed epoch of the states that are reached, followed by those of a
/// run from there, are the records of the whole run.
pub fn reached_records_go_on()
    ensures { ReachedRecordsGoOn }
{}

/// Slots in step are at most as many completed epochs apart as there are slots.
pub fn steps_are_short()
    ensures { StepsAreShort }
{}

/// So the records that are kept ahead of the least completed epoch are at most as many as printed
/// samples times the square of the slots.
pub fn pending_records_are_few()
    ensures { PendingRecordsAreFew }
{}

/// Slots in step that together have completed as many epochs as if each had ended have all ended, and
/// none waits.
pub fn completed_slots_rest()
    ensures { CompletedSlotsRest }
{}
