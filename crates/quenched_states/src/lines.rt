//! Kept states and their lines: each law is the contract of a function with an empty body.

ghost use Rattle.quenched_states.specs.Laws.{KeptStatesGoOn, LinesAddUp, QuenchesAddUp};

/// A quench that goes on from kept states keeps those that it would have kept at once.
pub fn kept_states_go_on()
    ensures { KeptStatesGoOn }
{}

/// The lines of some states, and those of the states behind them, are the lines of all of these.
pub fn lines_add_up()
    ensures { LinesAddUp }
{}

/// The lines of a quench to the first times, and those of the one that goes on from the states that it kept,
/// are those of all times at once.
pub fn quenches_add_up()
    ensures { QuenchesAddUp }
{}
