//! What holds of the definitions: each law is the contract of a function with an empty body.

ghost use Rattle.exchange_board.specs.Laws.{ResumedRecordsGoOn, ResumedStateGoesOn};

/// The rows of a stopped board and of one that goes on from it, one after the other, are those of a
/// board that was not stopped.
pub fn resumed_records_go_on()
    ensures { ResumedRecordsGoOn }
{}

/// The state where a board ends that goes on from a stopped one is that of a board that was not
/// stopped.
pub fn resumed_state_goes_on()
    ensures { ResumedStateGoesOn }
{}
