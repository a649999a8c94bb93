//! The bytes of kept states: each law is the contract of a function with an empty body.

ghost use Rattle.quenched_states.specs.AcceptLaws.{AcceptedAreStates, AcceptedBytesAreKept, KeptStatesAreAccepted};
ghost use Rattle.quenched_states.specs.ByteLaws.{KeptBytesAreLong, KeptBytesAreOne, KeptBytesAreRead, KeptBytesHaveFrame};

/// Kept states have 44 bytes and as many as their checkpoints.
pub fn kept_bytes_are_long()
    ensures { KeptBytesAreLong }
{}

/// The states that were written are those that are read.
pub fn kept_bytes_are_read()
    ensures { KeptBytesAreRead }
{}

/// What was written passes the tests of its frame.
pub fn kept_bytes_have_frame()
    ensures { KeptBytesHaveFrame }
{}

/// Bytes that pass the tests of the frame are those of the states that are read in them.
pub fn kept_bytes_are_one()
    ensures { KeptBytesAreOne }
{}

/// The bytes of states that pass and are at their times are accepted, whatever the tests of one state are.
pub fn kept_states_are_accepted<E>()
    ensures { KeptStatesAreAccepted E }
{}

/// What is accepted are states that pass and are at their times.
pub fn accepted_are_states<E>()
    ensures { AcceptedAreStates E }
{}

/// Kept states that are accepted are the bytes of the states that are read.
pub fn accepted_bytes_are_kept<E>()
    ensures { AcceptedBytesAreKept E }
{}
