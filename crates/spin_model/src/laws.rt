//! What holds of the definitions: each law is the contract of a function with an empty body.

ghost use Rattle.spin_model.specs.Laws.{StreamIsRecurrence, StateIsWindow, AdvancingAddsUp, DrawsOfAdvanced, NeighboursHaveOtherColour};

/// The stream begins with its 61 words, and each later word is the sum modulo 2^32 of the words 24
/// and 55 before it (Parisi and Rapuano 1985).
pub fn stream_is_recurrence()
    ensures { StreamIsRecurrence }
{}

/// After n random numbers the state of a generator is the words n to n + 60 of its stream.
pub fn state_is_window()
    ensures { StateIsWindow }
{}

/// Advancing a stream by n numbers and then by m more is advancing it by n + m.
pub fn advancing_adds_up()
    ensures { AdvancingAddsUp }
{}

/// Random number m of a stream that was advanced by n is number n + m of the stream.
pub fn draws_of_advanced()
    ensures { DrawsOfAdvanced }
{}

/// On a lattice of lawful size no neighbour of a site has the site's checkerboard colour.
pub fn neighbours_have_other_colour()
    ensures { NeighboursHaveOtherColour }
{}
