//! What holds of the definitions: the law is the contract of a function with an empty body.

ghost use Rattle.aging_run.specs.Laws.{TextIsOfTheStates};

/// The text of an aging run from a packed state is that from the states of its samples, one at a
/// time.
pub fn text_is_of_the_states()
    ensures { TextIsOfTheStates }
{}
