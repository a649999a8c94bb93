//! What holds of the definitions: each law is the contract of a function with an empty body.

ghost use Rattle.plane_sweep.specs.Laws.{LabelsPermuteAfterExchange, LabelsPermuteAfterEpochs, PartsAreStartingStates};

/// One exchange leaves the labels of a sample's slots a permutation of the slots' numbers.
pub fn labels_permute_after_exchange()
    ensures { LabelsPermuteAfterExchange }
{}

/// So do the epochs of the serial dynamics.
pub fn labels_permute_after_epochs()
    ensures { LabelsPermuteAfterEpochs }
{}

/// The parts of a packed state that fits the plan are states that a run can start with: of one epoch,
/// with the same generators in all 64 samples.
pub fn parts_are_starting_states()
    ensures { PartsAreStartingStates }
{}
