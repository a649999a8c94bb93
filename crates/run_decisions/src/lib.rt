//! A run of the defined dynamics as a list of decisions, each by a draw of its own: each law is the
//! contract of a function with an empty body.
#![tactic(auto)]

ghost use Rattle.run_decisions.specs.Runs.{RunsAreDecisions, DrawsAreOwn, DecisionsAreLawful, SweepsVisitEachOnce, TurnsAlternate, SweptStatesAreDecisions, RecordsAreOfSweptStates, PrintedNumbersAreDecisions, DecisionsAreCounted, GeneratorsAreLabelled, LabelsAreOwn, MessagesAreOwn, SweepsAloneAreDecisions};

/// After any number of epochs the spins are those after the decisions of these epochs in order, each
/// by the draw at its address.
pub fn runs_are_decisions()
    ensures { RunsAreDecisions }
{}

/// No two decisions of a run go by the draw at one address.
pub fn draws_are_own()
    ensures { DrawsAreOwn }
{}

/// Each decision is about places and sites that there are.
pub fn decisions_are_lawful()
    ensures { DecisionsAreLawful }
{}

/// A sweep updates each site once.
pub fn sweeps_visit_each_once()
    ensures { SweepsVisitEachOnce }
{}

/// Two neighbouring slots of a replica are exchanged in one of two epochs that follow, and not in the
/// other.
pub fn turns_alternate()
    ensures { TurnsAlternate }
{}

/// The state that is measured at an epoch is that after the decisions of the epochs before and of its
/// own sweeps.
pub fn swept_states_are_decisions()
    ensures { SweptStatesAreDecisions }
{}

/// The records have the energies and overlaps of that state.
pub fn records_are_of_swept_states()
    ensures { RecordsAreOfSweptStates }
{}

/// The numbers of a report are measured in what the decisions since the start have made, each by its
/// own draw.
pub fn printed_numbers_are_decisions()
    ensures { PrintedNumbersAreDecisions }
{}

/// How many decisions a run makes at most.
pub fn decisions_are_counted()
    ensures { DecisionsAreCounted }
{}

/// At the start of a run each generator has the words of its label.
pub fn generators_are_labelled()
    ensures { GeneratorsAreLabelled }
{}

/// No two generators of a run have one label.
pub fn labels_are_own()
    ensures { LabelsAreOwn }
{}

/// The words of two generators of a run, and of two blocks of one, are digests of different messages.
pub fn messages_are_own()
    ensures { MessagesAreOwn }
{}

/// The sweeps of one replica alone, as in an aging run, are their decisions in order, each by a draw of
/// its own.
pub fn sweeps_alone_are_decisions()
    ensures { SweepsAloneAreDecisions }
{}
