//! The motion after a quench: each law is the contract of a function with an empty body.

ghost use Rattle.quenched_states.specs.Laws.{OneSlotIsSerial, StillComposes, StillSweeps};

/// To an epoch, and on from there to a later one, is the same as to the later one at once.
pub fn still_composes()
    ensures { StillComposes }
{}

/// An epoch more is the sweeps that an epoch of the serial dynamics has before its exchange.
pub fn still_sweeps()
    ensures { StillSweeps }
{}

/// With one slot, sweeps without exchange are the serial dynamics.
pub fn one_slot_is_serial()
    ensures { OneSlotIsSerial }
{}
