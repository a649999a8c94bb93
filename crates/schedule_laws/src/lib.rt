//! Why every run ends: laws over the definitions of the exchange schedule, and no code. Each law is the
//! contract of a function with an empty body.
#![tactic(auto)]

ghost use Rattle.schedule_laws.specs.Events.{EventsAreFew, NoScheduleStops};

/// Each hand-out and each hand-back raises the sum of the progress numbers, which is bounded by four times
/// the last epoch for each slot. So there are no more events than that, in whatever order they come.
pub fn events_are_few()
    ensures { EventsAreFew }
{}

/// While no slot is in work, either all slots have come to the last epoch or one can be handed out.
pub fn no_schedule_stops()
    ensures { NoScheduleStops }
{}
