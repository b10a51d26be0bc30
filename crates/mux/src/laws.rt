//! What holds of all histories.

ghost use Rattle.mux.specs.Faithful.{OutputsAgree, OutputIsUnique, OpensOnce, EventsAreAppended};

/// Of two lawful histories over one schedule and the same packets, one's output begins the other's.
pub fn outputs_agree()
    ensures { OutputsAgree }
{}

/// If both are finished at the same number of slots, their output is the same.
pub fn output_is_unique()
    ensures { OutputIsUnique }
{}

/// A history is opened first, and once.
pub fn opens_once()
    ensures { OpensOnce }
{}

/// One more event stands behind all others.
pub fn events_are_appended()
    ensures { EventsAreAppended }
{}
