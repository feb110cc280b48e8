ghost use Rattle.pc_flight.specs.Laws.{FlightsHold};

/// A law: what the writes in flight say of the writes that the session knows: which may be sent again, which are proved, and which
/// sequence is the next.
pub fn flights_hold()
    ensures { FlightsHold }
{}
