ghost use Rattle.pc_world.specs.Laws.{EvaluationRaisesByOne, BeginningsAreRuns, StepsArePlaces, RunsAreKept, RunsAreBounded, TimestampsAreBelowGreatest, SentRequestsHaveRoom, ProtocolIsWorld};

/// A law: no evaluation raises a timestamp by more than one.
pub fn evaluation_raises_by_one()
    ensures { EvaluationRaisesByOne }
{}

/// A law: what was a run up to some entry is one still when that is its last.
pub fn beginnings_of_runs_are_runs()
    ensures { BeginningsAreRuns }
{}

/// A law: the entries of a run are numbered from 0 upwards.
pub fn steps_are_places()
    ensures { StepsArePlaces }
{}

/// A law: the timestamps of a run grow by at most one with each entry, from the end of the clock's range.
pub fn runs_are_kept()
    ensures { RunsAreKept }
{}

/// A law: so do those of the ranges, and those that the actors know of.
pub fn runs_are_bounded()
    ensures { RunsAreBounded }
{}

/// A law: no run is long enough to reach the greatest timestamp.
pub fn every_timestamp_is_below_the_greatest()
    ensures { TimestampsAreBelowGreatest }
{}

/// A law: so a range can evaluate whatever was sent in a run.
pub fn sent_requests_have_room()
    ensures { SentRequestsHaveRoom }
{}

/// A law: a table of steps may run the protocol.
pub fn protocol_is_a_world()
    ensures { ProtocolIsWorld }
{}
