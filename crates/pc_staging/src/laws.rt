ghost use Rattle.pc_staging.specs.Laws.{StagingAllows, StagingIsKept, StagingStandsOn};

/// A law: what is kept of stages and commits stands on beside whatever else its session sends and hears.
pub fn staging_stands_on()
    ensures { StagingStandsOn }
{}

/// A law: which writes a stage lists, and that a write which is sent again, proved or found stays listed.
pub fn staging_is_kept()
    ensures { StagingIsKept }
{}

/// A law: which stage and which commit may be sent, by the evidence and the writes in flight.
pub fn staging_allows()
    ensures { StagingAllows }
{}
