ghost use Rattle.pc_reads.specs.ReadsStanding.{ReadsAreGood, ReadsStandOn};

/// A law: what stands beside what its session knows is good at the timestamp at which the transaction reads, so that a commit there may be sent.
pub fn reads_are_good()
    ensures { ReadsAreGood }
{}

/// A law: it stands so whatever else is heard.
pub fn reads_stand_on()
    ensures { ReadsStandOn }
{}
