ghost use Rattle.pc_implicit.specs.Staging.{CommitsStay, MissingStays, RecoveriesAgree, StagedWritesStay, ToldCommitsStand, WrittenStays};

/// A law: a write that a query missed is never present there again, and nobody may write there any more.
pub fn missing_stays()
    ensures { MissingStays }
{}

/// A law: while a transaction is not decided, its own intent at a key is past each of its writes that was written there.
pub fn written_stays()
    ensures { WrittenStays }
{}

/// A law: while a stage's record is not past it, its writes are all present if each was so at some time since it was sent.
pub fn staged_writes_stay()
    ensures { StagedWritesStay }
{}

/// A law: what is committed, also by its staging record alone, stays so, at that timestamp and no other.
pub fn commits_stay()
    ensures { CommitsStay }
{}

/// A law: what a recovery answers committed was committed before it.
pub fn recoveries_agree()
    ensures { RecoveriesAgree }
{}

/// A law: a transaction that its session was told committed is decided so by its record, or stages so, in the epoch that the session has reached.
pub fn told_commits_stand()
    ensures { ToldCommitsStand }
{}
