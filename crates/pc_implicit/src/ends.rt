ghost use Rattle.pc_implicit.specs.Ends.{AbortedNeverCommits, EndedNeverCommits, GivenUpIsUncommitted};
ghost use Rattle.pc_implicit.specs.Outcomes.{OutcomesAreTrue};

/// A law: a transaction of which a record or mark says that it is aborted was never committed.
pub fn aborted_never_commits()
    ensures { AbortedNeverCommits }
{}

/// A law: a transaction whose session was told that it is aborted or rolled back is never committed, before or after.
pub fn ended_never_commits()
    ensures { EndedNeverCommits }
{}

/// A law: a transaction whose session is told to restart, or that a call is blocked, was moved too often or found a range unavailable, is not committed then.
pub fn given_up_is_uncommitted()
    ensures { GivenUpIsUncommitted }
{}

/// A law: the outcomes of a run's transactions are true: what is aborted or over commits nowhere, and each abort has the cause that it names.
pub fn outcomes_are_true()
    ensures { OutcomesAreTrue }
{}
