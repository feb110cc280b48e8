//! Laws of what a session can't send in a call where it follows its workload.
#![tactic(auto)]

ghost use Rattle.pc_follows_laws.specs.CallRounds.{PushesMeetConflicts, ResolvesMeetConflicts, RoundsEnd, RoundsMeetConflicts};
ghost use Rattle.pc_follows_laws.specs.PipelinedRounds.{ConflictsWait, NoRoundOnceOver, NoRoundUnmet, NothingBehindTheEighth, PushesMeetTheNext, ResolvesMeetTheNext, WaitingWereMet, WritesWaitBySequence};

/// A law: in an open call a push is of the holder of a conflict that this call met, the first that had no round.
pub fn pushes_meet_conflicts()
    ensures { PushesMeetConflicts }
{}

/// A law: in an open call a resolve is of the key at which this call met a conflict, and of its holder.
pub fn resolves_meet_conflicts()
    ensures { ResolvesMeetConflicts }
{}

/// A law: an open call that met no conflict sends no message of a round, a query of the open transaction's own write aside.
pub fn rounds_meet_conflicts()
    ensures { RoundsMeetConflicts }
{}

/// A law: an open call whose rounds are all over sends no resolve, not even one that it has sent before.
pub fn rounds_end()
    ensures { RoundsEnd }
{}

/// A law: where writes are pipelined, in an open call a push is of the holder of the first conflict that is not over.
pub fn pushes_meet_the_next()
    ensures { PushesMeetTheNext }
{}

/// A law: so is a resolve of the key at which this call met a conflict, and of its holder.
pub fn resolves_meet_the_next()
    ensures { ResolvesMeetTheNext }
{}

/// A law: an open call that met no conflict then sends no message of a round, not even a query of its own write.
pub fn no_round_unmet()
    ensures { NoRoundUnmet }
{}

/// A law: a conflict that is heard then waits for its round.
pub fn conflicts_wait()
    ensures { ConflictsWait }
{}

/// A law: each conflict that waits is one that this call met.
pub fn waiting_were_met()
    ensures { WaitingWereMet }
{}

/// A law: the conflicts of writes that wait have their rounds by sequence.
pub fn writes_wait_by_sequence()
    ensures { WritesWaitBySequence }
{}

/// A law: an open call whose conflicts are all over then sends no message of a round.
pub fn no_round_once_over()
    ensures { NoRoundOnceOver }
{}

/// A law: where a refused stage passed over the eighth conflict of a write, an open call sends nothing more but a heartbeat.
pub fn nothing_behind_the_eighth()
    ensures { NothingBehindTheEighth }
{}
