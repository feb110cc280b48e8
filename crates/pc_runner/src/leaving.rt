ghost use Rattle.std.specs.Prelude.{◌≡◌, ◌+◌, IfOk, None, length};
ghost use Rattle.pc_closing.specs.Opening.{AreSeatedFor};
ghost use Rattle.pc_ends.specs.SessionClock.{session_rule};
ghost use Rattle.pc_in_turns.specs.InTurns.{HaveGoneInTurns};
ghost use Rattle.pc_runner.specs.Leaving.{HaveLeft};
ghost use Rattle.pc_runs.specs.Runners.{head_in_work};
ghost use Rattle.pc_threads.specs.OnThreads.{HaveGoneOnThreads};
ghost use Rattle.pc_work.specs.Accepted.{IsAccepted};
ghost use Rattle.pc_work.specs.Named.{AreTurnsOf};

use pc_base::NoMemory;
use pc_clock::Clocks;
use pc_closing::Leaver;
use pc_ends::{begin, begin_recoverers, finish};
use pc_history::{Actor, Named};
use pc_in_turns::go_in_turns;
use pc_range::{CommitWorld, Gate, Ranges};
use pc_threads::go_on_threads;
use pc_work::{Turn, Workload};
use std::alloc::Global;
use std::sync::Wait;
use std::thread::Threads;

/// The workload's sessions and recoverers go from their beginnings through these turns to their ends, and finish.
pub(crate) fn leave_turns<
    'a,
    N: Named<CommitWorld> + Send + Sync,
    M: Clocks,
    G: Gate + Sync,
    R: Wait + Threads + Sync,
>(
    rt: &R,
    alloc: Global,
    work: &'a Workload,
    stated: &[Turn],
    clocks: &mut M,
    ranges: &'a Ranges<'a, N, G>,
    sessions: Vec<Actor<CommitWorld, N>>,
    recoverers: Vec<Actor<CommitWorld, N>>,
) -> Result<Vec<Leaver<N>>, NoMemory>
where
    M::Clock: Drop,
    requires accepted { IsAccepted work.now }
    requires turns { AreTurnsOf (length work.now.sessions) (length work.now.recoverers) stated.now }
    requires ranges { ranges.now ≡ record { splits = work.now.splits; limit = work.now.limit } }
    requires sessions { AreSeatedFor (head_in_work work.now) 0 (length work.now.sessions) sessions.items }
    requires recoverers { AreSeatedFor (head_in_work work.now) (length work.now.sessions) (length work.now.sessions + length work.now.recoverers) recoverers.items }
    ensures { IfOk result (λ leavers. HaveLeft (session_rule M.Clock.rule) (M.rules clocks.old) work.now (HaveGoneInTurns work.now stated.now) leavers.items) }
{
    let sessions = begin(alloc, work, clocks, ranges, sessions)?;
    let recoverers = begin_recoverers(alloc, work, clocks, ranges, recoverers)?;
    let (sessions, recoverers) = go_in_turns(rt, work, stated, sessions, recoverers)?;
    finish(alloc, sessions, recoverers)
}

/// The workload's sessions and recoverers go from their beginnings to their ends on threads, and finish.
pub(crate) fn leave_threads<
    'a,
    N: Named<CommitWorld> + Send + Sync,
    M: Clocks,
    G: Gate + Sync,
    R: Wait + Threads + Sync,
>(
    rt: &R,
    alloc: Global,
    work: &'a Workload,
    clocks: &mut M,
    ranges: &'a Ranges<'a, N, G>,
    sessions: Vec<Actor<CommitWorld, N>>,
    recoverers: Vec<Actor<CommitWorld, N>>,
) -> Result<Vec<Leaver<N>>, NoMemory>
where
    M::Clock: Drop + Send,
    requires accepted { IsAccepted work.now }
    requires turns { work.now.turns ≡ None }
    requires ranges { ranges.now ≡ record { splits = work.now.splits; limit = work.now.limit } }
    requires sessions { AreSeatedFor (head_in_work work.now) 0 (length work.now.sessions) sessions.items }
    requires recoverers { AreSeatedFor (head_in_work work.now) (length work.now.sessions) (length work.now.sessions + length work.now.recoverers) recoverers.items }
    ensures { IfOk result (λ leavers. HaveLeft (session_rule M.Clock.rule) (M.rules clocks.old) work.now (HaveGoneOnThreads work.now) leavers.items) }
{
    let sessions = begin(alloc, work, clocks, ranges, sessions)?;
    let recoverers = begin_recoverers(alloc, work, clocks, ranges, recoverers)?;
    let (sessions, recoverers) = go_on_threads(rt, work, sessions, recoverers)?;
    finish(alloc, sessions, recoverers)
}
