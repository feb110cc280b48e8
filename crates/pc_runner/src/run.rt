ghost use Rattle.std.specs.Prelude.{◌≡◌, IfOk, IsSome, None, Some};
ghost use Rattle.pc_runner.specs.WorkRun.{IsWorkRun};
ghost use Rattle.pc_runs.specs.Follows.{FollowsWork};
ghost use Rattle.pc_runs.specs.Runners.{head_in_work};
ghost use Rattle.pc_work.specs.Accepted.{IsAccepted};
ghost use Rattle.pc_world.specs.Run.{IsRun};

use crate::leaving::{leave_threads, leave_turns};
use pc_base::{Entry, NoMemory};
use pc_clock::Clocks;
use pc_closing::{Opened, close};
use pc_ends::{blank_of, open_work};
use pc_history::{Blank, Named};
use pc_proto::Event;
use pc_range::{CommitWorld, Gate};
use pc_work::{Turn, Workload};
use std::alloc::Global;
use std::marker::Brand;
use std::sync::Wait;
use std::thread::Threads;

/// Runs a workload in the turns that it states, and gives its history: a run of the protocol, which follows the workload.
///
/// What every run keeps, this one keeps: the laws `decisions_do_not_differ` and `outcomes_are_true` of `pc_implicit`, `commits_are_ordered`,
/// `histories_are_legal` and `one_session_runs_plainly` of `pc_serial`.
///
/// It starts no thread: the messages of a wave are evaluated one after another, in the order of their numbers (`HearsInOrder` of `pc_follows`).
///
/// A workload that was read is of the form that is required. Readings are in nanoseconds; a session or recoverer that states no clock reads
/// the one that is handed in for it. An entry's step is its place in the list. `NoMemory` comes where memory runs out, or a number of 64 bits.
pub fn run_turns<M: Clocks, G: Gate + Sync, R: Wait + Threads + Sync>(
    rt: &R,
    alloc: Global,
    work: &Workload,
    clocks: &mut M,
    gate: &G,
) -> Result<Vec<Entry<Event>>, NoMemory>
where
    M::Clock: Drop,
    requires accepted { IsAccepted work.now }
    requires turns { IsSome work.now.turns }
    ensures run { IfOk result (λ entries. IsRun (head_in_work work.now) entries.items) }
    ensures follows { IfOk result (λ entries. FollowsWork work.now (M.rules clocks.old) (head_in_work work.now) entries.items) }
{
    match &work.turns {
        Some(stated) => {
            let blank = blank_of(alloc, work)?;
            turns_on::<Brand, _, _, _>(rt, alloc, blank, work, stated.as_slice(), clocks, gate)
        }
        None => unreachable!(),
    }
}

/// Runs a workload that states no turns: each session and each recoverer on a thread of its own, behind the opening. Gives its history: a run of the protocol,
/// which follows the workload. Which of the many that do is left to the threads.
///
/// All else is as for `run_turns`.
pub fn run_threads<M: Clocks, G: Gate + Sync, R: Wait + Threads + Sync>(
    rt: &R,
    alloc: Global,
    work: &Workload,
    clocks: &mut M,
    gate: &G,
) -> Result<Vec<Entry<Event>>, NoMemory>
where
    M::Clock: Drop + Send,
    requires accepted { IsAccepted work.now }
    requires turns { work.now.turns ≡ None }
    ensures run { IfOk result (λ entries. IsRun (head_in_work work.now) entries.items) }
    ensures follows { IfOk result (λ entries. FollowsWork work.now (M.rules clocks.old) (head_in_work work.now) entries.items) }
{
    let blank = blank_of(alloc, work)?;
    threads_on::<Brand, _, _, _>(rt, alloc, blank, work, clocks, gate)
}

/// Runs the workload in these turns, on the table of this name.
fn turns_on<
    N: Named<CommitWorld> + Send + Sync,
    M: Clocks,
    G: Gate + Sync,
    R: Wait + Threads + Sync,
>(
    rt: &R,
    alloc: Global,
    blank: Blank<CommitWorld>,
    work: &Workload,
    stated: &[Turn],
    clocks: &mut M,
    gate: &G,
) -> Result<Vec<Entry<Event>>, NoMemory>
where
    M::Clock: Drop,
    requires named { (blank.table ≡ N.table) × (N.world ≡ Some blank.world) }
    requires world { blank.world ≡ head_in_work work.now }
    requires accepted { IsAccepted work.now }
    requires turns { work.now.turns ≡ Some stated.now }
    ensures { IfOk result (λ entries. IsWorkRun work.now (M.rules clocks.old) entries.items) }
{
    let Opened {
        opener,
        ranges,
        sessions,
        recoverers,
    } = open_work::<N, _>(alloc, blank, work, gate)?;
    let leavers = leave_turns(
        rt, alloc, work, stated, clocks, &ranges, sessions, recoverers,
    )?;
    close(rt, opener, ranges, leavers)
}

/// Runs the workload on threads, on the table of this name.
fn threads_on<
    N: Named<CommitWorld> + Send + Sync,
    M: Clocks,
    G: Gate + Sync,
    R: Wait + Threads + Sync,
>(
    rt: &R,
    alloc: Global,
    blank: Blank<CommitWorld>,
    work: &Workload,
    clocks: &mut M,
    gate: &G,
) -> Result<Vec<Entry<Event>>, NoMemory>
where
    M::Clock: Drop + Send,
    requires named { (blank.table ≡ N.table) × (N.world ≡ Some blank.world) }
    requires world { blank.world ≡ head_in_work work.now }
    requires accepted { IsAccepted work.now }
    requires turns { work.now.turns ≡ None }
    ensures { IfOk result (λ entries. IsWorkRun work.now (M.rules clocks.old) entries.items) }
{
    let Opened {
        opener,
        ranges,
        sessions,
        recoverers,
    } = open_work::<N, _>(alloc, blank, work, gate)?;
    let leavers = leave_threads(rt, alloc, work, clocks, &ranges, sessions, recoverers)?;
    close(rt, opener, ranges, leavers)
}
