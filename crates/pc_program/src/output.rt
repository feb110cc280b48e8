ghost use Rattle.std.specs.Prelude.{◌≡◌, IfOk, OnOk};
ghost use Rattle.pc_journal.specs.Fits.{FitsKeys};
ghost use Rattle.pc_journal.specs.FitsJournal.{FitsEntries};
ghost use Rattle.pc_journal.specs.ToldRows.{AllTellBare};
ghost use Rattle.pc_report.specs.Spelled.{FitsReport};
ghost use Rattle.pc_program.specs.Output.{IsOutput, output_text};
ghost use Rattle.pc_runs.specs.Follows.{FollowsWork};
ghost use Rattle.pc_runs.specs.Runners.{head_in_work};
ghost use Rattle.pc_work.specs.Accepted.{IsAccepted};
ghost use Rattle.pc_world.specs.Run.{IsRun};

use pc_base::{Entry, NoMemory};
use pc_clock::Clocks;
use pc_journal::print_journal;
use pc_proto::Event;
use pc_range::Gate;
use pc_report::{Findings, Report, print_report};
use pc_runner::{run_threads, run_turns};
use pc_work::Workload;
use std::alloc::Global;
use std::mem::forget;
use std::sync::Wait;
use std::thread::Threads;

/// Runs the workload, and makes the whole text of its journal and report.
pub(crate) fn output<M: Clocks, G: Gate + Sync, R: Wait + Threads + Sync>(
    rt: &R,
    alloc: Global,
    work: &Workload,
    clocks: &mut M,
    gate: &G,
) -> Result<Vec<u8>, NoMemory>
where
    M::Clock: Drop + Send,
    requires { IsAccepted work.now }
    ensures { IfOk result (λ out. IsOutput work.now (M.rules clocks.old) out.items) }
{
    let entries = history(rt, alloc, work, clocks, gate)?;
    let findings = Findings::of(alloc, &work.splits, &entries)?;
    let report = findings.report(alloc, &work.splits)?;
    let out = print_output(alloc, work, &entries, &report);
    // The process ends behind its output: giving back the memory of each entry before would only take time.
    forget(entries);
    forget(findings);
    forget(report);
    out
}

/// Runs the workload in the turns that it states, or else on threads.
fn history<M: Clocks, G: Gate + Sync, R: Wait + Threads + Sync>(
    rt: &R,
    alloc: Global,
    work: &Workload,
    clocks: &mut M,
    gate: &G,
) -> Result<Vec<Entry<Event>>, NoMemory>
where
    M::Clock: Drop + Send,
    requires { IsAccepted work.now }
    ensures run { IfOk result (λ entries. IsRun (head_in_work work.now) entries.items) }
    ensures follows { IfOk result (λ entries. FollowsWork work.now (M.rules clocks.old) (head_in_work work.now) entries.items) }
{
    if work.turns.is_some() {
        run_turns(rt, alloc, work, clocks, gate)
    } else {
        run_threads(rt, alloc, work, clocks, gate)
    }
}

fn print_output(
    alloc: Global,
    work: &Workload,
    entries: &[Entry<Event>],
    report: &Report,
) -> Result<Vec<u8>, NoMemory>
    requires { IsAccepted work.now }
    ensures text { IfOk result (λ out. out.items ≡ output_text work.now entries.now report.now) }
    ensures keys { OnOk result (FitsKeys work.now.splits) }
    ensures spelled { OnOk result (AllTellBare entries.now → FitsEntries entries.now) }
    ensures reported { OnOk result (FitsReport report.now) }
{
    let mut out = Vec::new(alloc);
    let sessions = work.sessions.len() as u32;
    let recoverers = work.recoverers.len() as u32;
    print_journal(&work.splits, sessions, recoverers, entries, &mut out)?;
    print_report(report, &mut out)?;
    Ok(out)
}
