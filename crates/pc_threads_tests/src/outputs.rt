//! What runs write.
ghost use Rattle.pc_runs.specs.Runners.{head_in_work};
ghost use Rattle.pc_work.specs.Accepted.{IsAccepted};
ghost use Rattle.pc_world.specs.Run.{IsRun};

use pc_base::{Entry, NoMemory};
use pc_clock::Stepped;
use pc_journal::print_journal;
use pc_proto::Event;
use pc_range::{Gate, NoGate};
use pc_report::{Report, print_report, report};
use pc_runner::{run_threads, run_turns};
use pc_work::Workload;
use std::alloc::Global;
use std::sync::Wait;
use std::thread::Threads;

/// The journal and the report of the run on threads of the workload that the text is. Nothing where it is none without turns, or memory runs out.
///
/// A session that states no clock reads 10, 11, 12 and so on.
pub fn output<G: Gate + Sync, R: Wait + Threads + Sync>(
    rt: &R,
    alloc: Global,
    text: &str,
    gate: &G,
) -> Option<Vec<u8>> {
    let Ok(work) = Workload::read(alloc, text.as_bytes()) else {
        return None;
    };
    if work.turns.is_some() {
        return None;
    }
    let mut clocks = Stepped::new(10, 1);
    match run_threads(rt, alloc, &work, &mut clocks, gate) {
        Ok(entries) => printed(alloc, &work, &entries).ok(),
        Err(NoMemory) => None,
    }
}

/// The journal and the report of the run of the workload that the text is, in the turns that it states. Nothing where it is none with turns, or
/// memory runs out.
pub fn output_in_turns<R: Wait + Threads + Sync>(
    rt: &R,
    alloc: Global,
    text: &[u8],
) -> Option<Vec<u8>> {
    let Ok(work) = Workload::read(alloc, text) else {
        return None;
    };
    if work.turns.is_none() {
        return None;
    }
    let mut clocks = Stepped::new(10, 1);
    match run_turns(rt, alloc, &work, &mut clocks, &NoGate) {
        Ok(entries) => printed(alloc, &work, &entries).ok(),
        Err(NoMemory) => None,
    }
}

/// The text of these entries and of their report.
fn printed(alloc: Global, work: &Workload, entries: &[Entry<Event>]) -> Result<Vec<u8>, NoMemory>
    requires accepted { IsAccepted work.now }
    requires run { IsRun (head_in_work work.now) entries.now }
{
    let report = report(alloc, &work.splits, entries)?;
    print_both(alloc, work, entries, &report)
}

fn print_both(
    alloc: Global,
    work: &Workload,
    entries: &[Entry<Event>],
    report: &Report,
) -> Result<Vec<u8>, NoMemory>
    requires { IsAccepted work.now }
{
    let mut out = Vec::new(alloc);
    let sessions = work.sessions.len() as u32;
    let recoverers = work.recoverers.len() as u32;
    print_journal(&work.splits, sessions, recoverers, entries, &mut out)?;
    print_report(report, &mut out)?;
    Ok(out)
}
