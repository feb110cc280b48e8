//! Many runs on threads, in many orders.

use crate::drawn::drawn;
use crate::outputs::output;
use pc_checker::JournalChecker;
use pc_checking::Checker;
use pc_range::Gate;
use pc_verdict::Verdict;
use std::alloc::Global;
use std::sync::Wait;
use std::sync::atomic::{AtomicU64, Ordering};
use std::test::Fail;
use std::thread::{Threads, sleep};
use std::time::{Clock, Duration};

const RUNS: u64 = 1_000;

/// Holds one evaluation in sixteen up for a moment, so that sessions meet where they would have passed each other.
#[derive(Drop)]
struct Pauses<'a, R> {
    rt: &'a R,
    evaluations: AtomicU64,
}

impl<'a, R: Clock> Gate for Pauses<'a, R> {
    fn before(&self, _range: u32) {
        if self.evaluations.fetch_add(1, Ordering::SeqCst) % 16 == 0 {
            sleep(self.rt, Duration::from_micros(20));
        }
    }
}

/// What mode check finds the output to be of the run on threads of the workload that is drawn from the seed.
fn judged<R: Clock + Wait + Threads + Sync>(rt: &R, alloc: Global, seed: u64) -> Option<Verdict> {
    let text = drawn(alloc, seed).ok()?;
    let gate = Pauses {
        rt,
        evaluations: AtomicU64::new(seed),
    };
    let out = output(rt, alloc, text.as_str(), &gate)?;
    JournalChecker.verdict(alloc, &out).ok()
}

#[test]
fn a_thousand_runs_on_threads_are_runs_with_their_reports(rt: HostRuntime) -> Result<(), Fail> {
    for seed in 0..RUNS {
        let verdict = judged(&rt, rt.alloc(), seed);
        assert_eq!(rt; verdict, Some(Verdict::Run), "seed {seed}");
    }
    Ok(())
}
