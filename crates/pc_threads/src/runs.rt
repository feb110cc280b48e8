ghost use Rattle.std.specs.Prelude.{All};
ghost use Rattle.std.specs.List.{AllZip};
ghost use Rattle.std.specs.Thread.{IsSync};
ghost use Rattle.pc_rounds.specs.Counted.{GoesInRounds};
ghost use Rattle.pc_scripted.specs.Scripted.{IsScripted};
ghost use Rattle.pc_threads.specs.Lanes.{HasRunLane};
ghost use Rattle.pc_threads.specs.RoundLanes.{HasRunRounds};

use crate::lane::Lane;
use crate::round_lane::RoundLane;
use pc_clock::Clock;
use pc_history::Named;
use pc_range::{CommitWorld, Gate};
use pc_wire::Wire;
use std::marker::{Send, Sync};
use std::sync::Wait;
use std::thread;
use std::thread::Threads;

/// All sessions go to their ends in their lanes, each on a thread of its own where one can be made.
fn run_lanes<
    'a,
    N: Named<CommitWorld> + Send + Sync,
    C: Clock + Drop + Send,
    V: Wire + Drop + Send,
    G: Gate + Sync,
    R: Wait + Threads + Sync,
>(rt: &R, mut lanes: Vec<Lane<'a, N, C, V, G>>) -> Vec<Lane<'a, N, C, V, G>>
    requires { All (λ l. IsScripted l.session) lanes.items }
    ensures { AllZip (HasRunLane C.rule) lanes.entry.items result.items }
{
    let threads = lanes.len().max(1);
    let run = |_: usize, lane: &mut Lane<N, C, V, G>|
        requires { IsSync R.row × IsScripted lane.old.session }
        ensures { HasRunLane C.rule lane.old lane.new }
    {
        lane.run(rt);
    };
    thread::for_each_mut(rt, lanes.as_mut_slice(), threads, &run);
    lanes
}

/// All recoverers make their rounds in their lanes, each on a thread of its own where one can be made.
fn run_round_lanes<
    'a,
    N: Named<CommitWorld> + Send + Sync,
    C: Clock + Drop + Send,
    V: Wire + Drop + Send,
    G: Gate + Sync,
    R: Wait + Threads + Sync,
>(rt: &R, mut lanes: Vec<RoundLane<'a, N, C, V, G>>) -> Vec<RoundLane<'a, N, C, V, G>>
    requires { All (λ l. GoesInRounds l.recoverer) lanes.items }
    ensures { AllZip (HasRunRounds C.rule) lanes.entry.items result.items }
{
    let threads = lanes.len().max(1);
    let run = |_: usize, lane: &mut RoundLane<N, C, V, G>|
        requires { GoesInRounds lane.old.recoverer }
        ensures { HasRunRounds C.rule lane.old lane.new }
    {
        lane.run(rt);
    };
    thread::for_each_mut(rt, lanes.as_mut_slice(), threads, &run);
    lanes
}

/// All sessions and all recoverers go to their ends in their lanes, beside each other.
pub(crate) fn run_both<
    'a,
    N: Named<CommitWorld> + Send + Sync,
    C: Clock + Drop + Send,
    V: Wire + Drop + Send,
    G: Gate + Sync,
    R: Wait + Threads + Sync,
>(
    rt: &R,
    lanes: Vec<Lane<'a, N, C, V, G>>,
    round_lanes: Vec<RoundLane<'a, N, C, V, G>>,
) -> (Vec<Lane<'a, N, C, V, G>>, Vec<RoundLane<'a, N, C, V, G>>)
    requires scripted { All (λ l. IsScripted l.session) lanes.items }
    requires counted { All (λ l. GoesInRounds l.recoverer) round_lanes.items }
    ensures sessions { AllZip (HasRunLane C.rule) lanes.entry.items result.0.items }
    ensures recoverers { AllZip (HasRunRounds C.rule) round_lanes.entry.items result.1.items }
{
    thread::join(
        rt,
        || -> Vec<Lane<N, C, V, G>>
            requires { IsSync R.row × All (λ l. IsScripted l.session) lanes.items }
            ensures { AllZip (HasRunLane C.rule) lanes.entry.items result.items }
        { run_lanes(rt, lanes) },
        || -> Vec<RoundLane<N, C, V, G>>
            requires { IsSync R.row × All (λ l. GoesInRounds l.recoverer) round_lanes.items }
            ensures { AllZip (HasRunRounds C.rule) round_lanes.entry.items result.items }
        { run_round_lanes(rt, round_lanes) },
    )
}
