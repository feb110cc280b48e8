ghost use Rattle.std.specs.Prelude.{◌≡◌, ◌≤◌, ℕ, [], All, Bool, IfOk, length};
ghost use Rattle.std.specs.List.{AllZip};
ghost use Rattle.pc_base.specs.declared.actor.ActorId.{ActorId as Whose};
ghost use Rattle.pc_rounds.specs.Counted.{GoesInRounds, entries_made};
ghost use Rattle.pc_runs.specs.Together.{AreAtEnds, AreClients, HaveClientClocks};
ghost use Rattle.pc_scripted.specs.Scripted.{IsScripted, own_list};
ghost use Rattle.pc_threads.specs.Lanes.{HasLeftLane, HaveStarted, LeadsIn, StandsBehind, StandsBehindIn};
ghost use Rattle.pc_threads.specs.OnThreads.{HaveGoneOnThreads};
ghost use Rattle.pc_threads.specs.RoundLanes.{HasLeftRoundLane, HaveRunToEnds, WaitInLanes, WaitsBehind};

use crate::lane::Lane;
use crate::round_lane::RoundLane;
use crate::runs::run_both;
use pc_base::NoMemory;
use pc_clock::Clock;
use pc_history::Named;
use pc_range::{CommitWorld, Gate};
use pc_rounds::{Clients, CountedRecoverer};
use pc_scripted::Scripted;
use pc_wire::Wire;
use pc_work::Workload;
use std::marker::{Send, Sync};
use std::sync::Wait;
use std::thread::Threads;

/// The lanes of the sessions, and those of the recoverers.
type AllLanes<'a, N, C, V, G> = (Vec<Lane<'a, N, C, V, G>>, Vec<RoundLane<'a, N, C, V, G>>);

/// Brings the sessions and recoverers of a workload to their ends: the first session goes on by itself until its opening is over, then each
/// other one and each recoverer is put behind that, and then all sessions go to the ends of their scripts and all recoverers make their rounds
/// beside each other, each on a thread of its own.
pub fn go_on_threads<
    'a,
    N: Named<CommitWorld> + Send + Sync,
    C: Clock + Drop + Send,
    V: Wire + Drop + Send,
    G: Gate + Sync,
    R: Wait + Threads + Sync,
>(
    rt: &R,
    work: &'a Workload,
    sessions: Vec<Scripted<'a, N, C, V, G>>,
    recoverers: Vec<CountedRecoverer<'a, N, C, V, G>>,
) -> Result<Clients<'a, N, C, V, G>, NoMemory>
    requires clients { AreClients work.now (record { sessions = sessions.items; recoverers = recoverers.items }) }
    requires fresh { All (λ s. own_list s ≡ []) sessions.items }
    requires fresh_recoverers { All (λ r. entries_made r ≡ []) recoverers.items }
    requires some_session { 1 ≤ length work.now.sessions }
    ensures clients { IfOk result (λ gone. AreClients work.now (record { sessions = gone.0.items; recoverers = gone.1.items })) }
    ensures clocks { IfOk result (λ gone. (rules : Whose → ℕ → ℕ → Bool) → HaveClientClocks C.rule rules work.now (record { sessions = sessions.entry.items; recoverers = recoverers.entry.items }) → HaveClientClocks C.rule rules work.now (record { sessions = gone.0.items; recoverers = gone.1.items })) }
    ensures over { IfOk result (λ gone. AreAtEnds (record { sessions = gone.0.items; recoverers = gone.1.items })) }
    ensures order { IfOk result (λ gone. HaveGoneOnThreads work.now (record { sessions = gone.0.items; recoverers = gone.1.items })) }
{
    let lanes = start(rt, work.opening as usize, sessions, recoverers)?;
    run_to_ends(rt, lanes.0, lanes.1)
}

/// All sessions and recoverers go to their ends in their lanes, beside each other, and come out of them, where memory ran out in none.
fn run_to_ends<
    'a,
    N: Named<CommitWorld> + Send + Sync,
    C: Clock + Drop + Send,
    V: Wire + Drop + Send,
    G: Gate + Sync,
    R: Wait + Threads + Sync,
>(
    rt: &R,
    lanes: Vec<Lane<'a, N, C, V, G>>,
    round_lanes: Vec<RoundLane<'a, N, C, V, G>>,
) -> Result<Clients<'a, N, C, V, G>, NoMemory>
    requires some { 1 ≤ length lanes.items }
    requires scripted { All (λ l. IsScripted l.session) lanes.items }
    requires counted { All (λ l. GoesInRounds l.recoverer) round_lanes.items }
    ensures { IfOk result (λ gone. HaveRunToEnds C.rule lanes.entry.items round_lanes.entry.items gone.0.items gone.1.items) }
{
    let (lanes, round_lanes) = run_both(rt, lanes, round_lanes);
    let sessions = take_back(lanes)?;
    let recoverers = take_rounds_back(round_lanes)?;
    Ok((sessions, recoverers))
}

/// The sessions and the recoverers in lanes of their own, once the first session has gone on by itself until so many items of its script are
/// over.
fn start<
    'a,
    N: Named<CommitWorld> + Send + Sync,
    C: Clock + Drop,
    V: Wire + Drop,
    G: Gate + Sync,
    R: Wait + Threads + Sync,
>(
    rt: &R,
    opening: usize,
    mut sessions: Vec<Scripted<'a, N, C, V, G>>,
    recoverers: Vec<CountedRecoverer<'a, N, C, V, G>>,
) -> Result<AllLanes<'a, N, C, V, G>, NoMemory>
    requires some { 1 ≤ length sessions.items }
    requires scripted { All IsScripted sessions.items }
    requires counted { All GoesInRounds recoverers.items }
    ensures { IfOk result (λ lanes. (started : HaveStarted C.rule opening sessions.entry.items lanes.0.items) × WaitInLanes (own_list started.opened) recoverers.entry.items lanes.1.items) }
{
    let mut first = sessions.remove(0);
    first.open(rt, opening)?;
    let others = line_up(&mut first, sessions)?;
    let behind = line_up_rounds(&mut first, recoverers)?;
    Ok((put_in_front(first, others)?, behind))
}

/// The recoverers in lanes of their own, each behind all that the first session made.
fn line_up_rounds<'a, N: Named<CommitWorld>, C: Clock + Drop, V: Wire + Drop, G: Gate>(
    first: &mut Scripted<'a, N, C, V, G>,
    recoverers: Vec<CountedRecoverer<'a, N, C, V, G>>,
) -> Result<Vec<RoundLane<'a, N, C, V, G>>, NoMemory>
    requires { All GoesInRounds recoverers.items }
    ensures follow { IfOk result (λ lanes. WaitInLanes (own_list first.old) recoverers.entry.items lanes.items) }
    ensures same { first.new ≡ first.old }
{
    let mut lanes = Vec::new(*recoverers.allocator());
    for recoverer in recoverers {
        lanes.push(RoundLane::new(put_rounds_behind(first, recoverer)?))?;
    }
    Ok(lanes)
}

/// The recoverer, which knows from now on the last entry that the first session made.
fn put_rounds_behind<'a, N: Named<CommitWorld>, C: Clock + Drop, V: Wire + Drop, G: Gate>(
    first: &mut Scripted<'a, N, C, V, G>,
    mut recoverer: CountedRecoverer<'a, N, C, V, G>,
) -> Result<CountedRecoverer<'a, N, C, V, G>, NoMemory>
    requires { GoesInRounds recoverer }
    ensures behind { IfOk result (WaitsBehind (own_list first.old) recoverer.entry) }
    ensures same { first.new ≡ first.old }
{
    if let Some(mark) = first.mark()? {
        recoverer.follow(mark);
    }
    Ok(recoverer)
}

/// The lanes, with one more in front of them.
fn put_in_front<'a, N: Named<CommitWorld>, C: Clock + Drop, V: Wire + Drop, G: Gate>(
    first: Scripted<'a, N, C, V, G>,
    mut lanes: Vec<Lane<'a, N, C, V, G>>,
) -> Result<Vec<Lane<'a, N, C, V, G>>, NoMemory>
    ensures { IfOk result (λ all. LeadsIn first.entry lanes.entry.items all.items) }
{
    lanes.insert(0, Lane::new(first))?;
    Ok(lanes)
}

/// The other sessions in lanes of their own, each behind all that the first one made.
fn line_up<'a, N: Named<CommitWorld>, C: Clock + Drop, V: Wire + Drop, G: Gate>(
    first: &mut Scripted<'a, N, C, V, G>,
    others: Vec<Scripted<'a, N, C, V, G>>,
) -> Result<Vec<Lane<'a, N, C, V, G>>, NoMemory>
    requires { All IsScripted others.items }
    ensures follow { IfOk result (λ lanes. AllZip (StandsBehindIn (own_list first.old)) others.entry.items lanes.items) }
    ensures same { first.new ≡ first.old }
{
    let mut lanes = Vec::new(*others.allocator());
    for other in others {
        lanes.push(Lane::new(put_behind(first, other)?))?;
    }
    Ok(lanes)
}

/// The other session, which knows from now on the last entry that the first one made.
fn put_behind<'a, N: Named<CommitWorld>, C: Clock + Drop, V: Wire + Drop, G: Gate>(
    first: &mut Scripted<'a, N, C, V, G>,
    mut other: Scripted<'a, N, C, V, G>,
) -> Result<Scripted<'a, N, C, V, G>, NoMemory>
    requires { IsScripted other }
    ensures behind { IfOk result (StandsBehind (own_list first.old) other.entry) }
    ensures same { first.new ≡ first.old }
{
    if let Some(mark) = first.mark()? {
        other.follow(mark);
    }
    Ok(other)
}

/// The sessions out of their lanes again, in order, where memory ran out in none.
fn take_back<'a, N: Named<CommitWorld>, C: Clock + Drop, V: Wire + Drop, G: Gate>(
    lanes: Vec<Lane<'a, N, C, V, G>>,
) -> Result<Vec<Scripted<'a, N, C, V, G>>, NoMemory>
    ensures { IfOk result (λ sessions. AllZip HasLeftLane lanes.entry.items sessions.items) }
{
    let mut sessions = Vec::new(*lanes.allocator());
    for lane in lanes {
        sessions.push(lane.finish()?)?;
    }
    Ok(sessions)
}

/// The recoverers out of their lanes again, in order, where memory ran out in none.
fn take_rounds_back<'a, N: Named<CommitWorld>, C: Clock + Drop, V: Wire + Drop, G: Gate>(
    lanes: Vec<RoundLane<'a, N, C, V, G>>,
) -> Result<Vec<CountedRecoverer<'a, N, C, V, G>>, NoMemory>
    ensures { IfOk result (λ recoverers. AllZip HasLeftRoundLane lanes.entry.items recoverers.items) }
{
    let mut recoverers = Vec::new(*lanes.allocator());
    for lane in lanes {
        recoverers.push(lane.finish()?)?;
    }
    Ok(recoverers)
}
