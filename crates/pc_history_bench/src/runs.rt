//! Runs on one thread and on four.
ghost use Rattle.std.specs.Prelude.{◌≡◌, ◌+◌, ◌≤◌, ◌^◌, [], ◌∷◌, true, length, IfOk, Some};
ghost use Rattle.std.specs.Thread.{IsSync};
ghost use Rattle.pc_history.specs.Parts.{newcomer};
ghost use Rattle.pc_base.specs.declared.ActorId.TheVariants.{Session};

use crate::fault::Fault;
use crate::free::Free;
use pc_base::{ActorId, NoMemory};
use pc_history::{Actor, Blank, Named, Opener};
use std::sync::atomic::{AtomicU64, Ordering};
use std::thread::{Threads, join};
use std::time::{Clock, Duration, Instant};

/// How many entries the history has, and the nanoseconds that one thread took for each of its events, with the room for it.
#[derive(Drop)]
pub struct Run {
    pub entries: usize,
    pub nanos: u128,
}

type Outcome<N> = Result<Actor<Free, N>, NoMemory>;

type Four<N> = (
    Actor<Free, N>,
    Actor<Free, N>,
    Actor<Free, N>,
    Actor<Free, N>,
);

fn act_times<N: Named<Free>>(mut actor: Actor<Free, N>, times: u64) -> Outcome<N>
    requires fresh { actor.part.own ≡ [] }
    requires few { times ≤ 2 ^ 20 }
    ensures { IfOk result (λ a. a.part.id ≡ actor.part.id) }
{
    for event in 0..times {
        actor.room()?;
        actor.act(event);
    }
    Ok(actor)
}

fn nanos_each(took: Duration, times: u64) -> u128 {
    took.as_nanos() / u128::from(times.max(1))
}

#[tactic(auto, using(pc_history::proofs::Callers::handed_in_order))]
pub fn on_one<N: Named<Free>, R: Clock>(
    rt: &R,
    blank: Blank<Free>,
    times: u64,
) -> Result<Run, Fault>
    requires name { (blank.table ≡ N.table) × (N.world ≡ Some blank.world) }
    requires few { times ≤ 2 ^ 20 }
{
    let mut opener = Opener::<Free, N>::start(blank);
    let actor = opener.seat(ActorId::Session(1))?;
    let start = Instant::now(rt)?;
    let actor = act_times(actor, times)?;
    let took = start.elapsed(rt)?;
    opener.hand_in(actor)?;
    let history = opener.close()?;
    Ok(Run {
        entries: history.len(),
        nanos: nanos_each(took, times),
    })
}

fn seat_four<N: Named<Free>>(opener: &mut Opener<Free, N>) -> Result<Four<N>, NoMemory>
    requires { opener.old.seated ≡ [] }
    ensures seated { IfOk result (λ four. opener.new.seated ≡ Session 1 ∷ Session 2 ∷ Session 3 ∷ Session 4 ∷ []) }
    ensures parts { opener.new.parts ≡ opener.old.parts }
    ensures first { IfOk result (λ four. (four.0.part ≡ newcomer (Session 1)) × (four.1.part ≡ newcomer (Session 2))) }
    ensures second { IfOk result (λ four. (four.2.part ≡ newcomer (Session 3)) × (four.3.part ≡ newcomer (Session 4))) }
{
    let one = opener.seat(ActorId::Session(1))?;
    let two = opener.seat(ActorId::Session(2))?;
    let three = opener.seat(ActorId::Session(3))?;
    let four = opener.seat(ActorId::Session(4))?;
    Ok((one, two, three, four))
}

fn pair<N: Named<Free> + Send + Sync, R: Threads + Sync>(
    rt: &R,
    one: Actor<Free, N>,
    two: Actor<Free, N>,
    times: u64,
) -> (Outcome<N>, Outcome<N>)
    requires fresh { (one.part.own ≡ []) × (two.part.own ≡ []) }
    requires few { times ≤ 2 ^ 20 }
    ensures first { IfOk result.0 (λ a. a.part.id ≡ one.part.id) }
    ensures second { IfOk result.1 (λ a. a.part.id ≡ two.part.id) }
{
    join(rt, || act_times(one, times), || act_times(two, times))
}

fn all_four<N: Named<Free> + Send + Sync, R: Threads + Sync>(
    rt: &R,
    four: Four<N>,
    times: u64,
) -> Result<Four<N>, NoMemory>
    requires first { (four.0.part ≡ newcomer (Session 1)) × (four.1.part ≡ newcomer (Session 2)) }
    requires second { (four.2.part ≡ newcomer (Session 3)) × (four.3.part ≡ newcomer (Session 4)) }
    requires few { times ≤ 2 ^ 20 }
    ensures first { IfOk result (λ r. (r.0.part.id ≡ Session 1) × (r.1.part.id ≡ Session 2)) }
    ensures second { IfOk result (λ r. (r.2.part.id ≡ Session 3) × (r.3.part.id ≡ Session 4)) }
{
    let (one, two, three, four) = four;
    let ((one, two), (three, four)) = join(
        rt,
        || -> (Outcome<N>, Outcome<N>)
            requires { IsSync R.row × (one.part ≡ newcomer (Session 1)) × (two.part ≡ newcomer (Session 2)) × (times ≤ 2 ^ 20) }
            ensures { IfOk result.0 (λ a. a.part.id ≡ Session 1) × IfOk result.1 (λ a. a.part.id ≡ Session 2) }
        { pair(rt, one, two, times) },
        || -> (Outcome<N>, Outcome<N>)
            requires { IsSync R.row × (three.part ≡ newcomer (Session 3)) × (four.part ≡ newcomer (Session 4)) × (times ≤ 2 ^ 20) }
            ensures { IfOk result.0 (λ a. a.part.id ≡ Session 3) × IfOk result.1 (λ a. a.part.id ≡ Session 4) }
        { pair(rt, three, four, times) },
    );
    Ok((one?, two?, three?, four?))
}

#[tactic(auto, using(pc_history::proofs::Callers::handed_in_order))]
fn close_four<N: Named<Free>>(mut opener: Opener<Free, N>, four: Four<N>) -> Result<usize, NoMemory>
    requires seated { opener.seated ≡ Session 1 ∷ Session 2 ∷ Session 3 ∷ Session 4 ∷ [] }
    requires parts { opener.parts ≡ [] }
    requires first { (four.0.part.id ≡ Session 1) × (four.1.part.id ≡ Session 2) }
    requires second { (four.2.part.id ≡ Session 3) × (four.3.part.id ≡ Session 4) }
{
    let (one, two, three, four) = four;
    opener.hand_in(one)?;
    opener.hand_in(two)?;
    opener.hand_in(three)?;
    opener.hand_in(four)?;
    Ok(opener.close()?.len())
}

pub fn on_four<N: Named<Free> + Send + Sync, R: Clock + Threads + Sync>(
    rt: &R,
    blank: Blank<Free>,
    times: u64,
) -> Result<Run, Fault>
    requires name { (blank.table ≡ N.table) × (N.world ≡ Some blank.world) }
    requires few { times ≤ 2 ^ 20 }
{
    let mut opener = Opener::<Free, N>::start(blank);
    let actors = seat_four(&mut opener)?;
    let start = Instant::now(rt)?;
    let actors = all_four(rt, actors, times)?;
    let took = start.elapsed(rt)?;
    Ok(Run {
        entries: close_four(opener, actors)?,
        nanos: nanos_each(took, times),
    })
}

fn bare_times(word: &AtomicU64, times: u64) {
    for _ in 0..times {
        word.fetch_add(1, Ordering::SeqCst);
    }
}

pub fn bare_on_one<R: Clock>(rt: &R, times: u64) -> Result<u128, Fault> {
    let word = AtomicU64::new(0);
    let start = Instant::now(rt)?;
    bare_times(&word, times);
    Ok(nanos_each(start.elapsed(rt)?, times))
}

fn bare_pair<R: Threads + Sync>(rt: &R, word: &AtomicU64, times: u64) {
    join(rt, || bare_times(word, times), || bare_times(word, times));
}

pub fn bare_on_four<R: Clock + Threads + Sync>(rt: &R, times: u64) -> Result<u128, Fault> {
    let word = AtomicU64::new(0);
    let start = Instant::now(rt)?;
    join(
        rt,
        || bare_pair(rt, &word, times),
        || bare_pair(rt, &word, times),
    );
    Ok(nanos_each(start.elapsed(rt)?, times))
}
