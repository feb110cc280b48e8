//! The sessions and recoverers of a workload, which go on threads: the first session alone until its opening is over, and then all of them
//! beside each other.
#![tactic(auto)]

ghost use Rattle.pc_threads.specs.Laws.{ThreadsAreAsStated};

mod lane;
mod on_threads;
mod round_lane;
mod runs;

pub use on_threads::go_on_threads;
use pc_clock::Clock;

/// A law: where all sessions and recoverers went on threads, the history goes as a workload says that states no turns.
pub fn threads_are_as_stated<C: Clock>()
    ensures { ThreadsAreAsStated C }
{}
