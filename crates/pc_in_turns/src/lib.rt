//! The sessions and recoverers of a workload, which go in the turns that it states: each moves behind all that was done before it.
#![tactic(auto)]

mod in_turns;
mod task;

pub use in_turns::go_in_turns;
