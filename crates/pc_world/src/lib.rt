//! What a range answers, what a session knows, and which histories are runs: the definitions that the crates above cite.
#![tactic(auto)]

mod laws;
mod ranges;

pub use laws::{
    beginnings_of_runs_are_runs, evaluation_raises_by_one, every_timestamp_is_below_the_greatest,
    protocol_is_a_world, runs_are_bounded, runs_are_kept, sent_requests_have_room,
    steps_are_places,
};
pub use ranges::{range_for, range_of};
