//! Evaluation: what a range does with a request.
#![tactic(auto)]

mod get;
mod put;
mod query;
mod refresh;
mod resolve;
mod scan;
mod state;
mod versions;

pub use state::RangeState;
