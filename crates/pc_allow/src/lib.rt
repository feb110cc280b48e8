//! Decides for each entry of a session or recoverer whether it may come next, by what the actor knows.
#![tactic(auto)]

mod allow;

pub use allow::Allow;
