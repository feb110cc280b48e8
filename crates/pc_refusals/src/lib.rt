//! How often a commit was moved: its record stood above it, so it is tried again, until it was moved as often as it may be.
#![tactic(auto)]

mod laws;
mod refusals;

pub use laws::refusals_go_on;
pub use refusals::Refusals;
