//! The finishing of a transaction whose fate is known: its locks are settled one after another, then its record is removed.
#![tactic(auto)]

mod laws;
mod machine;

pub use laws::resolving_goes_on;
pub use machine::ResolveMachine;
