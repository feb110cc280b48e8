//! The recovery of a record that was met staging: its writes are asked for in order, and it is decided by what was found of them.
#![tactic(auto)]

mod laws;
mod machine;
mod progress;

pub use laws::recovering_goes_on;
pub use machine::RecoverMachine;
