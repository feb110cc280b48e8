//! A conflict round: the holder of an intent that stands in the way is pushed, and its intent settled as the push came out.
#![tactic(auto)]

mod laws;
mod machine;
mod progress;

pub use laws::pushing_goes_on;
pub use machine::PushMachine;
