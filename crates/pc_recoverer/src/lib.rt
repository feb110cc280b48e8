//! A recoverer's rounds: what transactions left behind is pushed, recovered and settled.
#![tactic(auto)]

mod listed;
mod maker;
mod message;
mod recover;
mod recoverer;
mod round;
mod settle;
mod visit;

pub use maker::RoundMaker;
pub use recoverer::Recoverer;
