//! A wave: messages that a statement sends, delivers and hears together, each kept until it is answered.
#![tactic(auto)]

mod message;
mod step;
mod wave;

pub use message::{Message, Progress};
pub use step::{Step, WaveState};
pub use wave::Wave;
