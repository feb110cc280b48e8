//! Ranges as the sessions reach them: each behind its lock, with the history of its evaluations.
#![tactic(auto)]

mod cell;
mod commit_world;
mod eight;
mod gate;
mod message;
mod ranges;
mod slot;

pub use cell::RangeCell;
pub use commit_world::CommitWorld;
pub use gate::{Gate, NoGate};
pub use message::{Message, ReplyMsg, ServeFault};
pub use ranges::Ranges;
