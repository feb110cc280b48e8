//! How ranges serve the messages of a wave beside each other, each on a thread of its own.
#![tactic(auto)]

mod beside;
mod delivery;

pub use beside::serve_beside;
pub use delivery::{Delivery, Outcome};
