//! The writes of one transaction, each once, and what they come to: the last of each key, and a map after them.
#![tactic(auto)]

mod changes;
mod puts;

pub use changes::{apply, last_writes};
pub use puts::{Put, Puts};
