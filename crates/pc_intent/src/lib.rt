//! The intents of a range: writes that are not committed yet, each under its key.
#![tactic(auto)]

mod intent;
mod intents;
mod settle;

pub use intent::conflict;
pub use intents::Intents;
pub use pc_proto::{History, Intent};
