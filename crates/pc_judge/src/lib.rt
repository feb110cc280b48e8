//! The judge of a journal's entries: ranges by evaluation, sessions and recoverers by what they know.
#![tactic(auto)]

mod actors;
mod clients;
mod ranges;
mod same;

pub use actors::Actors;
pub use same::same_reply;
