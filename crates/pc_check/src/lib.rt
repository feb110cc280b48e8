//! The checker of a journal: what each entry is caused by, and which rule the first one breaks that may not follow those before it.
#![tactic(auto)]

mod actors;
mod causes;
mod client;
mod first;
mod judge;
mod rule;

pub use actors::has_actor;
pub use client::Client;
pub use first::first_broken;
pub use judge::Judge;
pub use rule::{Rule, rule_of};
