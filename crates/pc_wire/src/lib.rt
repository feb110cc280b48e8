//! The wire: what becomes of an actor's messages, and where they wait.
#![tactic(auto)]

mod listed;
mod outbox;
mod periodic;
mod quiet;
mod verdict;
mod wire;

pub use listed::Listed;
pub use outbox::{Outbox, Stray, Waiting};
pub use periodic::Periodic;
pub use quiet::Quiet;
pub use verdict::Verdict;
pub use wire::Wire;
