//! What an actor sent and heard, filed by transaction, so that a rule looks only at what speaks of its own.
#![tactic(auto)]

mod filed;
mod files;
mod firsts;
mod named;
mod refreshed;
mod settled_keys;
mod uncommitted;

pub use filed::Filed;
pub use files::Files;
pub use named::put_by;
