//! What an actor may send, by what it knows: one rule for each request.
#![tactic(auto)]

mod beat;
mod call;
mod commit;
mod push;
mod put;
mod reading;
mod recovery;
mod refresh;
mod send;
mod settling;
mod stage;

pub use send::may_send;
