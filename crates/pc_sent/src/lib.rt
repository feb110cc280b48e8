//! Which entry sent a message: an index of a history's sends, by sender and number.
#![tactic(auto)]

mod sent;

pub use sent::Sent;
