//! The open transaction of a session, beside what its session knows: its name, timestamps and locks, what it has read, its writes in flight, what
//! became of its stages and commits, and when it last showed that it is alive.
#![tactic(auto)]

mod beats;
mod laws;
mod queries;
mod stages;
mod txn;

pub use laws::txn_stands_on;
pub use txn::OpenTxn;
