//! The keys that a transaction wrote: what its commit, its abort and its settling list.
#![tactic(auto)]

mod locks;

pub use locks::Locks;
