//! A session's clock: a hybrid logical clock, above every timestamp that the session heard or gave.
#![tactic(auto)]

mod hlc;

pub use hlc::{ClockRange, Hlc};
