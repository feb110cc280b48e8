//! The committed versions of a range: a chain for each key, in the order of timestamps, in an ordered map.
#![tactic(auto)]

mod chain;
mod versions;

pub use versions::Versions;
