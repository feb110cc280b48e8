//! A range's read bound: what has been read of it, and where somebody may still write.
#![tactic(auto)]

mod bound;

pub use bound::Bound;
