//! From the ranges, sessions and recoverers of one history at its beginning to that history at its end, once all of them have finished.
#![tactic(auto)]

mod closing;
mod opening;

pub use closing::{Leaver, close};
pub use opening::{Opened, open};
