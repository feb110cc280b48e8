//! What a transaction has read in its present epoch, as its commit refreshes it.
#![tactic(auto)]

mod order;
mod reads;

pub use order::OrderedSpan;
pub use reads::Reads;
