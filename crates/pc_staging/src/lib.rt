//! What became of the stages and commits that a transaction sent, by what its session heard: which of them may still commit it.
#![tactic(auto)]

mod laws;
mod stage_out;
mod staging;

pub use laws::{staging_allows, staging_is_kept, staging_stands_on};
pub use stage_out::StageOut;
pub use staging::Staging;
