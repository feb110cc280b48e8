//! What an actor may tell, by what it knows: one rule for each answer.
#![tactic(auto)]

mod data;
mod end;
mod lost;
mod refusal;
mod rows;
mod same;
mod tell;

pub use tell::may_tell;
