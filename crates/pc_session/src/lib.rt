//! A session: it asks calls and is told their answers, sends its messages to the ranges, and does the jobs that its transactions leave.
#![tactic(auto)]

mod office;
mod session;
mod token;

pub use session::Session;
pub use token::Token;
