//! The verdict on a text: malformed, no run with its report, or a run with its report.
#![tactic(auto)]

mod body;
mod differing;
mod journal;
mod laws;
mod verdict;

pub use body::Body;
pub use journal::{Journal, Unread};
pub use laws::one_verdict_is_right;
pub use verdict::Verdict;
