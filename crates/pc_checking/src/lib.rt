//! Mode check: a source is read to its end, and its bytes get their verdict.
#![tactic(auto)]

mod checked;
mod checker;
mod mode;

pub use checked::Checked;
pub use checker::Checker;
pub use mode::{JOURNAL_BYTES, check};
