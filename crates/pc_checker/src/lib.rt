//! The checker of journals: ranges are judged by evaluation, and each session and recoverer by what it may do.
#![tactic(auto)]

mod journal;

pub use journal::JournalChecker;
