//! A session with its script: it asks the script's calls one after another, and does the jobs that they leave, until its list has ended.
#![tactic(auto)]

mod scripted;

pub use scripted::Scripted;
