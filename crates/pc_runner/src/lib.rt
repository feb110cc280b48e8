//! Runs a workload: its sessions go through their scripts and its recoverers make their rounds, in turns or on threads, over ranges of one
//! history.
#![tactic(auto)]

mod leaving;
mod run;

pub use run::{run_threads, run_turns};
