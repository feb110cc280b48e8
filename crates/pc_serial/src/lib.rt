//! Laws of runs: the order of their committed transactions, and that in it they are one legal history.
//! Each is a function that does nothing, whose contract is the law.
#![tactic(auto)]

mod laws;
mod rows;

pub use laws::{
    commits_are_ordered, committed_once, histories_are_legal, one_entry_commits, one_quiet_session,
    one_session_runs_in_turn, one_session_runs_plainly, sessions_go_in_turn,
};
pub use rows::{first_row_is_a_run, first_row_is_one_commit, staged_row_runs_plainly};
