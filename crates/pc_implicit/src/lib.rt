//! Laws of runs: what was decided stays decided; no two decisions differ, whatever is staged; what is aborted never commits, and has the
//! cause that it names; what was written and read stands; and whose intents stand in the way. Each is a function that does nothing,
//! whose contract is the law.
#![tactic(auto)]

mod causes;
mod ends;
mod laws;
mod reads;
mod staging;
mod writes;

pub use causes::aborts_have_causes;
pub use ends::{
    aborted_never_commits, ended_never_commits, given_up_is_uncommitted, outcomes_are_true,
};
pub use laws::{
    bounds_stand, commit_points_differ, decisions_do_not_differ, decisions_stand, final_views_stay,
    heads_have_holders, holders_were_begun, left_stagings_stay_away, nothing_falls,
    open_records_are_past, other_records_are_past, replies_have_kinds, views_stay_true,
};
pub use reads::{reads_stand, refreshes_stand, versions_rise};
pub use staging::{
    commits_stay, missing_stays, recoveries_agree, staged_writes_stay, told_commits_stand,
    written_stays,
};
pub use writes::{
    own_intents_stand, proofs_were_written, versions_are_committed, writes_of_committed,
};
