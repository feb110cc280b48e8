//! All that an actor knows by its own entries, kept step by step, and what it can tell from that of views and of reads.
#![tactic(auto)]

mod good;
mod kinds;
mod knowledge;
mod reads;
mod same;
mod views;

pub use good::good_to;
pub use kinds::{
    are_proved_by, asks_for, is_own_cause, is_push_of, is_put_of, some_refused, was_refused,
};
pub use knowledge::Knowledge;
pub use reads::{are_good_up_to, is_good};
pub use same::{same_fate, same_finding, same_value, same_who, same_why};
pub use views::{anchor_heard, view_in, was_aborted, was_committed};
