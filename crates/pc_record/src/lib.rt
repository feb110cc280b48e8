//! The records and marks of a range: what a range does with the requests that speak of transaction records alone.
#![tactic(auto)]

mod abort;
mod beat;
mod commit;
mod place;
mod push;
mod records;
mod recover;
mod remove;
mod stage;
mod step;
mod table;

pub use table::RecordTable;
