//! The report of a history: what was committed, what became of every other transaction, and the map in the end.
#![tactic(auto)]

mod gathered;
mod laws;
mod outcome;
mod print;
mod replay;
mod rows;
mod tables;
mod writes;

pub use gathered::Findings;
pub use laws::first_row_is_reported;
pub use outcome::report;
pub use print::print_report;
pub use rows::{
    CommittedRow, CommittedRows, Ending, LastWrites, MapRow, MapRows, OtherRow, OtherRows, Report,
};
