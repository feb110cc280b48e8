//! An open call: its messages, what they are sent for, and how they stand beside what its session knows.
#![tactic(auto)]

mod aborts;
mod alive;
mod blocks;
mod call;
mod commits;
mod last_beats;
mod later;
mod losses;
mod opening;
mod over;
mod pieces;
mod proves;
mod purpose;
mod queries;
mod reads;
mod refreshes;
mod stages;

pub use call::OpenCall;
pub use later::{Later, LaterPut};
pub use over::{Left, Over};
pub use proves::{depends_on, is_to_prove};
pub use purpose::Purpose;
pub use refreshes::Refreshed;
pub use stages::{StageTold, StagedOn};
