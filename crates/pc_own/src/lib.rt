//! The transactions of a session as it knows them by its own entries, kept step by step and by number.
#![tactic(auto)]

mod flying;
mod locks;
mod places;
mod read;
mod reads;
mod spans;
mod txn;
mod txns;
mod write;
mod writes;

pub use locks::{Lock, Locks};
pub use read::{OwnRead, contains, holds, part_of};
pub use reads::Reads;
pub use spans::OrderedPart;
pub use txn::{OwnTxn, Restart, has_staged, status_ts};
pub use txns::Txns;
pub use write::OwnWrite;
pub use writes::Writes;
