//! What a transaction has read in its present epoch, beside what its session knows: the spans that its commit refreshes, and the timestamp at
//! which it reads.
#![tactic(auto)]

mod laws;
mod reads;
mod replies;

pub use laws::{reads_are_good, reads_stand_on};
pub use reads::TxnReads;
pub use replies::{first_unrefreshed, unrefreshed};
