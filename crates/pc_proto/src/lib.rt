//! What the actors say to each other: requests, replies, views of records, and the events of the journal.
#![tactic(auto)]

mod answer;
mod call;
mod event;
mod fate;
mod machine;
mod meta;
mod record;
mod reply;
mod request;
mod view;
mod why;

pub use answer::Answer;
pub use call::Call;
pub use event::Event;
pub use fate::{Fate, Finding, Goal};
pub use machine::MachineNext;
pub use meta::{Metas, TxnMeta};
pub use record::{History, Intent, Record, Standing, Status};
pub use reply::{Origin, Reply, Rows};
pub use request::{Keys, Request, Writes};
pub use view::View;
pub use why::Why;
