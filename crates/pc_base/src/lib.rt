//! Timestamps, keys, values, spans, and the names of transactions and actors: what every other crate speaks of.
#![tactic(auto)]

mod actor;
mod entry;
mod items;
mod key;
pub mod limits;
mod memory;
mod span;
mod timestamp;
mod transaction;
mod value;
mod version;

pub use actor::ActorId;
pub use entry::Entry;
pub use items::Items;
pub use key::Key;
pub use limits::{KEY_BYTES, VALUE_BYTES};
pub use memory::{NoMemory, TryCopy};
pub use span::{EmptySpan, Span};
pub use timestamp::Timestamp;
pub use transaction::{Priority, TxnId, Who};
pub use value::{BaseFault, Value};
pub use version::Version;
