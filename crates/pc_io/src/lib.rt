//! Sources of bytes and sinks for bytes: what they tell of their content, and a count of their
//! faults that never falls.
#![tactic(auto)]

mod failure;
mod memory;
mod reading;
mod schedule;
mod standard;
mod writing;

pub use failure::Failed;
pub use memory::{MemSink, MemSource};
pub use reading::{ReadFault, Source, read_all};
pub use standard::{StdSink, StdSource};
pub use writing::{Sink, WriteStop, write_all};
