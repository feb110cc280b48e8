//! The writes of a transaction that are sent and not proved, as its session pipelines them.
#![tactic(auto)]

mod flight;
mod laws;
mod write;

pub use flight::Flight;
pub use laws::flights_hold;
pub use write::WriteInFlight;
