//! The clocks of sessions and recoverers.
#![tactic(auto)]

mod clock;
mod stepped;

pub use clock::{Clock, Clocks};
pub use stepped::Stepped;
