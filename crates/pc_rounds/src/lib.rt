//! A recoverer that counts the rounds that it makes: so many, and no more.
#![tactic(auto)]

mod counted;

pub use counted::{Clients, CountedRecoverer};
