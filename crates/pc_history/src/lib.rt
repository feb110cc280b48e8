//! One history for all threads: each event takes its number by one `fetch_add` on the first word of a shared table.
#![tactic(auto)]

mod actor;
mod asked;
mod blank;
mod merge;
mod named;
mod note;
mod opener;
mod pair;
mod rule;
mod steps;
mod view;
mod world;

pub use actor::Actor;
pub use blank::Blank;
pub use named::Named;
pub use note::Note;
pub use opener::Opener;
pub use pair::Pair;
pub use view::{Known, Part};
pub use world::World;
