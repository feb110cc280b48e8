//! The text of a journal: what each event, and each thing that it names, is spelled as.
#![tactic(auto)]

mod answer;
mod call;
mod event;
mod journal;
mod lists;
mod meta;
mod names;
mod number;
mod optional;
mod reply;
mod request;
mod span;
mod text;
mod view;
mod why;

pub use journal::{print_event, print_journal};
pub use text::Text;
