//! The lines of a journal over the bytes that spell them: nothing is copied.
#![tactic(auto)]

mod answer;
mod call;
mod cut;
mod event;
mod laws;
mod lines;
mod list;
mod name;
mod number;
mod part;
mod reply;
mod report;
mod request;
mod splits;
mod text;
mod view;

pub use answer::AnswerRef;
pub use call::CallRef;
pub use cut::cut as cut_first;
pub use event::{EntryRef, EventRef};
pub use laws::{journals_are_read, journals_are_spelled, reports_are_read, reports_are_spelled};
pub use lines::{HeadRef, LineRef, Lines, Malformed};
pub use part::{MetaRef, SpanRef, WhyRef};
pub use reply::ReplyRef;
pub use request::RequestRef;
pub use view::{FindingRef, ViewRef};
