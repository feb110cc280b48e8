//! What an actor knows by its own entries apart from its transactions, kept step by step: the open call, messages, replies; and what
//! of what it may do next rests on that alone.
#![tactic(auto)]

mod call;
mod calls;
mod cutting;
pub mod fate;
mod heards;
mod order;
mod range;
mod same;
mod sends;
mod stamp;
mod statement;
mod traffic;

pub use calls::Calls;
pub use cutting::{Part, Piece, is_key, is_span, pieces};
pub use fate::{is_about, is_final, is_undecided, lists_write};
pub use heards::Heards;
pub use order::{is_in_order, may_list_records};
pub use same::{same_keys, same_meta, same_writes};
pub use sends::Sends;
pub use stamp::number;
pub use statement::Open;
pub use traffic::{Hearing, Message};
