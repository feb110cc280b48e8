//! The views of a transaction that were heard.

ghost use Rattle.std.specs.Prelude.{◌≡◌, ◌↔◌, IsTrue, find};
ghost use Rattle.std.specs.Option.{option_and_then, option_copied};
ghost use Rattle.pc_proto.specs.Replies.{view_in};
ghost use Rattle.pc_proto.specs.Requests.{subject_anchor};
ghost use Rattle.pc_proto.specs.Views.{AbortsWith, is_committed_at};
ghost use Rattle.pc_world.specs.Views.{ShowsAborted, WasAborted, WasCommitted, anchor_heard, shows_committed, shows_view};

use crate::same::same_why;
use pc_base::{Key, Timestamp, TxnId};
use pc_known::{Hearing, is_about};
use pc_proto::{Reply, Request, View, Why};

/// The view in a reply, if it has one.
pub fn view_in(reply: &Reply) -> Option<&View>
    ensures { option_copied result ≡ view_in reply.now }
{
    match reply {
        Reply::Status(view) | Reply::Refused(view) | Reply::Unsure(view) => Some(view),
        _ => None,
    }
}

fn shows_view(id: TxnId, hearing: &Hearing<'_>) -> bool
    ensures { result ≡ shows_view id hearing.now }
{
    is_about(id, hearing.request) && view_in(hearing.reply).is_some()
}

/// The anchor that a request to a record names.
fn subject_anchor(request: &Request) -> Option<&Key>
    ensures { option_copied result ≡ subject_anchor request.now }
{
    match request {
        Request::Beat { meta, .. }
        | Request::Stage { meta, .. }
        | Request::Commit { meta, .. }
        | Request::Abort { meta, .. } => Some(&meta.anchor),
        Request::Push { holder, .. } => Some(&holder.anchor),
        Request::Recover { anchor, .. } | Request::Remove { anchor, .. } => Some(anchor),
        _ => None,
    }
}

/// The first view of the transaction that was heard.
fn first_view<'b, 'a>(id: TxnId, heard: &'b [Hearing<'a>]) -> Option<&'b Hearing<'a>>
    ensures { option_copied result ≡ find (shows_view id) heard.now }
{
    heard.iter().find(|hearing| shows_view(id, hearing))
}

fn anchor_in<'a>(first: Option<&Hearing<'a>>) -> Option<&'a Key>
    ensures { option_copied result ≡ option_and_then (λ h. subject_anchor h.request) (option_copied first.entry) }
{
    match first {
        Some(hearing) => subject_anchor(hearing.request),
        None => None,
    }
}

/// The anchor of the transaction, by the request to which the first view of it was heard.
pub fn anchor_heard<'a>(id: TxnId, heard: &[Hearing<'a>]) -> Option<&'a Key>
    ensures { option_copied result ≡ anchor_heard id heard.now }
{
    anchor_in(first_view(id, heard))
}

fn is_committed_at(ts: Timestamp, view: &View) -> bool
    ensures { result ≡ is_committed_at ts view.now }
{
    match view {
        View::Committed { ts: at, .. } => *at == ts,
        _ => false,
    }
}

fn shows_committed(id: TxnId, ts: Timestamp, hearing: &Hearing<'_>) -> bool
    ensures { result ≡ shows_committed id ts hearing.now }
{
    match view_in(hearing.reply) {
        Some(view) => is_about(id, hearing.request) && is_committed_at(ts, view),
        None => false,
    }
}

/// Whether the transaction was heard to be committed at this timestamp.
pub fn was_committed(heard: &[Hearing<'_>], id: TxnId, ts: Timestamp) -> bool
    ensures { IsTrue result ↔ WasCommitted heard.now id ts }
{
    heard.iter().any(|hearing| shows_committed(id, ts, hearing))
}

fn aborts_with(why: &Why, view: &View) -> bool
    ensures { IsTrue result ↔ AbortsWith why.now view.now }
{
    match view {
        View::Aborted { why: cause, .. } => same_why(cause, why),
        _ => false,
    }
}

fn shows_aborted(id: TxnId, why: &Why, hearing: &Hearing<'_>) -> bool
    ensures { IsTrue result ↔ ShowsAborted id why.now hearing.now }
{
    match view_in(hearing.reply) {
        Some(view) => is_about(id, hearing.request) && aborts_with(why, view),
        None => false,
    }
}

/// Whether the transaction was heard to be aborted, with this cause.
pub fn was_aborted(heard: &[Hearing<'_>], id: TxnId, why: &Why) -> bool
    ensures { IsTrue result ↔ WasAborted heard.now id why.now }
{
    heard.iter().any(|hearing| shows_aborted(id, why, hearing))
}
