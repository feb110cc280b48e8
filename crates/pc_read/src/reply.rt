ghost use Rattle.std.specs.Prelude.{◌≡◌, IfOk, IsSome, Some};
ghost use Rattle.pc_read.specs.Given.{StandsFor};
ghost use Rattle.pc_read.specs.Lines.{own_reply};
ghost use Rattle.pc_proto.specs.declared.reply.Reply.TheVariants as replies;
ghost use Rattle.pc_spelling.specs.Cutting.{◌&◌, list_at, made};
ghost use Rattle.pc_spelling.specs.Reading.{key_at, maybe_value_at, meta_at, origin_at, row_at, ts_at};
ghost use Rattle.pc_spelling.specs.ReadingLines.{reply_at, view_at};

use crate::cut::{cut, is, word_of};
use crate::part::MetaRef;
use crate::view::ViewRef;
use crate::{list, number, part, text, view};
use pc_base::{NoMemory, Timestamp};
use pc_proto::{Origin, Reply};
use std::alloc::Global;

/// A reply, its keys, values and lists as they stand in the input.
#[derive(Clone, Copy, Debug)]
pub enum ReplyRef<'a> {
    Value {
        origin: Origin,
        value: Option<&'a [u8]>,
    },
    Rows(&'a [u8]),
    Conflict {
        holder: MetaRef<'a>,
        ts: Timestamp,
        key: &'a [u8],
    },
    Written {
        ts: Timestamp,
    },
    Refreshed,
    Unrefreshed {
        key: &'a [u8],
        ts: Timestamp,
    },
    Status(ViewRef<'a>),
    Refused(ViewRef<'a>),
    Unsure(ViewRef<'a>),
    Found,
    Missing,
    Resolved,
    Removed,
    Listed(&'a [u8]),
}

#[tactic(auto, unfolding(pc_spelling::specs::ReadingLines::reply_at))]
pub fn reply(bytes: &[u8]) -> Option<ReplyRef<'_>>
    ensures { StandsFor own_reply result (reply_at bytes.now) }
{
    let (word, rest) = word_of(b' ', bytes);
    match rest {
        None if is(word, b"refreshed") => Some(ReplyRef::Refreshed),
        None if is(word, b"found") => Some(ReplyRef::Found),
        None if is(word, b"missing") => Some(ReplyRef::Missing),
        None if is(word, b"resolved") => Some(ReplyRef::Resolved),
        None if is(word, b"removed") => Some(ReplyRef::Removed),
        None => None,
        Some(rest) if is(word, b"value") => read(rest),
        Some(rest) if is(word, b"rows") => found_rows(rest),
        Some(rest) if is(word, b"conflict") => conflict(rest),
        Some(rest) if is(word, b"written") => written(rest),
        Some(rest) if is(word, b"unrefreshed") => unrefreshed(rest),
        Some(rest) if is(word, b"status") => status(rest),
        Some(rest) if is(word, b"refused") => refused(rest),
        Some(rest) if is(word, b"unsure") => unsure(rest),
        Some(rest) if is(word, b"listed") => listed(rest),
        Some(_) => None,
    }
}

/// What a get read.
fn read(bytes: &[u8]) -> Option<ReplyRef<'_>>
    ensures { StandsFor own_reply result (made (λ p. replies.Value p.0 p.1) (origin_at & maybe_value_at) bytes.now) }
{
    let (origin, rest) = cut(b' ', bytes)?;
    let origin = number::origin(origin)?;
    let value = text::maybe_value(rest)?;
    Some(ReplyRef::Value { origin, value })
}

/// Another transaction's intent.
fn conflict(bytes: &[u8]) -> Option<ReplyRef<'_>>
    ensures { StandsFor own_reply result (made (λ p. replies.Conflict p.0 p.1.0 p.1.1) (meta_at & ts_at & key_at) bytes.now) }
{
    let (holder, rest) = cut(b' ', bytes)?;
    let holder = part::meta(holder)?;
    let (ts, rest) = cut(b' ', rest)?;
    let ts = number::timestamp(ts)?;
    let key = text::key(rest)?;
    Some(ReplyRef::Conflict { holder, ts, key })
}

/// Where a write stands.
fn written(bytes: &[u8]) -> Option<ReplyRef<'_>>
    ensures { StandsFor own_reply result (made (λ p. replies.Written p) (ts_at) bytes.now) }
{
    let ts = number::timestamp(bytes)?;
    Some(ReplyRef::Written { ts })
}

/// What stands in the way of a refresh.
fn unrefreshed(bytes: &[u8]) -> Option<ReplyRef<'_>>
    ensures { StandsFor own_reply result (made (λ p. replies.Unrefreshed p.0 p.1) (key_at & ts_at) bytes.now) }
{
    let (key, rest) = cut(b' ', bytes)?;
    let key = text::key(key)?;
    let ts = number::timestamp(rest)?;
    Some(ReplyRef::Unrefreshed { key, ts })
}

/// What a record or mark says.
fn status(bytes: &[u8]) -> Option<ReplyRef<'_>>
    ensures { StandsFor own_reply result (made (λ p. replies.Status p) (view_at) bytes.now) }
{
    let Some(view) = view::view(bytes) else {
        return None;
    };
    Some(ReplyRef::Status(view))
}

/// What the record of a push that did not win says.
fn refused(bytes: &[u8]) -> Option<ReplyRef<'_>>
    ensures { StandsFor own_reply result (made (λ p. replies.Refused p) (view_at) bytes.now) }
{
    let Some(view) = view::view(bytes) else {
        return None;
    };
    Some(ReplyRef::Refused(view))
}

/// What a staging record says.
fn unsure(bytes: &[u8]) -> Option<ReplyRef<'_>>
    ensures { StandsFor own_reply result (made (λ p. replies.Unsure p) (view_at) bytes.now) }
{
    let Some(view) = view::view(bytes) else {
        return None;
    };
    Some(ReplyRef::Unsure(view))
}

/// The rows of a scan.
fn found_rows(bytes: &[u8]) -> Option<ReplyRef<'_>>
    ensures { StandsFor own_reply result (made (λ p. replies.Rows p) (list_at row_at) bytes.now) }
{
    let rows = list::rows(bytes)?;
    Some(ReplyRef::Rows(rows))
}

/// The metas of the records.
fn listed(bytes: &[u8]) -> Option<ReplyRef<'_>>
    ensures { StandsFor own_reply result (made (λ p. replies.Listed p) (list_at meta_at) bytes.now) }
{
    let metas = list::metas(bytes)?;
    Some(ReplyRef::Listed(metas))
}

impl<'a> ReplyRef<'a> {
    /// The reply in memory of its own.
    pub fn reply(&self, alloc: Global) -> Result<Reply, NoMemory>
        requires { IsSome (own_reply self.now) }
        ensures { IfOk result (λ made. own_reply self.now ≡ Some made) }
    {
        match self {
            ReplyRef::Value { origin, value } => Ok(Reply::Value {
                origin: *origin,
                value: text::owned_maybe_value(alloc, *value)?,
            }),
            ReplyRef::Rows(rows) => Ok(Reply::Rows(list::owned_rows(alloc, rows)?)),
            ReplyRef::Conflict { holder, ts, key } => {
                let holder = holder.meta(alloc)?;
                let key = text::owned_key(alloc, key)?;
                Ok(Reply::Conflict {
                    holder,
                    ts: *ts,
                    key,
                })
            }
            ReplyRef::Written { ts } => Ok(Reply::Written { ts: *ts }),
            ReplyRef::Refreshed => Ok(Reply::Refreshed),
            ReplyRef::Unrefreshed { key, ts } => Ok(Reply::Unrefreshed {
                key: text::owned_key(alloc, key)?,
                ts: *ts,
            }),
            ReplyRef::Status(view) => Ok(Reply::Status(view.view(alloc)?)),
            ReplyRef::Refused(view) => Ok(Reply::Refused(view.view(alloc)?)),
            ReplyRef::Unsure(view) => Ok(Reply::Unsure(view.view(alloc)?)),
            ReplyRef::Found => Ok(Reply::Found),
            ReplyRef::Missing => Ok(Reply::Missing),
            ReplyRef::Resolved => Ok(Reply::Resolved),
            ReplyRef::Removed => Ok(Reply::Removed),
            ReplyRef::Listed(metas) => Ok(Reply::Listed(list::owned_metas(alloc, metas)?)),
        }
    }
}
