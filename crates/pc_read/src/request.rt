ghost use Rattle.std.specs.Prelude.{◌≡◌, IfOk, IsSome, Some, true};
ghost use Rattle.pc_read.specs.Given.{StandsFor};
ghost use Rattle.pc_read.specs.Kinds.{is_holder_ref, is_read_ref, is_record_ref};
ghost use Rattle.pc_read.specs.Lines.{own_request};
ghost use Rattle.pc_proto.specs.declared.request.Request.TheVariants as requests;
ghost use Rattle.pc_spelling.specs.Cutting.{◌&◌, made};
ghost use Rattle.pc_spelling.specs.Reading.{id_at, key_at, keys_at, maybe_value_at, meta_at, number32_at, number64_at, point_at, priority_at, span_at, ts_at, who_at, why_at, writes_at};
ghost use Rattle.pc_spelling.specs.ReadingLines.{fate_at, finding_at, goal_at, request_at};

use crate::cut::{cut, is, word_of};
use crate::part::{MetaRef, SpanRef, WhyRef};
use crate::view::FindingRef;
use crate::{list, name, number, part, text, view};
use pc_base::{NoMemory, Priority, Timestamp, TxnId, Who};
use pc_proto::{Fate, Goal, Request};
use std::alloc::Global;

/// A request, its keys, values and lists as they stand in the input.
#[derive(Clone, Copy, Debug)]
pub enum RequestRef<'a> {
    Get {
        id: TxnId,
        epoch: u32,
        seq: u32,
        ts: Timestamp,
        key: &'a [u8],
    },
    Scan {
        id: TxnId,
        epoch: u32,
        seq: u32,
        ts: Timestamp,
        span: SpanRef<'a>,
    },
    Put {
        meta: MetaRef<'a>,
        seq: u32,
        ts: Timestamp,
        key: &'a [u8],
        value: Option<&'a [u8]>,
    },
    Refresh {
        id: TxnId,
        from: Timestamp,
        to: Timestamp,
        span: SpanRef<'a>,
    },
    Beat {
        meta: MetaRef<'a>,
        ts: Timestamp,
        now: u64,
    },
    Stage {
        meta: MetaRef<'a>,
        ts: Timestamp,
        now: u64,
        writes: &'a [u8],
        locks: &'a [u8],
    },
    Commit {
        meta: MetaRef<'a>,
        ts: Timestamp,
        locks: &'a [u8],
    },
    Abort {
        meta: MetaRef<'a>,
        why: WhyRef<'a>,
        locks: &'a [u8],
    },
    Push {
        holder: MetaRef<'a>,
        by: Who,
        level: Priority,
        now: u64,
        goal: Goal,
    },
    Query {
        id: TxnId,
        epoch: u32,
        seq: u32,
        ts: Timestamp,
        key: &'a [u8],
        by: Who,
    },
    Recover {
        id: TxnId,
        epoch: u32,
        ts: Timestamp,
        anchor: &'a [u8],
        finding: FindingRef<'a>,
    },
    Resolve {
        id: TxnId,
        key: &'a [u8],
        fate: Fate,
    },
    Remove {
        id: TxnId,
        anchor: &'a [u8],
    },
    Records,
}

#[tactic(auto, unfolding(pc_spelling::specs::ReadingLines::request_at))]
pub fn request(bytes: &[u8]) -> Option<RequestRef<'_>>
    ensures { StandsFor own_request result (request_at bytes.now) }
{
    let (word, rest) = word_of(b' ', bytes);
    match rest {
        None if is(word, b"records") => Some(RequestRef::Records),
        None => None,
        Some(rest) if is(word, b"get") => get(rest),
        Some(rest) if is(word, b"scan") => scan(rest),
        Some(rest) if is(word, b"put") => put(rest),
        Some(rest) if is(word, b"refresh") => refresh(rest),
        Some(rest) if is(word, b"query") => query(rest),
        Some(rest) if is(word, b"resolve") => resolve(rest),
        Some(rest) if is(word, b"beat") => beat(rest),
        Some(rest) if is(word, b"stage") => stage(rest),
        Some(rest) if is(word, b"commit") => commit(rest),
        Some(rest) if is(word, b"abort") => abort(rest),
        Some(rest) if is(word, b"push") => push(rest),
        Some(rest) if is(word, b"recover") => recover(rest),
        Some(rest) if is(word, b"remove") => remove(rest),
        Some(_) => None,
    }
}

/// The value of a key.
fn get(bytes: &[u8]) -> Option<RequestRef<'_>>
    ensures { StandsFor own_request result (made (λ p. requests.Get p.0.0 p.0.1.0 p.0.1.1 p.1.0 p.1.1) (point_at & ts_at & key_at) bytes.now) }
{
    let (point, rest) = cut(b' ', bytes)?;
    let (id, (epoch, seq)) = part::point(point)?;
    let (ts, rest) = cut(b' ', rest)?;
    let ts = number::timestamp(ts)?;
    let key = text::key(rest)?;
    Some(RequestRef::Get {
        id,
        epoch,
        seq,
        ts,
        key,
    })
}

/// The rows of a span.
fn scan(bytes: &[u8]) -> Option<RequestRef<'_>>
    ensures { StandsFor own_request result (made (λ p. requests.Scan p.0.0 p.0.1.0 p.0.1.1 p.1.0 p.1.1) (point_at & ts_at & span_at) bytes.now) }
{
    let (point, rest) = cut(b' ', bytes)?;
    let (id, (epoch, seq)) = part::point(point)?;
    let (ts, rest) = cut(b' ', rest)?;
    let ts = number::timestamp(ts)?;
    let span = part::span(rest)?;
    Some(RequestRef::Scan {
        id,
        epoch,
        seq,
        ts,
        span,
    })
}

/// A write, or the deletion of a key.
fn put(bytes: &[u8]) -> Option<RequestRef<'_>>
    ensures { StandsFor own_request result (made (λ p. requests.Put p.0 p.1.0 p.1.1.0 p.1.1.1.0 p.1.1.1.1) (meta_at & number32_at & ts_at & key_at & maybe_value_at) bytes.now) }
{
    let (meta, rest) = cut(b' ', bytes)?;
    let meta = part::meta(meta)?;
    let (seq, rest) = cut(b' ', rest)?;
    let seq = number::number32(seq)?;
    let (ts, rest) = cut(b' ', rest)?;
    let ts = number::timestamp(ts)?;
    let (key, rest) = cut(b' ', rest)?;
    let key = text::key(key)?;
    let value = text::maybe_value(rest)?;
    Some(RequestRef::Put {
        meta,
        seq,
        ts,
        key,
        value,
    })
}

/// Whether what was read is so at a later timestamp.
fn refresh(bytes: &[u8]) -> Option<RequestRef<'_>>
    ensures { StandsFor own_request result (made (λ p. requests.Refresh p.0 p.1.0 p.1.1.0 p.1.1.1) (id_at & ts_at & ts_at & span_at) bytes.now) }
{
    let (id, rest) = cut(b' ', bytes)?;
    let id = name::id(id)?;
    let (from, rest) = cut(b' ', rest)?;
    let from = number::timestamp(from)?;
    let (to, rest) = cut(b' ', rest)?;
    let to = number::timestamp(to)?;
    let span = part::span(rest)?;
    Some(RequestRef::Refresh { id, from, to, span })
}

/// That a transaction is alive.
fn beat(bytes: &[u8]) -> Option<RequestRef<'_>>
    ensures { StandsFor own_request result (made (λ p. requests.Beat p.0 p.1.0 p.1.1) (meta_at & ts_at & number64_at) bytes.now) }
{
    let (meta, rest) = cut(b' ', bytes)?;
    let meta = part::meta(meta)?;
    let (ts, rest) = cut(b' ', rest)?;
    let ts = number::timestamp(ts)?;
    let now = number::number64(rest)?;
    Some(RequestRef::Beat { meta, ts, now })
}

/// A record with the writes in flight.
fn stage(bytes: &[u8]) -> Option<RequestRef<'_>>
    ensures { StandsFor own_request result (made (λ p. requests.Stage p.0 p.1.0 p.1.1.0 p.1.1.1.0 p.1.1.1.1) (meta_at & ts_at & number64_at & writes_at & keys_at) bytes.now) }
{
    let (meta, rest) = cut(b' ', bytes)?;
    let meta = part::meta(meta)?;
    let (ts, rest) = cut(b' ', rest)?;
    let ts = number::timestamp(ts)?;
    let (now, rest) = cut(b' ', rest)?;
    let now = number::number64(now)?;
    let (writes, rest) = cut(b' ', rest)?;
    let writes = list::writes(writes)?;
    let locks = list::keys(rest)?;
    Some(RequestRef::Stage {
        meta,
        ts,
        now,
        writes,
        locks,
    })
}

/// A commit.
fn commit(bytes: &[u8]) -> Option<RequestRef<'_>>
    ensures { StandsFor own_request result (made (λ p. requests.Commit p.0 p.1.0 p.1.1) (meta_at & ts_at & keys_at) bytes.now) }
{
    let (meta, rest) = cut(b' ', bytes)?;
    let meta = part::meta(meta)?;
    let (ts, rest) = cut(b' ', rest)?;
    let ts = number::timestamp(ts)?;
    let locks = list::keys(rest)?;
    Some(RequestRef::Commit { meta, ts, locks })
}

/// An abort.
fn abort(bytes: &[u8]) -> Option<RequestRef<'_>>
    ensures { StandsFor own_request result (made (λ p. requests.Abort p.0 p.1.0 p.1.1) (meta_at & why_at & keys_at) bytes.now) }
{
    let (meta, rest) = cut(b' ', bytes)?;
    let meta = part::meta(meta)?;
    let (why, rest) = cut(b' ', rest)?;
    let Some(why) = part::why(why) else {
        return None;
    };
    let locks = list::keys(rest)?;
    Some(RequestRef::Abort { meta, why, locks })
}

/// A push.
fn push(bytes: &[u8]) -> Option<RequestRef<'_>>
    ensures { StandsFor own_request result (made (λ p. requests.Push p.0 p.1.0 p.1.1.0 p.1.1.1.0 p.1.1.1.1) (meta_at & who_at & priority_at & number64_at & goal_at) bytes.now) }
{
    let (holder, rest) = cut(b' ', bytes)?;
    let holder = part::meta(holder)?;
    let (by, rest) = cut(b' ', rest)?;
    let by = name::who(by)?;
    let (level, rest) = cut(b' ', rest)?;
    let level = name::priority(level)?;
    let (now, rest) = cut(b' ', rest)?;
    let now = number::number64(now)?;
    let goal = view::goal(rest)?;
    Some(RequestRef::Push {
        holder,
        by,
        level,
        now,
        goal,
    })
}

/// Whether a listed write stands.
fn query(bytes: &[u8]) -> Option<RequestRef<'_>>
    ensures { StandsFor own_request result (made (λ p. requests.Query p.0.0 p.0.1.0 p.0.1.1 p.1.0 p.1.1.0 p.1.1.1) (point_at & ts_at & key_at & who_at) bytes.now) }
{
    let (point, rest) = cut(b' ', bytes)?;
    let (id, (epoch, seq)) = part::point(point)?;
    let (ts, rest) = cut(b' ', rest)?;
    let ts = number::timestamp(ts)?;
    let (key, rest) = cut(b' ', rest)?;
    let key = text::key(key)?;
    let by = name::who(rest)?;
    Some(RequestRef::Query {
        id,
        epoch,
        seq,
        ts,
        key,
        by,
    })
}

/// What a recovery found.
fn recover(bytes: &[u8]) -> Option<RequestRef<'_>>
    ensures { StandsFor own_request result (made (λ p. requests.Recover p.0 p.1.0 p.1.1.0 p.1.1.1.0 p.1.1.1.1) (id_at & number32_at & ts_at & key_at & finding_at) bytes.now) }
{
    let (id, rest) = cut(b' ', bytes)?;
    let id = name::id(id)?;
    let (epoch, rest) = cut(b' ', rest)?;
    let epoch = number::number32(epoch)?;
    let (ts, rest) = cut(b' ', rest)?;
    let ts = number::timestamp(ts)?;
    let (anchor, rest) = cut(b' ', rest)?;
    let anchor = text::key(anchor)?;
    let finding = view::finding(rest)?;
    Some(RequestRef::Recover {
        id,
        epoch,
        ts,
        anchor,
        finding,
    })
}

/// What becomes of an intent.
fn resolve(bytes: &[u8]) -> Option<RequestRef<'_>>
    ensures { StandsFor own_request result (made (λ p. requests.Resolve p.0 p.1.0 p.1.1) (id_at & key_at & fate_at) bytes.now) }
{
    let (id, rest) = cut(b' ', bytes)?;
    let id = name::id(id)?;
    let (key, rest) = cut(b' ', rest)?;
    let key = text::key(key)?;
    let fate = view::fate(rest)?;
    Some(RequestRef::Resolve { id, key, fate })
}

/// That a record may go.
fn remove(bytes: &[u8]) -> Option<RequestRef<'_>>
    ensures { StandsFor own_request result (made (λ p. requests.Remove p.0 p.1) (id_at & key_at) bytes.now) }
{
    let (id, rest) = cut(b' ', bytes)?;
    let id = name::id(id)?;
    let anchor = text::key(rest)?;
    Some(RequestRef::Remove { id, anchor })
}

impl<'a> RequestRef<'a> {
    /// The request in memory of its own.
    pub fn request(&self, alloc: Global) -> Result<Request, NoMemory>
        requires { IsSome (own_request self.now) }
        ensures { IfOk result (λ made. own_request self.now ≡ Some made) }
    {
        match self {
            RequestRef::Get { .. } | RequestRef::Scan { .. } | RequestRef::Refresh { .. } => {
                self.owned_read(alloc)
            }
            RequestRef::Put {
                meta,
                seq,
                ts,
                key,
                value,
            } => owned_put(alloc, meta, *seq, *ts, key, *value),
            RequestRef::Push { .. } | RequestRef::Query { .. } | RequestRef::Recover { .. } =>
                self.owned_of_holder(alloc),
            RequestRef::Resolve { id, key, fate } => Ok(Request::Resolve {
                id: *id,
                key: text::owned_key(alloc, key)?,
                fate: *fate,
            }),
            RequestRef::Beat { .. }
            | RequestRef::Stage { .. }
            | RequestRef::Commit { .. }
            | RequestRef::Abort { .. }
            | RequestRef::Remove { .. } => self.owned_to_record(alloc),
            RequestRef::Records => Ok(Request::Records),
        }
    }

    /// The same of one that reads, or reads again.
    fn owned_read(&self, alloc: Global) -> Result<Request, NoMemory>
        requires own { IsSome (own_request self.now) }
        requires kind { is_read_ref self.now ≡ true }
        ensures { IfOk result (λ made. own_request self.now ≡ Some made) }
    {
        match self {
            RequestRef::Get {
                id,
                epoch,
                seq,
                ts,
                key,
            } => Ok(Request::Get {
                id: *id,
                epoch: *epoch,
                seq: *seq,
                ts: *ts,
                key: text::owned_key(alloc, key)?,
            }),
            RequestRef::Scan {
                id,
                epoch,
                seq,
                ts,
                span,
            } => Ok(Request::Scan {
                id: *id,
                epoch: *epoch,
                seq: *seq,
                ts: *ts,
                span: span.span(alloc)?,
            }),
            RequestRef::Refresh { id, from, to, span } => Ok(Request::Refresh {
                id: *id,
                from: *from,
                to: *to,
                span: span.span(alloc)?,
            }),
            _ => unreachable!(),
        }
    }

    /// The same of one that pushes, queries or recovers the holder of an intent.
    fn owned_of_holder(&self, alloc: Global) -> Result<Request, NoMemory>
        requires own { IsSome (own_request self.now) }
        requires kind { is_holder_ref self.now ≡ true }
        ensures { IfOk result (λ made. own_request self.now ≡ Some made) }
    {
        match self {
            RequestRef::Push {
                holder,
                by,
                level,
                now,
                goal,
            } => Ok(Request::Push {
                holder: holder.meta(alloc)?,
                by: *by,
                level: *level,
                now: *now,
                goal: *goal,
            }),
            RequestRef::Query {
                id,
                epoch,
                seq,
                ts,
                key,
                by,
            } => Ok(Request::Query {
                id: *id,
                epoch: *epoch,
                seq: *seq,
                ts: *ts,
                key: text::owned_key(alloc, key)?,
                by: *by,
            }),
            RequestRef::Recover {
                id,
                epoch,
                ts,
                anchor,
                finding,
            } => owned_recover(alloc, *id, *epoch, *ts, anchor, finding),
            _ => unreachable!(),
        }
    }

    /// The same of one that speaks of the record of the session's own transaction, or removes one.
    fn owned_to_record(&self, alloc: Global) -> Result<Request, NoMemory>
        requires own { IsSome (own_request self.now) }
        requires kind { is_record_ref self.now ≡ true }
        ensures { IfOk result (λ made. own_request self.now ≡ Some made) }
    {
        match self {
            RequestRef::Beat { meta, ts, now } => Ok(Request::Beat {
                meta: meta.meta(alloc)?,
                ts: *ts,
                now: *now,
            }),
            RequestRef::Stage {
                meta,
                ts,
                now,
                writes,
                locks,
            } => owned_stage(alloc, meta, *ts, *now, writes, locks),
            RequestRef::Commit { meta, ts, locks } => owned_commit(alloc, meta, *ts, locks),
            RequestRef::Abort { meta, why, locks } => owned_abort(alloc, meta, why, locks),
            RequestRef::Remove { id, anchor } => Ok(Request::Remove {
                id: *id,
                anchor: text::owned_key(alloc, anchor)?,
            }),
            _ => unreachable!(),
        }
    }
}

fn owned_put(
    alloc: Global,
    meta: &MetaRef<'_>,
    seq: u32,
    ts: Timestamp,
    key: &[u8],
    value: Option<&[u8]>,
) -> Result<Request, NoMemory>
    requires { IsSome (own_request (RequestRef.Put meta.now seq ts key value)) }
    ensures { IfOk result (λ made. own_request (RequestRef.Put meta.now seq ts key.entry value.entry) ≡ Some made) }
{
    let meta = meta.meta(alloc)?;
    let key = text::owned_key(alloc, key)?;
    let value = text::owned_maybe_value(alloc, value)?;
    Ok(Request::Put {
        meta,
        seq,
        ts,
        key,
        value,
    })
}

fn owned_stage(
    alloc: Global,
    meta: &MetaRef<'_>,
    ts: Timestamp,
    now: u64,
    writes: &[u8],
    locks: &[u8],
) -> Result<Request, NoMemory>
    requires { IsSome (own_request (RequestRef.Stage meta.now ts now writes locks)) }
    ensures { IfOk result (λ made. own_request (RequestRef.Stage meta.now ts now writes.entry locks.entry) ≡ Some made) }
{
    let meta = meta.meta(alloc)?;
    let writes = list::owned_writes(alloc, writes)?;
    let locks = list::owned_keys(alloc, locks)?;
    Ok(Request::Stage {
        meta,
        ts,
        now,
        writes,
        locks,
    })
}

fn owned_commit(
    alloc: Global,
    meta: &MetaRef<'_>,
    ts: Timestamp,
    locks: &[u8],
) -> Result<Request, NoMemory>
    requires { IsSome (own_request (RequestRef.Commit meta.now ts locks)) }
    ensures { IfOk result (λ made. own_request (RequestRef.Commit meta.now ts locks.entry) ≡ Some made) }
{
    let meta = meta.meta(alloc)?;
    let locks = list::owned_keys(alloc, locks)?;
    Ok(Request::Commit { meta, ts, locks })
}

fn owned_abort(
    alloc: Global,
    meta: &MetaRef<'_>,
    why: &WhyRef<'_>,
    locks: &[u8],
) -> Result<Request, NoMemory>
    requires { IsSome (own_request (RequestRef.Abort meta.now why.now locks)) }
    ensures { IfOk result (λ made. own_request (RequestRef.Abort meta.now why.now locks.entry) ≡ Some made) }
{
    let meta = meta.meta(alloc)?;
    let why = why.why(alloc)?;
    let locks = list::owned_keys(alloc, locks)?;
    Ok(Request::Abort { meta, why, locks })
}

fn owned_recover(
    alloc: Global,
    id: TxnId,
    epoch: u32,
    ts: Timestamp,
    anchor: &[u8],
    finding: &FindingRef<'_>,
) -> Result<Request, NoMemory>
    requires { IsSome (own_request (RequestRef.Recover id epoch ts anchor finding.now)) }
    ensures { IfOk result (λ made. own_request (RequestRef.Recover id epoch ts anchor.entry finding.now) ≡ Some made) }
{
    let anchor = text::owned_key(alloc, anchor)?;
    let finding = finding.finding(alloc)?;
    Ok(Request::Recover {
        id,
        epoch,
        ts,
        anchor,
        finding,
    })
}
