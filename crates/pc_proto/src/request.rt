ghost use Rattle.std.specs.Prelude.{◌≡◌, IfOk};

use crate::fate::{Fate, Finding, Goal};
use crate::meta::TxnMeta;
use crate::why::Why;
use pc_base::{Items, Key, NoMemory, Priority, Span, Timestamp, TryCopy, TxnId, Value, Who};

/// Writes by key and sequence.
pub type Writes = Items<(Key, u32)>;

/// Keys in a message.
pub type Keys = Items<Key>;

/// What an actor asks of one range.
#[derive(Debug, PartialEq, Eq, Drop)]
pub enum Request {
    /// Read a key, with the transaction's own writes up to `seq`.
    Get {
        id: TxnId,
        epoch: u32,
        seq: u32,
        ts: Timestamp,
        key: Key,
    },
    /// Read the keys of a span that lies in one range.
    Scan {
        id: TxnId,
        epoch: u32,
        seq: u32,
        ts: Timestamp,
        span: Span,
    },
    /// Lay an intent; no value is a deletion.
    Put {
        meta: TxnMeta,
        seq: u32,
        ts: Timestamp,
        key: Key,
        value: Option<Value>,
    },
    /// Ask whether what was read at `from` is still so at `to`.
    Refresh {
        id: TxnId,
        from: Timestamp,
        to: Timestamp,
        span: Span,
    },
    /// Show that the transaction is alive.
    Beat {
        meta: TxnMeta,
        ts: Timestamp,
        now: u64,
    },
    /// Stage the record with the writes that are still in flight.
    Stage {
        meta: TxnMeta,
        ts: Timestamp,
        now: u64,
        writes: Writes,
        locks: Keys,
    },
    /// Make the record committed.
    Commit {
        meta: TxnMeta,
        ts: Timestamp,
        locks: Keys,
    },
    /// Make the record aborted.
    Abort {
        meta: TxnMeta,
        why: Why,
        locks: Keys,
    },
    /// Abort or move a transaction that stands in the way.
    Push {
        holder: TxnMeta,
        by: Who,
        level: Priority,
        now: u64,
        goal: Goal,
    },
    /// Ask whether a listed write stands, and prevent it where it does not.
    Query {
        id: TxnId,
        epoch: u32,
        seq: u32,
        ts: Timestamp,
        key: Key,
        by: Who,
    },
    /// Decide a staging record by what was found of its writes.
    Recover {
        id: TxnId,
        epoch: u32,
        ts: Timestamp,
        anchor: Key,
        finding: Finding,
    },
    /// Settle an intent.
    Resolve {
        id: TxnId,
        key: Key,
        fate: Fate,
    },
    /// Turn a final record into its mark.
    Remove {
        id: TxnId,
        anchor: Key,
    },
    /// List the records of the range.
    Records,
}

impl TryCopy for Request {
    fn copy(&self) -> Result<Request, NoMemory> {
        match self {
            Request::Get {
                id,
                epoch,
                seq,
                ts,
                key,
            } => Ok(Request::Get {
                id: *id,
                epoch: *epoch,
                seq: *seq,
                ts: *ts,
                key: key.copy()?,
            }),
            Request::Scan {
                id,
                epoch,
                seq,
                ts,
                span,
            } => Ok(Request::Scan {
                id: *id,
                epoch: *epoch,
                seq: *seq,
                ts: *ts,
                span: span.copy()?,
            }),
            Request::Put {
                meta,
                seq,
                ts,
                key,
                value,
            } => copy_put(meta, *seq, *ts, key, value),
            Request::Refresh { id, from, to, span } => Ok(Request::Refresh {
                id: *id,
                from: *from,
                to: *to,
                span: span.copy()?,
            }),
            Request::Beat { meta, ts, now } => Ok(Request::Beat {
                meta: meta.copy()?,
                ts: *ts,
                now: *now,
            }),
            Request::Stage {
                meta,
                ts,
                now,
                writes,
                locks,
            } => copy_stage(meta, *ts, *now, writes, locks),
            Request::Commit { meta, ts, locks } => {
                let meta = meta.copy()?;
                let locks = locks.copy()?;
                Ok(Request::Commit {
                    meta,
                    ts: *ts,
                    locks,
                })
            }
            Request::Abort { meta, why, locks } => copy_abort(meta, why, locks),
            Request::Push {
                holder,
                by,
                level,
                now,
                goal,
            } => Ok(Request::Push {
                holder: holder.copy()?,
                by: *by,
                level: *level,
                now: *now,
                goal: *goal,
            }),
            Request::Query {
                id,
                epoch,
                seq,
                ts,
                key,
                by,
            } => Ok(Request::Query {
                id: *id,
                epoch: *epoch,
                seq: *seq,
                ts: *ts,
                key: key.copy()?,
                by: *by,
            }),
            Request::Recover {
                id,
                epoch,
                ts,
                anchor,
                finding,
            } => {
                let anchor = anchor.copy()?;
                let finding = finding.copy()?;
                Ok(Request::Recover {
                    id: *id,
                    epoch: *epoch,
                    ts: *ts,
                    anchor,
                    finding,
                })
            }
            Request::Resolve { id, key, fate } => Ok(Request::Resolve {
                id: *id,
                key: key.copy()?,
                fate: *fate,
            }),
            Request::Remove { id, anchor } => Ok(Request::Remove {
                id: *id,
                anchor: anchor.copy()?,
            }),
            Request::Records => Ok(Request::Records),
        }
    }
}

fn copy_put(
    meta: &TxnMeta,
    seq: u32,
    ts: Timestamp,
    key: &Key,
    value: &Option<Value>,
) -> Result<Request, NoMemory>
    ensures { IfOk result (λ made. made ≡ Request.Put meta.now seq ts key.now value.now) }
{
    let meta = meta.copy()?;
    let key = key.copy()?;
    let value = value.copy()?;
    Ok(Request::Put {
        meta,
        seq,
        ts,
        key,
        value,
    })
}

fn copy_stage(
    meta: &TxnMeta,
    ts: Timestamp,
    now: u64,
    writes: &Writes,
    locks: &Keys,
) -> Result<Request, NoMemory>
    ensures { IfOk result (λ made. made ≡ Request.Stage meta.now ts now writes.now locks.now) }
{
    let meta = meta.copy()?;
    let writes = writes.copy()?;
    let locks = locks.copy()?;
    Ok(Request::Stage {
        meta,
        ts,
        now,
        writes,
        locks,
    })
}

fn copy_abort(meta: &TxnMeta, why: &Why, locks: &Keys) -> Result<Request, NoMemory>
    ensures { IfOk result (λ made. made ≡ Request.Abort meta.now why.now locks.now) }
{
    let meta = meta.copy()?;
    let why = why.copy()?;
    let locks = locks.copy()?;
    Ok(Request::Abort { meta, why, locks })
}
