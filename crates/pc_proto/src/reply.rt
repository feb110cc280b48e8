ghost use Rattle.std.specs.Prelude.{◌≡◌};
ghost use Rattle.std.specs.Option.{option_and_then};
ghost use Rattle.pc_proto.specs.Replies.{holder_in, view_in};
ghost use Rattle.pc_proto.specs.Stamps.{greatest_of, origin_stamps, reply_stamps, row_stamps};
ghost use Rattle.pc_proto.specs.Views.{final_fate};

use crate::fate::Fate;
use crate::meta::{Metas, TxnMeta};
use crate::view::View;
use pc_base::{Items, Key, NoMemory, Timestamp, TryCopy, TxnId, Value};

/// Where a value that was read comes from.
#[derive(Clone, Copy, Debug, PartialEq, Eq)]
pub enum Origin {
    /// There is no value.
    Nothing,
    /// The reader's own intent.
    Own,
    /// The version of this timestamp.
    At(Timestamp),
}

/// Rows that a scan read: key, origin, value.
pub type Rows = Items<(Key, Origin, Value)>;

/// What a range answers.
#[derive(Debug, PartialEq, Eq, Drop)]
pub enum Reply {
    /// What a get read; no value is a deletion or nothing at all.
    Value {
        origin: Origin,
        value: Option<Value>,
    },
    Rows(Rows),
    /// Another transaction's intent stands in the way.
    Conflict {
        holder: TxnMeta,
        ts: Timestamp,
        key: Key,
    },
    /// The write stands at this timestamp.
    Written {
        ts: Timestamp,
    },
    Refreshed,
    /// A write of another lies where the read was to be refreshed.
    Unrefreshed {
        key: Key,
        ts: Timestamp,
    },
    /// The record or mark after the request.
    Status(View),
    /// The push did not win.
    Refused(View),
    /// The push won against a staging record, which only a recovery may decide.
    Unsure(View),
    Found,
    Missing,
    Resolved,
    Removed,
    Listed(Metas),
}

impl Origin {
    /// The timestamp of the version, zero where there is none.
    pub fn stamp(&self) -> Timestamp
        ensures { result ≡ greatest_of (origin_stamps self.now) }
    {
        match self {
            Origin::At(ts) => *ts,
            Origin::Nothing | Origin::Own => Timestamp::ZERO,
        }
    }
}

impl Reply {
    /// The fate that the reply shows, where it has a final view.
    pub fn fate(&self) -> Option<Fate>
        ensures { result ≡ option_and_then final_fate (view_in self.now) }
    {
        match self {
            Reply::Status(view) | Reply::Refused(view) | Reply::Unsure(view) => view.fate(),
            _ => None,
        }
    }

    /// The transaction whose intent stood in the way, where the reply is a conflict.
    pub fn holder(&self) -> Option<TxnId>
        ensures { result ≡ holder_in self.now }
    {
        match self {
            Reply::Conflict { holder, .. } => Some(holder.id),
            _ => None,
        }
    }

    /// The greatest timestamp in the reply, zero where there is none.
    pub fn last_stamp(&self) -> Timestamp
        ensures { result ≡ greatest_of (reply_stamps self.now) }
    {
        match self {
            Reply::Value { origin, .. } => origin.stamp(),
            Reply::Rows(rows) => last_of_rows(rows),
            Reply::Conflict { ts, .. } | Reply::Written { ts } | Reply::Unrefreshed { ts, .. } => {
                *ts
            }
            Reply::Status(view) | Reply::Refused(view) | Reply::Unsure(view) => view.last_stamp(),
            Reply::Refreshed
            | Reply::Found
            | Reply::Missing
            | Reply::Resolved
            | Reply::Removed
            | Reply::Listed(_) => Timestamp::ZERO,
        }
    }
}

fn last_of_rows(rows: &Rows) -> Timestamp
    ensures { result ≡ greatest_of (row_stamps rows.now) }
{
    let mut last = Timestamp::ZERO;
    for row in rows.as_slice() {
        last = last.max(row.1.stamp());
    }
    last
}

impl TryCopy for Origin {
    fn copy(&self) -> Result<Origin, NoMemory> {
        Ok(*self)
    }
}

impl TryCopy for Reply {
    fn copy(&self) -> Result<Reply, NoMemory> {
        match self {
            Reply::Value { origin, value } => Ok(Reply::Value {
                origin: *origin,
                value: value.copy()?,
            }),
            Reply::Rows(rows) => Ok(Reply::Rows(rows.copy()?)),
            Reply::Conflict { holder, ts, key } => {
                let holder = holder.copy()?;
                let key = key.copy()?;
                Ok(Reply::Conflict {
                    holder,
                    ts: *ts,
                    key,
                })
            }
            Reply::Written { ts } => Ok(Reply::Written { ts: *ts }),
            Reply::Refreshed => Ok(Reply::Refreshed),
            Reply::Unrefreshed { key, ts } => Ok(Reply::Unrefreshed {
                key: key.copy()?,
                ts: *ts,
            }),
            Reply::Status(view) => Ok(Reply::Status(view.copy()?)),
            Reply::Refused(view) => Ok(Reply::Refused(view.copy()?)),
            Reply::Unsure(view) => Ok(Reply::Unsure(view.copy()?)),
            Reply::Found => Ok(Reply::Found),
            Reply::Missing => Ok(Reply::Missing),
            Reply::Resolved => Ok(Reply::Resolved),
            Reply::Removed => Ok(Reply::Removed),
            Reply::Listed(metas) => Ok(Reply::Listed(metas.copy()?)),
        }
    }
}
