use crate::reply::Rows;
use crate::why::Why;
use pc_base::{Key, NoMemory, Timestamp, TryCopy, TxnId, Value};

/// What a call is told.
#[derive(Debug, PartialEq, Eq, Drop)]
pub enum Answer {
    Begun { id: TxnId, ts: Timestamp },
    Value(Option<Value>),
    Rows(Rows),
    Written,
    Committed { id: TxnId, ts: Timestamp },
    /// It is over and never commits.
    RolledBack { id: TxnId, why: Why },
    Learnt,
    NotYet,
    Done,
    /// This transaction stands in the way.
    Blocked { holder: TxnId },
    /// So many sends of one request in a row were lost.
    Unavailable { faults: u32 },
    Aborted { why: Why },
    /// A read could not be refreshed past this write; the next epoch begins.
    Restart { key: Key, ts: Timestamp },
    /// The answer to a commit was lost: it may have committed or not.
    Unknown { id: TxnId },
    /// The commit was moved too often.
    Moved { ts: Timestamp },
    /// The clock's reading is past its range.
    Clock { reading: u64 },
    NoTxn,
}

impl TryCopy for Answer {
    fn copy(&self) -> Result<Answer, NoMemory> {
        match self {
            Answer::Begun { id, ts } => Ok(Answer::Begun { id: *id, ts: *ts }),
            Answer::Value(value) => Ok(Answer::Value(value.copy()?)),
            Answer::Rows(rows) => Ok(Answer::Rows(rows.copy()?)),
            Answer::Written => Ok(Answer::Written),
            Answer::Committed { id, ts } => Ok(Answer::Committed { id: *id, ts: *ts }),
            Answer::RolledBack { id, why } => Ok(Answer::RolledBack {
                id: *id,
                why: why.copy()?,
            }),
            Answer::Learnt => Ok(Answer::Learnt),
            Answer::NotYet => Ok(Answer::NotYet),
            Answer::Done => Ok(Answer::Done),
            Answer::Blocked { holder } => Ok(Answer::Blocked { holder: *holder }),
            Answer::Unavailable { faults } => Ok(Answer::Unavailable { faults: *faults }),
            Answer::Aborted { why } => Ok(Answer::Aborted { why: why.copy()? }),
            Answer::Restart { key, ts } => Ok(Answer::Restart {
                key: key.copy()?,
                ts: *ts,
            }),
            Answer::Unknown { id } => Ok(Answer::Unknown { id: *id }),
            Answer::Moved { ts } => Ok(Answer::Moved { ts: *ts }),
            Answer::Clock { reading } => Ok(Answer::Clock { reading: *reading }),
            Answer::NoTxn => Ok(Answer::NoTxn),
        }
    }
}
