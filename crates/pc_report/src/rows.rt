use pc_base::{Items, Key, Timestamp, TxnId, Value};
use pc_proto::Why;

/// The last write of each key, in key order; no value is a deletion.
pub type LastWrites = Items<(Key, Option<Value>)>;

/// A committed transaction, and what it left behind.
#[derive(Debug, PartialEq, Eq, Drop)]
pub struct CommittedRow {
    pub id: TxnId,
    pub ts: Timestamp,
    pub writes: LastWrites,
}

/// What became of a transaction that did not commit.
#[derive(Debug, PartialEq, Eq, Drop)]
pub enum Ending {
    Aborted(Why),
    /// It is open, and has no record.
    NoRecord,
    Pending,
    Staging,
}

/// A transaction that did not commit.
#[derive(Debug, PartialEq, Eq, Drop)]
pub struct OtherRow {
    pub id: TxnId,
    pub ending: Ending,
}

/// A key and its value after all committed transactions.
pub type MapRow = (Key, Value);

/// By commit timestamp, and then by the step of the commit.
pub type CommittedRows = Items<CommittedRow>;

/// By session and number.
pub type OtherRows = Items<OtherRow>;

/// In key order.
pub type MapRows = Items<MapRow>;

/// What a history comes to.
#[derive(Debug, PartialEq, Eq, Drop)]
pub struct Report {
    pub committed: CommittedRows,
    pub others: OtherRows,
    pub map: MapRows,
}
