use crate::key::Key;
use crate::timestamp::Timestamp;
use crate::transaction::TxnId;
use crate::value::Value;

/// A committed value of a key, or its deletion.
#[derive(Debug, PartialEq, Eq, Drop)]
pub struct Version {
    pub key: Key,
    pub ts: Timestamp,
    pub id: TxnId,
    pub value: Option<Value>,
}
