use crate::meta::TxnMeta;
use crate::request::{Keys, Writes};
use crate::why::Why;
use pc_base::{Items, NoMemory, Timestamp, TryCopy, Value};

/// Where a transaction stands. Committed and aborted are final.
#[derive(Debug, PartialEq, Eq, Drop)]
pub enum Standing {
    Pending,
    Staging,
    Committed,
    Aborted(Why),
}

/// What a record says of its transaction, and what its mark keeps for good.
#[derive(Debug, PartialEq, Eq, Drop)]
pub struct Status {
    pub standing: Standing,
    pub epoch: u32,
    pub ts: Timestamp,
}

/// A transaction record.
#[derive(Debug, PartialEq, Eq, Drop)]
pub struct Record {
    pub meta: TxnMeta,
    pub status: Status,
    /// The last reading at which the transaction was known alive, in nanoseconds.
    pub activity: u64,
    /// The writes that a staging record waits for.
    pub writes: Writes,
    /// The keys at which the transaction may have intents.
    pub locks: Keys,
}

/// A transaction's writes of one key in one epoch, by sequence.
pub type History = Items<(u32, Option<Value>)>;

/// An uncommitted write at a key.
#[derive(Debug, PartialEq, Eq, Drop)]
pub struct Intent {
    pub meta: TxnMeta,
    pub ts: Timestamp,
    pub history: History,
}

impl TryCopy for Standing {
    fn copy(&self) -> Result<Standing, NoMemory> {
        match self {
            Standing::Pending => Ok(Standing::Pending),
            Standing::Staging => Ok(Standing::Staging),
            Standing::Committed => Ok(Standing::Committed),
            Standing::Aborted(why) => Ok(Standing::Aborted(why.copy()?)),
        }
    }
}

impl TryCopy for Status {
    fn copy(&self) -> Result<Status, NoMemory> {
        let standing = self.standing.copy()?;
        Ok(Status {
            standing,
            epoch: self.epoch,
            ts: self.ts,
        })
    }
}
