use pc_base::{Items, Key, NoMemory, Priority, TryCopy, TxnId};

/// What a transaction tells of itself wherever it goes.
#[derive(Debug, PartialEq, Eq, Drop)]
pub struct TxnMeta {
    pub id: TxnId,
    /// How often it has restarted.
    pub epoch: u32,
    pub priority: Priority,
    /// Its session's reading at its begin, in nanoseconds.
    pub born: u64,
    /// The key of its first write, on whose range its record lives.
    pub anchor: Key,
}

/// Metas in a message.
pub type Metas = Items<TxnMeta>;

impl TryCopy for TxnMeta {
    fn copy(&self) -> Result<TxnMeta, NoMemory> {
        let anchor = self.anchor.copy()?;
        Ok(TxnMeta {
            id: self.id,
            epoch: self.epoch,
            priority: self.priority,
            born: self.born,
            anchor,
        })
    }
}
