use crate::memory::{NoMemory, TryCopy};

/// A transaction's name: its session and its number there, both from 1. Printed `session.number`.
#[derive(Clone, Copy, Debug, PartialEq, Eq, PartialOrd, Ord)]
pub struct TxnId {
    pub session: u32,
    pub number: u32,
}

/// How strongly a transaction pushes others that stand in its way.
#[derive(Clone, Copy, Debug, PartialEq, Eq, PartialOrd, Ord)]
pub enum Priority {
    Low,
    Normal,
    High,
}

/// Who pushes, queries or aborts: a transaction, or a recoverer by its number from 1.
#[derive(Clone, Copy, Debug, PartialEq, Eq, PartialOrd, Ord)]
pub enum Who {
    Txn(TxnId),
    Recoverer(u32),
}

impl TryCopy for TxnId {
    fn copy(&self) -> Result<TxnId, NoMemory> {
        Ok(*self)
    }
}
