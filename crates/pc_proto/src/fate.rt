use pc_base::{Key, NoMemory, Timestamp, TryCopy, Who};

/// What a push asks for.
#[derive(Clone, Copy, Debug, PartialEq, Eq)]
pub enum Goal {
    Abort,
    /// Move the holder to this timestamp at least.
    Move(Timestamp),
}

/// What a recovery found of the writes that a staging record lists.
#[derive(Debug, PartialEq, Eq, Drop)]
pub enum Finding {
    All,
    /// This one was missing, and is prevented for ever.
    Missing { key: Key, by: Who },
}

/// What becomes of an intent.
#[derive(Clone, Copy, Debug, PartialEq, Eq)]
pub enum Fate {
    Committed { epoch: u32, ts: Timestamp },
    Aborted,
    /// Its transaction moved to this timestamp.
    Pending { ts: Timestamp },
}

impl TryCopy for Finding {
    fn copy(&self) -> Result<Finding, NoMemory> {
        match self {
            Finding::All => Ok(Finding::All),
            Finding::Missing { key, by } => Ok(Finding::Missing {
                key: key.copy()?,
                by: *by,
            }),
        }
    }
}
