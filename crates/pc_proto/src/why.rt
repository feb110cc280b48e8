use pc_base::{Key, NoMemory, Timestamp, TryCopy, Who};

/// Why a transaction was aborted.
#[derive(Debug, PartialEq, Eq, Drop)]
pub enum Why {
    /// A push with the goal to abort won.
    Pushed { by: Who },
    /// A recovery found this listed write missing, and prevented it.
    Missing { key: Key, by: Who },
    /// A read could not be refreshed past this write, and the client gave up.
    Refresh { key: Key, ts: Timestamp },
    /// The client asked for it.
    Client,
}

impl TryCopy for Why {
    fn copy(&self) -> Result<Why, NoMemory> {
        match self {
            Why::Pushed { by } => Ok(Why::Pushed { by: *by }),
            Why::Missing { key, by } => Ok(Why::Missing {
                key: key.copy()?,
                by: *by,
            }),
            Why::Refresh { key, ts } => Ok(Why::Refresh {
                key: key.copy()?,
                ts: *ts,
            }),
            Why::Client => Ok(Why::Client),
        }
    }
}
