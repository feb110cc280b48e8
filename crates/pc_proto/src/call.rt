use pc_base::{Key, NoMemory, Priority, Span, TryCopy, TxnId, Value};

/// What a client asks of its session, or of a recoverer.
#[derive(Debug, PartialEq, Eq, Drop)]
pub enum Call {
    Begin(Priority),
    Get(Key),
    Scan(Span),
    Put(Key, Value),
    Delete(Key),
    Commit,
    Rollback,
    /// Learn of a commit that another session was told of.
    Learn(TxnId),
    /// One round of recovery.
    Round,
}

impl TryCopy for Call {
    fn copy(&self) -> Result<Call, NoMemory> {
        match self {
            Call::Begin(priority) => Ok(Call::Begin(*priority)),
            Call::Get(key) => Ok(Call::Get(key.copy()?)),
            Call::Scan(span) => Ok(Call::Scan(span.copy()?)),
            Call::Put(key, value) => {
                let key = key.copy()?;
                let value = value.copy()?;
                Ok(Call::Put(key, value))
            }
            Call::Delete(key) => Ok(Call::Delete(key.copy()?)),
            Call::Commit => Ok(Call::Commit),
            Call::Rollback => Ok(Call::Rollback),
            Call::Learn(id) => Ok(Call::Learn(*id)),
            Call::Round => Ok(Call::Round),
        }
    }
}
