use pc_base::{ActorId, NoMemory};

/// Why an actor makes no more entries.
#[derive(Debug, Drop)]
pub enum Halt {
    /// It has stopped: at the entry that its workload states, or at an earlier refusal.
    Stopped,
    /// One more entry is due, and the list of this actor has as many as it may have.
    Full { actor: ActorId },
    NoMemory,
}

impl From<NoMemory> for Halt {
    fn from(_refused: NoMemory) -> Halt {
        Halt::NoMemory
    }
}
