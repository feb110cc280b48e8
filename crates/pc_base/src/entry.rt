use crate::actor::ActorId;

/// One line of the journal: the step at which it happened, who made it, and what happened.
#[derive(Debug, Drop)]
pub struct Entry<E> {
    pub step: u64,
    pub actor: ActorId,
    pub event: E,
}
