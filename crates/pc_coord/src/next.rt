use pc_base::Timestamp;
use pc_proto::{Answer, Reply, Request};

/// What is due next.
#[derive(Debug, PartialEq, Eq, Drop)]
pub enum Next {
    /// This request is to be sent.
    Send(Request),
    /// This put is to be sent; it is told written at once, and waits in the outbox until a wave waits for it.
    Later(Request),
    /// The requests that are waited for are to be delivered.
    Wave,
    /// The message of this number met this conflict, for which a round is to be made. A reader's is told at which timestamp it reads.
    Conflict {
        number: u64,
        conflict: Reply,
        reader: Option<Timestamp>,
    },
    /// The open call is to be told this.
    Tell(Answer),
    /// Nothing is due: no call is open.
    Idle,
}
