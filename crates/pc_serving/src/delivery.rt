use pc_history::{Named, Note};
use pc_range::{CommitWorld, Message, ReplyMsg, ServeFault};

/// A message that goes to its range, with a note of what it is to be evaluated after.
#[derive(Drop)]
pub struct Delivery<N: Named<CommitWorld>> {
    pub message: Message<N>,
    pub last: Note<CommitWorld, N>,
}

/// What became of a message: the reply of its range, or why there is none.
pub type Outcome<N> = Result<ReplyMsg<N>, ServeFault<N>>;
