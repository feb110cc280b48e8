ghost use Rattle.pc_range.specs.Message.{IsSendNote};

use crate::commit_world::CommitWorld;
use pc_base::{ActorId, NoMemory};
use pc_history::{Named, Note};
use pc_proto::{Reply, Request};

/// A message on its way to a range, with a note of the entry in which it was sent.
#[derive(Drop)]
pub struct Message<N: Named<CommitWorld>> {
    pub sender: ActorId,
    pub number: u64,
    pub range: u32,
    pub request: Request,
    pub note: Note<CommitWorld, N>,
    pub ghost noted: { IsSendNote sender number range request note.known },
}

/// A range's reply to a message, with a note of the entry in which it was evaluated.
#[derive(Drop)]
pub struct ReplyMsg<N: Named<CommitWorld>> {
    pub number: u64,
    pub step: u64,
    pub reply: Reply,
    pub note: Note<CommitWorld, N>,
}

/// Why a range did not serve a message.
#[derive(Drop)]
pub enum ServeFault<N: Named<CommitWorld>> {
    /// The range has as many entries as it may have, of which the note tells the last one. It gives the message back, which it has not
    /// evaluated.
    Full {
        range: u32,
        last: Note<CommitWorld, N>,
        message: Message<N>,
    },
    NoMemory,
}

impl<N: Named<CommitWorld>> From<NoMemory> for ServeFault<N> {
    fn from(_refused: NoMemory) -> ServeFault<N> {
        ServeFault::NoMemory
    }
}
