use crate::answer::Answer;
use crate::call::Call;
use crate::reply::Reply;
use crate::request::Request;
use pc_base::{ActorId, NoMemory, TryCopy, TxnId};

/// What happened in one step.
#[derive(Debug, PartialEq, Eq, Drop)]
pub enum Event {
    /// A call was asked, at this reading of the actor's clock.
    Ask {
        call: Call,
        reading: u64,
    },
    /// The actor's send of this number, from 1, went out to this range.
    Send {
        number: u64,
        range: u32,
        request: Request,
    },
    /// The range evaluated this actor's send of this number.
    Eval {
        actor: ActorId,
        number: u64,
        reply: Reply,
    },
    /// The actor heard the reply to its send of this number, evaluated at this step.
    Hear {
        number: u64,
        step: u64,
    },
    /// The open call was told this.
    Tell(Answer),
    /// The session learnt of the commit that was told at this step.
    Meet {
        id: TxnId,
        step: u64,
    },
}

impl TryCopy for Event {
    fn copy(&self) -> Result<Event, NoMemory> {
        match self {
            Event::Ask { call, reading } => Ok(Event::Ask {
                call: call.copy()?,
                reading: *reading,
            }),
            Event::Send {
                number,
                range,
                request,
            } => Ok(Event::Send {
                number: *number,
                range: *range,
                request: request.copy()?,
            }),
            Event::Eval {
                actor,
                number,
                reply,
            } => Ok(Event::Eval {
                actor: *actor,
                number: *number,
                reply: reply.copy()?,
            }),
            Event::Hear { number, step } => Ok(Event::Hear {
                number: *number,
                step: *step,
            }),
            Event::Tell(answer) => Ok(Event::Tell(answer.copy()?)),
            Event::Meet { id, step } => Ok(Event::Meet {
                id: *id,
                step: *step,
            }),
        }
    }
}
