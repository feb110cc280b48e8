ghost use Rattle.std.specs.Prelude.{◌≡◌, IfOk, IfSome, IsSome, Some};
ghost use Rattle.pc_read.specs.Given.{StandsFor};
ghost use Rattle.pc_read.specs.Lines.{own_entry, own_event};
ghost use Rattle.pc_proto.specs.declared.event.Event.TheVariants as events;
ghost use Rattle.pc_spelling.specs.Cutting.{◌&◌, made};
ghost use Rattle.pc_spelling.specs.Reading.{actor_at, id_at, number64_at, range_at};
ghost use Rattle.pc_spelling.specs.ReadingLines.{answer_at, asked_at, entry_at, event_at, reading_at, reply_at, request_at};

use crate::answer::AnswerRef;
use crate::call::CallRef;
use crate::cut::{cut, cut_last, is, word_of};
use crate::reply::ReplyRef;
use crate::request::RequestRef;
use crate::{answer, call, name, number, reply, request};
use pc_base::{ActorId, Entry, NoMemory, TxnId};
use pc_proto::Event;
use std::alloc::Global;

/// An event, its keys, values and lists as they stand in the input.
#[derive(Clone, Copy, Debug)]
pub enum EventRef<'a> {
    Ask {
        call: CallRef<'a>,
        reading: u64,
    },
    Send {
        number: u64,
        range: u32,
        request: RequestRef<'a>,
    },
    Eval {
        actor: ActorId,
        number: u64,
        reply: ReplyRef<'a>,
    },
    Hear {
        number: u64,
        step: u64,
    },
    Tell(AnswerRef<'a>),
    Meet {
        id: TxnId,
        step: u64,
    },
}

/// An entry at its line, over the bytes that spell it.
#[derive(Clone, Copy, Debug)]
pub struct EntryRef<'a> {
    pub line: u64,
    pub step: u64,
    pub actor: ActorId,
    pub event: EventRef<'a>,
}

#[tactic(auto, unfolding(pc_spelling::specs::ReadingLines::event_at))]
pub fn event(bytes: &[u8]) -> Option<EventRef<'_>>
    ensures { StandsFor own_event result (event_at bytes.now) }
{
    let (word, rest) = word_of(b' ', bytes);
    match rest {
        None => None,
        Some(rest) if is(word, b"ask") => ask(rest),
        Some(rest) if is(word, b"send") => send(rest),
        Some(rest) if is(word, b"eval") => eval(rest),
        Some(rest) if is(word, b"hear") => hear(rest),
        Some(rest) if is(word, b"tell") => tell(rest),
        Some(rest) if is(word, b"meet") => meet(rest),
        Some(_) => None,
    }
}

/// A message of an actor.
fn send(bytes: &[u8]) -> Option<EventRef<'_>>
    ensures { StandsFor own_event result (made (λ p. events.Send p.0 p.1.0 p.1.1) (number64_at & range_at & request_at) bytes.now) }
{
    let (number, rest) = cut(b' ', bytes)?;
    let number = number::number64(number)?;
    let (range, rest) = cut(b' ', rest)?;
    let range = name::range(range)?;
    let Some(request) = request::request(rest) else {
        return None;
    };
    Some(EventRef::Send {
        number,
        range,
        request,
    })
}

/// A reply of a range.
fn eval(bytes: &[u8]) -> Option<EventRef<'_>>
    ensures { StandsFor own_event result (made (λ p. events.Eval p.0 p.1.0 p.1.1) (actor_at & number64_at & reply_at) bytes.now) }
{
    let (actor, rest) = cut(b' ', bytes)?;
    let actor = name::actor(actor)?;
    let (number, rest) = cut(b' ', rest)?;
    let number = number::number64(number)?;
    let Some(reply) = reply::reply(rest) else {
        return None;
    };
    Some(EventRef::Eval {
        actor,
        number,
        reply,
    })
}

/// That a reply was heard.
fn hear(bytes: &[u8]) -> Option<EventRef<'_>>
    ensures { StandsFor own_event result (made (λ p. events.Hear p.0 p.1) (number64_at & number64_at) bytes.now) }
{
    let (number, rest) = cut(b' ', bytes)?;
    let number = number::number64(number)?;
    let step = number::number64(rest)?;
    Some(EventRef::Hear { number, step })
}

/// What a client is told.
fn tell(bytes: &[u8]) -> Option<EventRef<'_>>
    ensures { StandsFor own_event result (made (λ p. events.Tell p) (answer_at) bytes.now) }
{
    let Some(answer) = answer::answer(bytes) else {
        return None;
    };
    Some(EventRef::Tell(answer))
}

/// That a commit was learnt of.
fn meet(bytes: &[u8]) -> Option<EventRef<'_>>
    ensures { StandsFor own_event result (made (λ p. events.Meet p.0 p.1) (id_at & number64_at) bytes.now) }
{
    let (id, rest) = cut(b' ', bytes)?;
    let id = name::id(id)?;
    let step = number::number64(rest)?;
    Some(EventRef::Meet { id, step })
}

/// A clock's reading behind its at sign.
#[tactic(auto, unfolding(pc_spelling::specs::ReadingLines::reading_at))]
fn reading(bytes: &[u8]) -> Option<u64>
    ensures { result ≡ reading_at bytes.now }
{
    match bytes {
        [b'@', digits @ ..] => number::number64(digits),
        _ => None,
    }
}

/// A call and the reading at which it is asked, which stands behind the last space.
#[tactic(auto, unfolding(pc_spelling::specs::ReadingLines::asked_at))]
fn ask(bytes: &[u8]) -> Option<EventRef<'_>>
    ensures { StandsFor own_event result (made (λ p. events.Ask p.0 p.1) asked_at bytes.now) }
{
    let (call, reading_text) = cut_last(b' ', bytes)?;
    let call = call::call(call)?;
    let reading = reading(reading_text)?;
    Some(EventRef::Ask { call, reading })
}

/// An entry at this line: its step, its actor and its event.
#[tactic(auto, unfolding(pc_spelling::specs::ReadingLines::entry_at))]
pub fn entry(line: u64, bytes: &[u8]) -> Option<EntryRef<'_>>
    ensures value { StandsFor own_entry result (entry_at bytes.now) }
    ensures line { IfSome result (λ entry. entry.line ≡ line) }
{
    let (step, rest) = cut(b' ', bytes)?;
    let step = number::number64(step)?;
    let (actor, rest) = cut(b' ', rest)?;
    let actor = name::actor(actor)?;
    let Some(event) = event(rest) else {
        return None;
    };
    Some(EntryRef {
        line,
        step,
        actor,
        event,
    })
}

impl<'a> EventRef<'a> {
    /// The event in memory of its own.
    pub fn event(&self, alloc: Global) -> Result<Event, NoMemory>
        requires { IsSome (own_event self.now) }
        ensures { IfOk result (λ made. own_event self.now ≡ Some made) }
    {
        match self {
            EventRef::Ask { call, reading } => Ok(Event::Ask {
                call: call.call(alloc)?,
                reading: *reading,
            }),
            EventRef::Send {
                number,
                range,
                request,
            } => Ok(Event::Send {
                number: *number,
                range: *range,
                request: request.request(alloc)?,
            }),
            EventRef::Eval {
                actor,
                number,
                reply,
            } => Ok(Event::Eval {
                actor: *actor,
                number: *number,
                reply: reply.reply(alloc)?,
            }),
            EventRef::Hear { number, step } => Ok(Event::Hear {
                number: *number,
                step: *step,
            }),
            EventRef::Tell(answer) => Ok(Event::Tell(answer.answer(alloc)?)),
            EventRef::Meet { id, step } => Ok(Event::Meet {
                id: *id,
                step: *step,
            }),
        }
    }
}

impl<'a> EntryRef<'a> {
    /// The entry that the line spells, in memory of its own.
    pub fn entry(&self, alloc: Global) -> Result<Entry<Event>, NoMemory>
        requires { IsSome (own_entry self.now) }
        ensures { IfOk result (λ made. own_entry self.now ≡ Some made) }
    {
        Ok(Entry {
            step: self.step,
            actor: self.actor,
            event: self.event.event(alloc)?,
        })
    }
}
