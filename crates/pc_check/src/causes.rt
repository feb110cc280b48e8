ghost use Rattle.std.specs.Prelude.{◌≡◌, ◌↔◌, ℕ, IsTrue, slice_get};
ghost use Rattle.std.specs.Option.{option_copied};
ghost use Rattle.pc_history.specs.Own.{named_in};
ghost use Rattle.pc_sent.specs.Sending.{AreSendsOf};
ghost use Rattle.pc_world.specs.Caused.{Evaluates, IsCaused, SendsTo, TellsCommitted};
ghost use Rattle.pc_world.specs.Local.{Head};
ghost use Rattle.pc_world.specs.Named.{is_eval, is_tell};
ghost use Rattle.pc_world.specs.Run.{IsRun, protocol};

use pc_base::{ActorId, Entry, TxnId};
use pc_proto::{Answer, Event};
use pc_sent::Sent;

/// The entry that the event names among those of a run.
pub(crate) fn named<'a>(
    before: &'a [Entry<Event>],
    sends: &Sent,
    event: &Event,
) -> Option<&'a Entry<Event>>
    ensures { (head : Head) → IsRun head before.now → AreSendsOf before.now sends.now → option_copied result ≡ named_in (protocol head) before.now event.now }
{
    match event {
        Event::Eval { actor, number, .. } => sends.entry(before, *actor, *number),
        Event::Hear { step, .. } => evaluated(before, *step),
        Event::Meet { step, .. } => told(before, *step),
        Event::Ask { .. } | Event::Send { .. } | Event::Tell(_) => None,
    }
}

/// Whether the entries of a run let the actor make the event.
pub(crate) fn is_caused(
    before: &[Entry<Event>],
    sends: &Sent,
    event: &Event,
    actor: ActorId,
) -> bool
    ensures { (head : Head) → IsRun head before.now → AreSendsOf before.now sends.now → IsTrue result ↔ IsCaused before.now event.now actor }
{
    match event {
        Event::Eval {
            actor: sender,
            number,
            ..
        } => match sends.entry(before, *sender, *number) {
            Some(entry) => sends_to(&entry.event, actor, *number),
            None => false,
        },
        Event::Hear { number, step } => match at(before, *step) {
            Some(entry) => evaluates(&entry.event, actor, *number),
            None => false,
        },
        Event::Meet { id, step } => match at(before, *step) {
            Some(entry) => tells_committed(&entry.event, *id),
            None => false,
        },
        Event::Ask { .. } | Event::Send { .. } | Event::Tell(_) => true,
    }
}

/// The evaluation at this step.
fn evaluated(before: &[Entry<Event>], step: u64) -> Option<&Entry<Event>>
    ensures { (head : Head) (number : ℕ) → IsRun head before.now → option_copied result ≡ named_in (protocol head) before.now (Event.Hear number step) }
{
    match at(before, step) {
        Some(entry) if is_eval(&entry.event) => Some(entry),
        _ => None,
    }
}

/// The answer that was told at this step.
fn told(before: &[Entry<Event>], step: u64) -> Option<&Entry<Event>>
    ensures { (head : Head) (id : TxnId) → IsRun head before.now → option_copied result ≡ named_in (protocol head) before.now (Event.Meet id step) }
{
    match at(before, step) {
        Some(entry) if is_tell(&entry.event) => Some(entry),
        _ => None,
    }
}

/// The entry at this place.
fn at(before: &[Entry<Event>], step: u64) -> Option<&Entry<Event>>
    ensures { option_copied result ≡ slice_get before.now step }
{
    before.get(step as usize)
}

fn is_eval(event: &Event) -> bool
    ensures { result ≡ is_eval event.now }
{
    matches!(event, Event::Eval { .. })
}

fn is_tell(event: &Event) -> bool
    ensures { result ≡ is_tell event.now }
{
    matches!(event, Event::Tell(_))
}

/// Whether the event sends the message of this number to this range.
fn sends_to(event: &Event, range: ActorId, number: u64) -> bool
    ensures { IsTrue result ↔ SendsTo range number event.now }
{
    match (range, event) {
        (
            ActorId::Range(range),
            Event::Send {
                number: own,
                range: to,
                ..
            },
        ) => *own == number && *to == range,
        _ => false,
    }
}

/// Whether the event evaluates the actor's message of this number.
fn evaluates(event: &Event, actor: ActorId, number: u64) -> bool
    ensures { IsTrue result ↔ Evaluates actor number event.now }
{
    match event {
        Event::Eval {
            actor: sender,
            number: own,
            ..
        } => *sender == actor && *own == number,
        _ => false,
    }
}

/// Whether the event tells that the transaction committed.
fn tells_committed(event: &Event, id: TxnId) -> bool
    ensures { IsTrue result ↔ TellsCommitted id event.now }
{
    match event {
        Event::Tell(Answer::Committed { id: other, .. }) => *other == id,
        _ => false,
    }
}
