ghost use Rattle.std.specs.Prelude.{◌≡◌, ℕ, ◌∷◌, [], ◌++◌, map, All, IfErr, IfNone, IfSome, OnOk};
ghost use Rattle.std.specs.List.Sorted.{IsStrictlySortedBy};
ghost use Rattle.std.specs.Map.{keys_of};
ghost use Rattle.std.specs.Ordering.{nat_cmp};
ghost use Rattle.pc_desk.specs.Desk.{IsReadyToGo, posting, waiting_as};
ghost use Rattle.pc_desk.specs.Rest.{HasOnlyLearnt, IsEvaluatedIn, IsFirstOf, StopsAt, comes_first};
ghost use Rattle.pc_wire.specs.Outbox.{first_from};
ghost use Rattle.pc_history.specs.Parts.{told, uses_left};

use pc_history::{Actor, Named};
use pc_range::{CommitWorld, Gate, Message, Ranges, ReplyMsg, ServeFault};
use pc_wire::Outbox;
use std::marker::Model;
use std::sync::Wait;

/// What an actor that makes no more entries leaves in its outbox.
#[derive(Drop)]
pub struct Rest<N: Named<CommitWorld>> {
    outbox: Outbox<Message<N>>,
    /// What was set aside.
    later: Outbox<Message<N>>,
}

impl<N: Named<CommitWorld>> Model for Rest<N> {
    ghost use Rattle.std.specs.Prelude.{◌++◌, List, map};
    ghost use Rattle.pc_desk.specs.Desk.{WaitingMessage, posting, waiting_as};
    ghost use Rattle.pc_history.specs.Parts.{uses_left};

    ghost Value = { List WaitingMessage };

    ghost view = { λ r. map (λ e. waiting_as e.0 e.1.message.sender e.1.verdict (posting e.1.message.number e.1.message.range e.1.message.request (uses_left e.1.message.note.known))) (r.outbox.waiting ++ r.later.waiting) };
}

impl<N: Named<CommitWorld>> Rest<N> {
    pub(crate) fn of(outbox: Outbox<Message<N>>, later: Outbox<Message<N>>) -> Rest<N>
        ensures { result ≡ map (λ e. waiting_as e.0 e.1.message.sender e.1.verdict (posting e.1.message.number e.1.message.range e.1.message.request (uses_left e.1.message.note.known))) (outbox.waiting ++ later.waiting) }
    {
        Rest { outbox, later }
    }

    /// Takes the message of the least number.
    fn take_first(&mut self) -> Option<Message<N>>
        ensures first { IfSome result (λ m. IsFirstOf self.old self.new m.sender (posting m.number m.range m.request (uses_left m.note.known))) }
        ensures none { IfNone result (self.old ≡ []) }
    {
        if comes_first(&self.later, &self.outbox) {
            let (_, message) = self.later.take_first()?;
            return Some(message);
        }
        let (_, message) = self.outbox.take_first()?;
        Some(message)
    }
}

/// Whether the message of the least number was set aside.
fn comes_first<M: Drop>(aside: &Outbox<M>, other: &Outbox<M>) -> bool
    ensures first { result ≡ comes_first (first_from 0 (map (λ e. e.0) aside.now.waiting)) (first_from 0 (map (λ e. e.0) other.now.waiting)) }
    ensures in_order { IsStrictlySortedBy nat_cmp (keys_of aside.now.waiting) × IsStrictlySortedBy nat_cmp (keys_of other.now.waiting) }
{
    let first = aside.first_from(0);
    let least = other.first_from(0);
    match first {
        Some(first) => match least {
            Some(least) => first < least,
            None => true,
        },
        None => false,
    }
}

/// Evaluates what is left of an actor's messages, in the order of their numbers, and stops at the first refusal. The actor takes the note of
/// each evaluation.
pub fn deliver_rest<N: Named<CommitWorld>, G: Gate, R: Wait>(
    rt: &R,
    rest: Rest<N>,
    actor: &mut Actor<CommitWorld, N>,
    ranges: &Ranges<'_, N, G>,
) -> Result<(), ServeFault<N>>
    requires { All (IsReadyToGo actor.old.part.id ranges.now.splits) rest }
    ensures same { HasOnlyLearnt actor.old actor.new }
    ensures all { OnOk result (All (IsEvaluatedIn actor.new.part) rest) }
    ensures stopped { IfErr result (StopsAt ranges.now.limit rest actor.new.part) }
{
    let mut rest = rest;
    while let Some(message) = rest.take_first() {
        let reply = ranges.serve(rt, message, None)?;
        learn(actor, reply);
    }
    Ok(())
}

/// Takes the note of an evaluation.
fn learn<N: Named<CommitWorld>>(actor: &mut Actor<CommitWorld, N>, msg: ReplyMsg<N>)
    ensures { actor.new ≡ record actor.old { part = told msg.note.known actor.old.part } }
{
    actor.take(msg.note);
}
