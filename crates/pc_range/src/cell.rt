ghost use Rattle.std.specs.Prelude.{◌≡◌, ◌<◌, ◌≤◌, ◌^◌, ◌⊎◌, length, slice_get, All, Contains, IfOk, IfErr, IfSome, IsSome, OnOk, OnErr, Some};
ghost use Rattle.pc_base.specs.declared.actor.ActorId.TheVariants.{Range};
ghost use Rattle.pc_history.specs.Own.{entries_of};
ghost use Rattle.pc_history.specs.Parts.{newcomer, noted, uses_left};
ghost use Rattle.pc_proto.specs.Stamps.{request_stamps};
ghost use Rattle.pc_range.specs.Cell.{StoresEvaluation, HasServed, IsEntered, IsFullFault, IsRefusal};
ghost use Rattle.pc_range.specs.Message.{ComesAfter, IsToldBefore, IsEvalNote};
ghost use Rattle.pc_world.specs.Evaluation.{reply as reply_to};
ghost use Rattle.pc_world.specs.Known.Traffic.{reply_named};
ghost use Rattle.pc_world.specs.Stamps.{AllBelowGreatest};
ghost use Rattle.pc_world.specs.StateOf.{state_of};

use crate::commit_world::CommitWorld;
use crate::message::{Message, ReplyMsg, ServeFault};
use pc_base::{ActorId, Entry, NoMemory, TryCopy};
use pc_eval::RangeState;
use pc_history::{Actor, Named, Note};
use pc_proto::{Event, Reply};
use std::alloc::Global;
use std::marker::Model;

/// One range: its actor, which stores its evaluations, and the state that they make.
///
/// What lies behind a lock is known by its type alone, so the range's number stands in the type.
#[derive(Drop)]
pub struct RangeCell<N: Named<CommitWorld>, const I: u32> {
    actor: Actor<CommitWorld, N>,
    state: RangeState,
}

impl<N: Named<CommitWorld>, const I: u32> Model for RangeCell<N, I> {
    ghost use Rattle.pc_range.specs.Cell.{CellMeaning, IsCell};

    ghost Value = { CellMeaning };

    ghost view = { λ c. record { world = c.actor.world; part = c.actor.part } };

    ghost invariant = { λ c. IsCell I c.actor.world c.actor.part c.state };
}

impl<N: Named<CommitWorld>, const I: u32> RangeCell<N, I> {
    /// A range on which nothing has happened yet.
    pub(crate) fn new(alloc: Global, actor: Actor<CommitWorld, N>) -> RangeCell<N, I>
        requires new { actor.part ≡ newcomer (Range I) }
        requires there { I ≤ length actor.world.splits }
        ensures { result ≡ record { world = actor.world; part = actor.part } }
    {
        RangeCell {
            actor,
            state: RangeState::new(alloc),
        }
    }

    /// Its actor, to be handed in.
    pub(crate) fn into_actor(self) -> Actor<CommitWorld, N>
        ensures same { (result.world ≡ self.world) × (result.part ≡ self.part) }
        ensures whose { result.part.id ≡ Range I }
    {
        self.actor
    }

    /// Evaluates a message, and stores the evaluation.
    ///
    /// A range that stores as many entries as it may have serves nothing more, and gives the message back. Want of memory is met before the evaluation, and then
    /// the range is as it was, or after it was stored. Where a note is given, the evaluation comes after what it tells of.
    pub fn serve(
        &mut self,
        limit: u64,
        msg: Message<N>,
        after: Option<Note<CommitWorld, N>>,
    ) -> Result<ReplyMsg<N>, ServeFault<N>>
        requires here { msg.range ≡ I }
        requires limit { (1 ≤ limit) × (limit < 2 ^ 32) }
        requires use_left { 1 ≤ uses_left msg.note.known }
        requires below { AllBelowGreatest (request_stamps msg.request) }
        ensures evaluated { IfOk result (λ r. StoresEvaluation I self.old self.new msg.sender msg.number msg.request r.step r.reply) }
        ensures told { IfOk result (λ r. (r.number ≡ msg.number) × IsEvalNote msg.sender msg.number I r.step r.reply r.note.known) }
        ensures later { IfOk result (λ r. IsToldBefore r.step msg.note.known) }
        ensures behind { IfOk result (λ r. IfSome after (λ n. ComesAfter r.step n.known)) }
        ensures room { OnOk result (length self.old.part.own < limit) }
        ensures refused { IfErr result (λ fault. IsRefusal I limit self.old self.new msg fault) }
    {
        if self.actor.entries().len() as u64 >= limit {
            return Err(self.full(msg));
        }
        match self.evaluate(msg, after) {
            Ok(reply) => Ok(reply),
            Err(NoMemory) => Err(ServeFault::NoMemory),
        }
    }

    /// Why a range that stores an entry does not serve the message, which it gives back.
    fn full(&mut self, message: Message<N>) -> ServeFault<N>
        requires { 1 ≤ length self.old.part.own }
        ensures same { self.new ≡ self.old }
        ensures fault { IsFullFault I self.old.part message result }
    {
        let last = self.actor.entries().len() - 1;
        match self.actor.note(last, 0) {
            Ok(last) => ServeFault::Full {
                range: I,
                last,
                message,
            },
            Err(NoMemory) => ServeFault::NoMemory,
        }
    }

    /// Evaluates a message that it has room for.
    fn evaluate(
        &mut self,
        msg: Message<N>,
        after: Option<Note<CommitWorld, N>>,
    ) -> Result<ReplyMsg<N>, NoMemory>
        requires here { msg.range ≡ I }
        requires short { length self.old.part.own < 2 ^ 32 }
        requires use_left { 1 ≤ uses_left msg.note.known }
        requires below { AllBelowGreatest (request_stamps msg.request) }
        ensures evaluated { IfOk result (λ r. StoresEvaluation I self.old self.new msg.sender msg.number msg.request r.step r.reply) }
        ensures told { IfOk result (λ r. (r.number ≡ msg.number) × IsEvalNote msg.sender msg.number I r.step r.reply r.note.known) }
        ensures later { IfOk result (λ r. IsToldBefore r.step msg.note.known) }
        ensures behind { IfOk result (λ r. IfSome after (λ n. ComesAfter r.step n.known)) }
        ensures refused { OnErr result ((self.new ≡ self.old) ⊎ HasServed I self.old self.new msg.sender msg.number msg.request) }
    {
        self.actor.room()?;
        let reply = self.state.eval(&msg.request)?;
        let place = self.actor.entries().len();
        let number = msg.number;
        let step = enter_after(&mut self.actor, msg, after, reply);
        answer(&mut self.actor, place, number, step)
    }
}

/// Stores the evaluation of a message after what a note tells of, if one is given.
fn enter_after<N: Named<CommitWorld>>(
    actor: &mut Actor<CommitWorld, N>,
    msg: Message<N>,
    after: Option<Note<CommitWorld, N>>,
    reply: Reply,
) -> u64
    requires room { (1 ≤ actor.old.spare) × (length actor.old.part.own < 2 ^ 32) }
    requires whose { (actor.old.part.id ≡ Range msg.range) × (msg.range ≤ length actor.old.world.splits) }
    requires use_left { 1 ≤ uses_left msg.note.known }
    requires answers { reply ≡ reply_to msg.request (state_of actor.old.part.own) }
    ensures stored { IsEntered actor.old actor.new msg.sender msg.number msg.range msg.request result reply }
    ensures later { IsToldBefore result msg.note.known }
    ensures behind { IfSome after (λ n. ComesAfter result n.known) }
{
    know(actor, after);
    enter(actor, msg, reply)
}

/// Knows from now on what a note tells of, if one is given.
fn know<N: Named<CommitWorld>>(
    actor: &mut Actor<CommitWorld, N>,
    note: Option<Note<CommitWorld, N>>,
)
    ensures same { actor.new ≡ record actor.old { part = record actor.old.part { known = actor.new.part.known } } }
    ensures knows { IfSome note (λ n. All (λ k. Contains actor.new.part.known k) n.known) }
{
    if let Some(note) = note {
        actor.take(note);
    }
}

/// Takes a message's note, and stores the evaluation.
fn enter<N: Named<CommitWorld>>(
    actor: &mut Actor<CommitWorld, N>,
    msg: Message<N>,
    reply: Reply,
) -> u64
    requires room { (1 ≤ actor.old.spare) × (length actor.old.part.own < 2 ^ 32) }
    requires whose { (actor.old.part.id ≡ Range msg.range) × (msg.range ≤ length actor.old.world.splits) }
    requires use_left { 1 ≤ uses_left msg.note.known }
    requires answers { reply ≡ reply_to msg.request (state_of actor.old.part.own) }
    ensures stored { IsEntered actor.old actor.new msg.sender msg.number msg.range msg.request result reply }
    ensures later { IsToldBefore result msg.note.known }
    ensures above { ComesAfter result actor.old.part.known }
{
    let Message {
        sender,
        number,
        range: _,
        request: _,
        note,
    } = msg;
    actor.take(note);
    actor.act(Event::Eval {
        actor: sender,
        number,
        reply,
    })
}

/// What is told of the evaluation at a place.
fn answer<N: Named<CommitWorld>>(
    actor: &mut Actor<CommitWorld, N>,
    place: usize,
    number: u64,
    step: u64,
) -> Result<ReplyMsg<N>, NoMemory>
    requires { IsSome (reply_named (slice_get (entries_of actor.old.part.own) place)) }
    ensures same { (actor.new.world ≡ actor.old.world) × (actor.new.part.id ≡ actor.old.part.id) × (actor.new.part.own ≡ actor.old.part.own) }
    ensures fields { IfOk result (λ r. (r.number ≡ number) × (r.step ≡ step)) }
    ensures reply { IfOk result (λ r. reply_named (slice_get (entries_of actor.old.part.own) place) ≡ Some r.reply) }
    ensures note { IfOk result (λ r. r.note.known ≡ noted place 0 actor.old.part) }
{
    let note = actor.note(place, 0)?;
    let reply = stored_reply(actor.entries(), place)?;
    Ok(ReplyMsg {
        number,
        step,
        reply,
        note,
    })
}

/// A copy of the reply of the evaluation at a place.
fn stored_reply(entries: &[Entry<Event>], place: usize) -> Result<Reply, NoMemory>
    requires { IsSome (reply_named (slice_get entries.now place)) }
    ensures { IfOk result (λ r. reply_named (slice_get entries.now place) ≡ Some r) }
{
    match entries.get(place).map(|entry| &entry.event) {
        Some(Event::Eval { reply, .. }) => reply.copy(),
        _ => unreachable!(),
    }
}
