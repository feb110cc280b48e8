ghost use Rattle.std.specs.Prelude.{◌≡◌, ℕ, ◌+◌, ◌-◌, ◌<◌, ◌≤◌, ◌^◌, [], ◌∷◌, ◌++◌, true, Err, is_some, length, map, None, All, IfErr, IfOk, IfNone, IfSome, OnErr, OnOk};
ghost use Rattle.std.specs.BTreeMap.{is_at};
ghost use Rattle.std.specs.Map.{lookup, remove_entry};
ghost use Rattle.std.specs.List.Sorted.{IsStrictlySortedBy};
ghost use Rattle.std.specs.Ordering.{nat_cmp};
ghost use Rattle.pc_base.specs.Rising.{AreRising};
ghost use Rattle.pc_desk.specs.declared.halt.Halt.TheVariants as halts;
ghost use Rattle.pc_desk.specs.Commits.{IsCommitPlace};
ghost use Rattle.pc_desk.specs.Desk.{DeskMeaning, EndsWithSend, HasDelivered, HasDone, HasHalted, HasHeardFirst, HasKept, HasPosted, HasSentNext, HasSentTo, HasTaken, HasTakenFirst, IsReadyToGo, KeepsTrack, MayHearNow, MaySendNow, MaySendTo, Posted, new_desk, posted_as, uses_by};
ghost use Rattle.pc_desk.specs.Ending.{EndsOnly, PostsInCall, PutsInCall};
ghost use Rattle.pc_desk.specs.Aside.{HasDropped, HasDroppedFirst, HasJoinedWave, HasSetAside, with_one};
ghost use Rattle.pc_desk.specs.Keeping.{ReadsEach};
ghost use Rattle.pc_wire.specs.Outbox.{first_from};
ghost use Rattle.pc_desk.specs.OwnLog.{HasMadeEntry, IsNoRange, IsOwnLog, MayEnter};
ghost use Rattle.pc_desk.specs.Refused.{GivesBack};
ghost use Rattle.pc_desk.specs.Waiting.{EndsUnheard, IsBehindAll, IsNewest};
ghost use Rattle.pc_desk.specs.Wave.{EndsFor, HasKeptAll, HasTakenIn, HasTakenWave, IsReply, MayGo, posted_of};
ghost use Rattle.pc_history.specs.Own.{entries_of};
ghost use Rattle.pc_history.specs.Parts.{newcomer, noted, told, with_uses, without_uses};
ghost use Rattle.pc_proto.specs.declared.event.Event.TheVariants as events;
ghost use Rattle.pc_proto.specs.Requests.{is_put};
ghost use Rattle.pc_proto.specs.Stamps.{request_stamps};
ghost use Rattle.pc_world.specs.Known.{known_of};
ghost use Rattle.pc_wire.specs.declared.verdict.Verdict.TheVariants as verdicts;
ghost use Rattle.pc_world.specs.Local.{IsActorOf, MayAsk};
ghost use Rattle.pc_world.specs.RangeOf.{GoesTo};
ghost use Rattle.pc_world.specs.Stamps.{AllBelowGreatest};

use crate::answered::Answered;
use crate::halt::Halt;
use crate::own_log::OwnLog;
use crate::rest::Rest;
use crate::wave::{first_refusal, join_wave, note_of, use_of};
use pc_base::{ActorId, Entry, NoMemory, TryCopy, TxnId};
use pc_clock::Clock;
use pc_history::{Actor, Named, Note};
use pc_proto::{Answer, Call, Event, Request};
use pc_range::{CommitWorld, Gate, Message, Ranges, ReplyMsg, ServeFault};
use pc_serving::{Delivery, Outcome, serve_beside};
use pc_wire::{Outbox, Verdict, Wire};
use pc_world::range_for;
use std::alloc::Global;
use std::collections::VecDeque;
use std::marker::Model;
use std::sync::Wait;
use std::thread::Threads;

/// The own list of a session or recoverer, and its messages on their way to the ranges and back. So far over a quiet wire alone.
///
/// After a refusal it makes no more entries.
#[derive(Drop)]
pub struct Desk<'a, N: Named<CommitWorld>, C: Clock, V: Wire, G> {
    log: OwnLog<N, C>,
    ranges: &'a Ranges<'a, N, G>,
    wire: V,
    /// How many messages were sent.
    sends: u64,
    outbox: Outbox<Message<N>>,
    /// Messages that were set aside until a wave waits for them.
    later: Outbox<Message<N>>,
    replies: VecDeque<Answered>,
}

impl<'a, N: Named<CommitWorld>, C: Clock, V: Wire, G> Model for Desk<'a, N, C, V, G> {
    ghost use Rattle.std.specs.Prelude.{◌≡◌, ℕ, map};
    ghost use Rattle.pc_desk.specs.Desk.{DeskMeaning, IsDesk, posting, waiting_as};
    ghost use Rattle.pc_history.specs.Parts.{uses_left};
    ghost use Rattle.pc_wire.specs.declared.verdict.Verdict.TheVariants.{Deliver};

    ghost Value = { DeskMeaning C };

    ghost view = { λ d. record {
      log = d.log;
      sends = d.sends;
      posted = map (λ e. posting e.1.message.number e.1.message.range e.1.message.request (uses_left e.1.message.note.known)) d.outbox.waiting;
      later = map (λ e. posting e.1.message.number e.1.message.range e.1.message.request (uses_left e.1.message.note.known)) d.later.waiting;
      replies = d.replies.items;
      range_limit = d.ranges.now.limit;
    } };

    ghost invariant = { λ d.
        IsDesk d.ranges.now.splits d.log (map (λ e. waiting_as e.0 e.1.message.sender e.1.verdict (posting e.1.message.number e.1.message.range e.1.message.request (uses_left e.1.message.note.known))) d.outbox.waiting)
        × IsDesk d.ranges.now.splits d.log (map (λ e. waiting_as e.0 e.1.message.sender e.1.verdict (posting e.1.message.number e.1.message.range e.1.message.request (uses_left e.1.message.note.known))) d.later.waiting)
        × ((number : ℕ) → V.rule d.wire number ≡ Deliver) };
}

impl<'a, N: Named<CommitWorld>, C: Clock, V: Wire, G: Gate> Desk<'a, N, C, V, G> {
    /// The desk of an actor that has no entry yet. The evaluations of a wave may go `beside` each other, or one after another. Its list may
    /// have at most `limit` entries, and stops at entry number `stop`, if one is stated.
    pub fn new(
        alloc: Global,
        actor: Actor<CommitWorld, N>,
        ranges: &'a Ranges<'a, N, G>,
        clock: C,
        wire: V,
        pipelining: bool,
        beside: bool,
        limit: u64,
        stop: Option<u64>,
    ) -> Desk<'a, N, C, V, G>
        requires there { IsActorOf actor.world actor.part.id }
        requires client { IsNoRange actor.part.id }
        requires fresh { actor.part ≡ newcomer actor.part.id }
        requires unread { C.reads clock ≡ 0 }
        requires limit { limit < 2 ^ 32 }
        requires stop { IfSome stop (λ n. 1 ≤ n) }
        requires splits { ranges.now.splits ≡ actor.world.splits }
        requires rising { AreRising actor.world.splits }
        requires few { length actor.world.splits ≤ 31 }
        requires quiet { (number : ℕ) → V.rule wire number ≡ verdicts.Deliver }
        ensures track { KeepsTrack result }
        ensures made { result ≡ new_desk actor.world actor.part actor.spare clock pipelining beside limit stop ranges.now.limit }
    {
        Desk {
            log: OwnLog::new(alloc, actor, clock, pipelining, beside, limit, stop),
            ranges,
            wire,
            sends: 0,
            outbox: Outbox::new(alloc),
            later: Outbox::new(alloc),
            replies: VecDeque::new(alloc),
        }
    }

    /// The actor's entries so far.
    pub fn entries(&self) -> &[Entry<Event>]
        ensures { result.now ≡ entries_of self.now.log.part.own }
    {
        self.log.entries()
    }

    /// How many entries the actor's list has.
    pub fn len(&self) -> usize
        ensures { result ≡ length self.now.log.part.own }
    {
        self.log.len()
    }

    /// The place of an entry of the actor which tells that the transaction committed. None where no entry does.
    pub fn commit_place(&self, id: TxnId) -> Option<usize>
        ensures { IsCommitPlace id self.now.log.part.own result }
    {
        self.log.commit_place(id)
    }

    /// Whether it makes no more entries.
    pub fn has_stopped(&self) -> bool
        ensures { result ≡ self.now.log.stopped }
    {
        self.log.has_stopped()
    }

    /// A note of the actor's last entry, without uses. None where it has no entry.
    pub fn mark(&mut self) -> Result<Option<Note<CommitWorld, N>>, NoMemory>
        ensures note { IfOk result (λ mark. IfSome mark (λ n. n.known ≡ noted (length self.old.log.part.own - 1) 0 self.old.log.part)) }
        ensures none { IfOk result (λ mark. IfNone mark (self.old.log.part.own ≡ [])) }
        ensures same { self.new ≡ self.old }
    {
        if self.log.len() == 0 {
            return Ok(None);
        }
        Ok(Some(self.log.note(0)?))
    }

    /// A note of the actor's entry at this place, without uses.
    pub fn note(&mut self, place: usize) -> Result<Note<CommitWorld, N>, NoMemory>
        requires { place < length self.old.log.part.own }
        ensures note { IfOk result (λ n. n.known ≡ noted place 0 self.old.log.part) }
        ensures same { self.new ≡ self.old }
    {
        self.log.note_at(place, 0)
    }

    /// Knows the entry of a mark from now on, so that its later entries stand after that one.
    pub fn follow(&mut self, mark: Note<CommitWorld, N>)
        ensures took { self.new ≡ record self.old { log = record self.old.log { part = told mark.known self.old.log.part } } }
        ensures track { KeepsTrack self.old → KeepsTrack self.new }
    {
        self.log.take(mark);
    }

    /// Asks a call, at the next reading of the clock, which it gives.
    pub fn ask(&mut self, call: Call) -> Result<u64, Halt>
        requires track { KeepsTrack self.old }
        requires may { MayAsk self.old.log.part.id (known_of self.old.log.part.own) call }
        ensures ok { IfOk result (λ reading. HasDone self.old self.new (events.Ask call reading)) }
        ensures rule { C.rule self.new.log.clock ≡ C.rule self.old.log.clock }
        ensures err { IfErr result (HasHalted self.old self.new) }
        ensures ended { IfErr result (EndsOnly (λ made. (reading : ℕ) × (made ≡ events.Ask call reading)) self.old self.new) }
    {
        self.log.ask(call)
    }

    /// Tells the open call its answer.
    pub fn tell(&mut self, answer: Answer) -> Result<(), Halt>
        requires track { KeepsTrack self.old }
        requires may { MayEnter self.old.log (events.Tell answer) }
        ensures ok { OnOk result (HasDone self.old self.new (events.Tell answer)) }
        ensures clock { self.new.log.clock ≡ self.old.log.clock }
        ensures err { IfErr result (HasHalted self.old self.new) }
        ensures ended { IfErr result (EndsOnly (λ made. made ≡ events.Tell answer) self.old self.new) }
    {
        self.log.enter(Event::Tell(answer))
    }

    /// Meets, in the open learn of a commit, the entry of this step that told of it.
    pub fn meet(&mut self, id: TxnId, step: u64) -> Result<(), Halt>
        requires track { KeepsTrack self.old }
        requires may { MayEnter self.old.log (events.Meet id step) }
        ensures ok { OnOk result (HasDone self.old self.new (events.Meet id step)) }
        ensures clock { self.new.log.clock ≡ self.old.log.clock }
        ensures err { IfErr result (HasHalted self.old self.new) }
        ensures ended { IfErr result (EndsOnly (λ made. made ≡ events.Meet id step) self.old self.new) }
    {
        self.log.enter(Event::Meet { id, step })
    }

    /// Sends a message under the next number, which it gives, to the range of its key, its span or its anchor. A listing of records goes to the
    /// first. No reply waits to be heard then.
    pub fn send(&mut self, request: Request) -> Result<u64, Halt>
        requires track { KeepsTrack self.old }
        requires may { MaySendNow self.old.log request }
        requires none_waits { self.old.replies ≡ [] }
        ensures ok { IfOk result (λ number. HasSentNext self.old self.new number request) }
        ensures clock { self.new.log.clock ≡ self.old.log.clock }
        ensures err { IfErr result (HasHalted self.old self.new) }
        ensures ended { IfErr result (EndsOnly (λ made. (number : ℕ) × (range : ℕ) × (made ≡ events.Send number range request)) self.old self.new) }
    {
        let range = range_for(self.ranges.splits(), &request);
        self.send_to(range, request)
    }

    /// Sends a message under the next number, which it gives, to this range, to which it may go. No reply waits to be heard then.
    pub fn send_to(&mut self, range: u32, request: Request) -> Result<u64, Halt>
        requires track { KeepsTrack self.old }
        requires may { MaySendTo self.old.log range request }
        requires none_waits { self.old.replies ≡ [] }
        ensures ok { IfOk result (λ number. HasSentTo self.old self.new number range request) }
        ensures clock { self.new.log.clock ≡ self.old.log.clock }
        ensures err { IfErr result (HasHalted self.old self.new) }
        ensures ended { IfErr result (EndsOnly (λ made. (number : ℕ) × (made ≡ events.Send number range request)) self.old self.new) }
    {
        let number = self.sends + 1;
        let copy = match request.copy() {
            Ok(copy) => copy,
            Err(NoMemory) => return Err(self.want_memory()),
        };
        let last = self.enter_send(number, range, copy)?;
        match self.post(number, range, request) {
            Ok(()) => {}
            Err(NoMemory) => return Err(self.want_memory()),
        }
        if last {
            return Err(Halt::Stopped);
        }
        Ok(number)
    }

    /// Makes the entry of a message that is sent. Gives whether it is the one at which the actor stops.
    fn enter_send(&mut self, number: u64, range: u32, request: Request) -> Result<bool, Halt>
        requires may { MayEnter self.old.log (events.Send number range request) }
        ensures ok { IfOk result (HasMadeEntry self.old.log self.new.log (events.Send number range request)) }
        ensures rest { OnOk result (self.new ≡ record self.old { log = self.new.log; sends = number }) }
        ensures clock { self.new.log.clock ≡ self.old.log.clock }
        ensures err { IfErr result (HasHalted self.old self.new) }
        ensures ended { IfErr result (λ halt. KeepsTrack self.old → EndsOnly (λ made. ⊥) self.old self.new halt) }
    {
        let last = self.log.add(Event::Send {
            number,
            range,
            request,
        })?;
        self.sends = number;
        Ok(last)
    }

    /// Puts the message that was sent last into the outbox.
    fn post(&mut self, number: u64, range: u32, request: Request) -> Result<(), NoMemory>
        requires last { EndsWithSend self.old.log number range request }
        requires fresh { posted_as number self.old.posted ≡ 0 }
        requires there { range ≤ length self.old.log.head.splits }
        requires below { AllBelowGreatest (request_stamps request) }
        ensures ok { OnOk result (HasPosted self.old self.new number range request) }
        ensures same { (self.new.log.head ≡ self.old.log.head) × (self.new.log.part.id ≡ self.old.log.part.id) }
        ensures clock { self.new.log.clock ≡ self.old.log.clock }
    {
        let verdict = self.wire.verdict(number);
        let note = self.log.note(uses_of(verdict))?;
        let message = Message {
            sender: self.log.id(),
            number,
            range,
            request,
            note,
        };
        self.outbox.add(number, verdict, message)
    }

    /// Sets the message of this number aside, which puts a write: it is delivered once a wave waits for it.
    pub fn set_aside(&mut self, number: u64) -> Result<(), Halt>
        requires track { KeepsTrack self.old }
        requires waits { 1 ≤ posted_as number self.old.posted }
        requires puts { All (λ m. m.number ≡ number → is_put m.request ≡ true) self.old.posted }
        ensures ok { OnOk result (HasSetAside self.old self.new number) }
        ensures clock { self.new.log.clock ≡ self.old.log.clock }
        ensures err { IfErr result (HasHalted self.old self.new) }
        ensures ended { IfErr result (EndsOnly (λ made. ⊥) self.old self.new) }
    {
        match move_message(&mut self.outbox, &mut self.later, number) {
            Ok(()) => Ok(()),
            Err(NoMemory) => Err(self.want_memory()),
        }
    }

    /// The least number, from this one on, of a message that was set aside.
    pub fn next_aside(&self, number: u64) -> Option<u64>
        ensures first { result ≡ first_from number (map (λ m. m.number) self.now.later) }
        ensures in_order { IsStrictlySortedBy nat_cmp (map (λ m. m.number) self.now.later) }
    {
        self.later.first_from(number)
    }

    /// The message of this number, which was set aside, goes with the next wave. No reply waits to be heard then, and none of a wave was heard last.
    pub fn join(&mut self, number: u64) -> Result<(), Halt>
        requires track { KeepsTrack self.old }
        requires none_waits { self.old.replies ≡ [] }
        requires unheard { EndsUnheard self.old.log.part.own }
        requires aside { 1 ≤ posted_as number self.old.later }
        ensures ok { OnOk result (HasJoinedWave self.old self.new number) }
        ensures clock { self.new.log.clock ≡ self.old.log.clock }
        ensures err { IfErr result (HasHalted self.old self.new) }
        ensures ended { IfErr result (EndsOnly (λ made. ⊥) self.old self.new) }
    {
        match move_message(&mut self.later, &mut self.outbox, number) {
            Ok(()) => Ok(()),
            Err(NoMemory) => Err(self.want_memory()),
        }
    }

    /// Stops for want of memory, of its user's too.
    pub fn want_memory(&mut self) -> Halt
        ensures memory { result ≡ halts.NoMemory }
        ensures clock { self.new.log.clock ≡ self.old.log.clock }
        ensures halted { HasHalted self.old self.new result }
    {
        self.log.halt();
        Halt::NoMemory
    }

    /// How many messages wait to be evaluated.
    fn waiting(&self) -> usize
        ensures { result ≡ length self.now.posted }
    {
        self.outbox.waiting()
    }

    /// Has each message's range evaluate it, in the order of their numbers. All are sent by then, and no reply waits to be heard.
    pub fn deliver<R: Wait>(&mut self, rt: &R) -> Result<(), Halt>
        requires track { KeepsTrack self.old }
        requires none_waits { self.old.replies ≡ [] }
        requires in_call { PostsInCall self.old }
        ensures ok { OnOk result (HasDelivered self.old self.new) }
        ensures all { OnOk result (self.new.posted ≡ []) }
        ensures clock { self.new.log.clock ≡ self.old.log.clock }
        ensures err { IfErr result (HasHalted self.old self.new) }
        ensures ended { IfErr result (EndsOnly (λ made. ⊥) self.old self.new) }
    {
        if self.waiting() == 0 {
            return Ok(());
        }
        let mut last = self.note_last()?;
        while self.waiting() > 0 {
            last = self.deliver_first(rt, last)?;
        }
        Ok(())
    }

    /// Takes all messages that wait, in the order of their numbers, each with a note of the actor's last entry beside it.
    fn take_wave(&mut self) -> Result<Vec<Delivery<N>>, Halt>
        requires track { KeepsTrack self.old }
        requires some { 1 ≤ length self.old.posted }
        ensures taken { IfOk result (λ wave. HasTakenWave self.old self.new wave.items) }
        ensures all { OnOk result (self.new.posted ≡ []) }
        ensures clock { self.new.log.clock ≡ self.old.log.clock }
        ensures err { IfErr result (HasHalted self.old self.new) }
        ensures ended { IfErr result (EndsOnly (λ made. ⊥) self.old self.new) }
    {
        let mut last = self.note_last()?;
        let mut wave = Vec::new(*self.replies.allocator());
        while self.waiting() > 0 {
            let message = self.take_first();
            match join_wave(&mut wave, message, &mut last) {
                Ok(()) => {}
                Err(NoMemory) => return Err(self.want_memory()),
            }
        }
        Ok(wave)
    }

    /// Takes the message of the least number from those that wait.
    fn take_first(&mut self) -> Message<N>
        requires { 1 ≤ length self.old.posted }
        ensures first { HasTakenFirst self.old self.new (posted_of result) }
        ensures may { MayGo self.old result }
        ensures clock { self.new.log.clock ≡ self.old.log.clock }
    {
        match self.outbox.take_first() {
            Some((_, message)) => message,
            None => unreachable!(),
        }
    }

    /// Knows the evaluations of a wave, and keeps their replies, in order, until they are heard.
    fn keep_all(&mut self, outcomes: Vec<Outcome<N>>) -> Result<(), Halt>
        requires log { IsOwnLog self.old.log }
        requires replies { All IsReply outcomes.items }
        ensures ok { OnOk result (HasKeptAll self.old self.new outcomes.items) }
        ensures clock { self.new.log.clock ≡ self.old.log.clock }
        ensures err { IfErr result (HasHalted self.old self.new) }
        ensures memory { IfErr result (λ halt. halt ≡ halts.NoMemory) }
    {
        for outcome in outcomes {
            let reply = match outcome {
                Ok(reply) => reply,
                Err(_) => unreachable!(),
            };
            self.keep(reply)?;
        }
        Ok(())
    }

    /// Knows what became of the messages of a wave, has the uses of those that were given back, and makes no more entries.
    fn end_for(&mut self, cause: Halt, outcomes: Vec<Outcome<N>>) -> Halt
        ensures ends { EndsFor self.old self.new outcomes.items cause result }
        ensures clock { self.new.log.clock ≡ self.old.log.clock }
    {
        for outcome in outcomes {
            match self.take_in(outcome) {
                Ok(()) => {}
                Err(NoMemory) => return self.want_memory(),
            }
        }
        self.log.halt();
        cause
    }

    /// Knows what became of a message of a wave, and has its use where it was given back.
    fn take_in(&mut self, outcome: Outcome<N>) -> Result<(), NoMemory>
        ensures ok { OnOk result (HasTakenIn self.old self.new outcome) }
        ensures refused { OnErr result (self.new ≡ self.old) }
        ensures clock { self.new.log.clock ≡ self.old.log.clock }
    {
        match outcome {
            Ok(reply) => {
                self.log.take(note_of(reply));
                Ok(())
            }
            Err(fault) => self.take_back(fault),
        }
    }

    /// Knows the last entry of a full range that gave a message back, and has the message's use.
    fn take_back(&mut self, fault: ServeFault<N>) -> Result<(), NoMemory>
        ensures ok { OnOk result (HasTakenIn self.old self.new (Err fault)) }
        ensures refused { OnErr result (self.new ≡ self.old) }
        ensures clock { self.new.log.clock ≡ self.old.log.clock }
    {
        match fault {
            ServeFault::Full {
                range: _range,
                last,
                message,
            } => {
                self.log.take(last);
                self.log.take(use_of(message));
                Ok(())
            }
            ServeFault::NoMemory => Err(NoMemory),
        }
    }

    /// How many messages were set aside.
    fn aside(&self) -> usize
        ensures { result ≡ length self.now.later }
    {
        self.later.waiting()
    }

    /// A note of the actor's last entry, behind which the messages that wait are evaluated.
    fn note_last(&mut self) -> Result<Note<CommitWorld, N>, Halt>
        requires track { KeepsTrack self.old }
        requires some { 1 ≤ length self.old.posted + length self.old.later }
        ensures behind { IfOk result (λ n. IsBehindAll self.old.log.part.own n.known) }
        ensures plain { IfOk result (λ n. n.known ≡ with_uses 0 n.known) }
        ensures same { OnOk result (self.new ≡ self.old) }
        ensures clock { self.new.log.clock ≡ self.old.log.clock }
        ensures err { IfErr result (HasHalted self.old self.new) }
        ensures ended { IfErr result (EndsOnly (λ made. ⊥) self.old self.new) }
    {
        match self.log.note(0) {
            Ok(note) => Ok(note),
            Err(NoMemory) => Err(self.want_memory()),
        }
    }

    /// Has the range of the message with the least number evaluate it, after what the note tells of. Gives a note of the evaluation.
    fn deliver_first<R: Wait>(
        &mut self,
        rt: &R,
        last: Note<CommitWorld, N>,
    ) -> Result<Note<CommitWorld, N>, Halt>
        requires track { KeepsTrack self.old }
        requires some { 1 ≤ length self.old.posted }
        requires newest { IsNewest self.old.log.part.own self.old.replies last.known }
        requires in_call { PostsInCall self.old }
        ensures ok { OnOk result (HasDelivered self.old self.new) }
        ensures one { OnOk result (length self.old.posted ≡ length self.new.posted + 1) }
        ensures in_call { OnOk result (PostsInCall self.new) }
        ensures newest { IfOk result (λ n. IsNewest self.new.log.part.own self.new.replies n.known) }
        ensures clock { self.new.log.clock ≡ self.old.log.clock }
        ensures err { IfErr result (HasHalted self.old self.new) }
        ensures ended { IfErr result (EndsOnly (λ made. ⊥) self.old self.new) }
    {
        let message = match self.outbox.take_first() {
            Some((_, message)) => message,
            None => unreachable!(),
        };
        match self.ranges.serve(rt, message, Some(last)) {
            Ok(reply) => self.keep_noted(reply),
            Err(fault) => Err(self.refused(fault)),
        }
    }

    /// Has the ranges evaluate all that was set aside, in the order of their numbers; the replies are dropped. No message waits to be evaluated then.
    pub fn deliver_strays<R: Wait>(&mut self, rt: &R) -> Result<(), Halt>
        requires track { KeepsTrack self.old }
        requires alone { self.old.posted ≡ [] }
        requires in_call { is_some (known_of self.old.log.part.own).statement ≡ true }
        ensures ok { OnOk result (HasDropped self.old self.new) }
        ensures all { OnOk result (self.new.later ≡ []) }
        ensures clock { self.new.log.clock ≡ self.old.log.clock }
        ensures err { IfErr result (HasHalted self.old self.new) }
        ensures ended { IfErr result (EndsOnly (λ made. ⊥) self.old self.new) }
    {
        if self.aside() == 0 {
            return Ok(());
        }
        let mut last = self.note_last()?;
        while self.aside() > 0 {
            last = self.deliver_stray(rt, last)?;
        }
        Ok(())
    }

    /// Has the range of the message with the least number that was set aside evaluate it, after what the note tells of. Gives a note of the
    /// evaluation.
    fn deliver_stray<R: Wait>(
        &mut self,
        rt: &R,
        last: Note<CommitWorld, N>,
    ) -> Result<Note<CommitWorld, N>, Halt>
        requires track { KeepsTrack self.old }
        requires alone { self.old.posted ≡ [] }
        requires some { 1 ≤ length self.old.later }
        requires in_call { is_some (known_of self.old.log.part.own).statement ≡ true }
        ensures ok { OnOk result (HasDroppedFirst self.old self.new) }
        ensures clock { self.new.log.clock ≡ self.old.log.clock }
        ensures err { IfErr result (HasHalted self.old self.new) }
        ensures ended { IfErr result (EndsOnly (λ made. ⊥) self.old self.new) }
    {
        let message = match self.later.take_first() {
            Some((_, message)) => message,
            None => unreachable!(),
        };
        let served = self.ranges.serve(rt, message, Some(last));
        match served {
            Ok(reply) => self.drop_noted(reply),
            Err(fault) => Err(self.refused(fault)),
        }
    }

    /// Knows the evaluation; its reply is dropped. Gives a copy of the evaluation's note.
    fn drop_noted(&mut self, msg: ReplyMsg<N>) -> Result<Note<CommitWorld, N>, Halt>
        ensures told { OnOk result (self.new ≡ record self.old { log = record self.old.log { part = told (without_uses 0 msg.note.known) self.old.log.part } }) }
        ensures log { OnOk result (IsOwnLog self.new.log) }
        ensures clock { self.new.log.clock ≡ self.old.log.clock }
        ensures err { IfErr result (HasHalted self.old self.new) }
        ensures memory { IfErr result (λ halt. halt ≡ halts.NoMemory) }
    {
        let mut note = msg.note;
        match note.again(0) {
            Ok(copy) => {
                self.log.take(note);
                Ok(copy)
            }
            Err(NoMemory) => Err(self.want_memory()),
        }
    }

    /// Knows the evaluation, and keeps its reply until it is heard. Gives a copy of the evaluation's note.
    fn keep_noted(&mut self, msg: ReplyMsg<N>) -> Result<Note<CommitWorld, N>, Halt>
        ensures ok { OnOk result (HasKept self.old self.new (record { number = msg.number; step = msg.step; reply = msg.reply }) (without_uses 0 msg.note.known)) }
        ensures copy { IfOk result (λ n. n.known ≡ with_uses 0 msg.note.known) }
        ensures clock { self.new.log.clock ≡ self.old.log.clock }
        ensures err { IfErr result (HasHalted self.old self.new) }
        ensures memory { IfErr result (λ halt. halt ≡ halts.NoMemory) }
    {
        let mut msg = msg;
        match msg.note.again(0) {
            Ok(copy) => {
                self.keep(msg)?;
                Ok(copy)
            }
            Err(NoMemory) => Err(self.want_memory()),
        }
    }

    /// Knows the evaluation, and keeps its reply until it is heard.
    fn keep(&mut self, msg: ReplyMsg<N>) -> Result<(), Halt>
        ensures ok { OnOk result (HasKept self.old self.new (record { number = msg.number; step = msg.step; reply = msg.reply }) msg.note.known) }
        ensures clock { self.new.log.clock ≡ self.old.log.clock }
        ensures err { IfErr result (HasHalted self.old self.new) }
        ensures memory { IfErr result (λ halt. halt ≡ halts.NoMemory) }
    {
        let ReplyMsg {
            number,
            step,
            reply,
            note,
        } = msg;
        self.log.take(note);
        let answered = Answered {
            number,
            step,
            reply,
        };
        match self.replies.push_back(answered) {
            Ok(()) => Ok(()),
            Err(_) => Err(self.want_memory()),
        }
    }

    /// Stops where a range refused a message. It has the use of a message back that a full range gave back: that one is never evaluated.
    fn refused(&mut self, fault: ServeFault<N>) -> Halt
        requires { (m : Posted) × (1 ≤ m.uses) × GivesBack self.old.range_limit self.old.log.part.id m fault }
        ensures halted { HasHalted self.old self.new result }
        ensures clock { self.new.log.clock ≡ self.old.log.clock }
        ensures ended { (old : DeskMeaning C) (m : Posted) → KeepsTrack old → HasTaken old self.old m → 1 ≤ m.uses → GivesBack self.old.range_limit self.old.log.part.id m fault → PutsInCall (known_of old.log.part.own) m.request → EndsOnly (λ made. ⊥) old self.new result }
    {
        match fault {
            ServeFault::Full {
                range,
                last,
                message,
            } => {
                self.have_back(last, message);
                Halt::Full {
                    actor: ActorId::Range(range),
                }
            }
            ServeFault::NoMemory => self.want_memory(),
        }
    }

    /// Knows the last entry of a range that gave the message back, has its use back, and makes no more entries.
    fn have_back(&mut self, last: Note<CommitWorld, N>, message: Message<N>)
        ensures { self.new ≡ record self.old { log = record self.old.log { part = told message.note.known (told last.known self.old.log.part); stopped = true } } }
    {
        self.log.take(last);
        self.log.take(message.note);
        self.log.halt();
    }

    /// Hears the reply that has waited longest, if there is one. All messages are evaluated by then.
    pub fn hear(&mut self) -> Result<Option<Answered>, Halt>
        requires track { KeepsTrack self.old }
        requires may { MayHearNow self.old }
        requires none_waits { self.old.posted ≡ [] }
        ensures ok { IfOk result (λ heard. IfSome heard (HasHeardFirst self.old self.new)) }
        ensures none { IfOk result (λ heard. IfNone heard ((self.old.replies ≡ []) × (self.new ≡ self.old))) }
        ensures clock { self.new.log.clock ≡ self.old.log.clock }
        ensures err { IfErr result (HasHalted self.old self.new) }
        ensures ended { IfErr result (EndsOnly (λ made. (number : ℕ) × (step : ℕ) × (made ≡ events.Hear number step)) self.old self.new) }
    {
        let answered = match self.replies.pop_front() {
            Some(answered) => answered,
            None => return Ok(None),
        };
        self.log.enter(Event::Hear {
            number: answered.number,
            step: answered.step,
        })?;
        Ok(Some(answered))
    }
}

impl<'a, N: Named<CommitWorld> + Send + Sync, C: Clock, V: Wire, G: Gate + Sync> Desk<
    'a,
    N,
    C,
    V,
    G,
> {
    /// Has each message's range evaluate it: those of a wave beside each other, where they are to go so, or else in the order of their numbers. All
    /// are sent by then, and no reply waits to be heard.
    pub fn deliver_wave<R: Wait + Threads + Sync>(&mut self, rt: &R) -> Result<(), Halt>
        requires track { KeepsTrack self.old }
        requires none_waits { self.old.replies ≡ [] }
        requires in_call { PostsInCall self.old }
        ensures ok { OnOk result (HasDelivered self.old self.new) }
        ensures all { OnOk result (self.new.posted ≡ []) }
        ensures clock { self.new.log.clock ≡ self.old.log.clock }
        ensures err { IfErr result (HasHalted self.old self.new) }
        ensures ended { IfErr result (EndsOnly (λ made. ⊥) self.old self.new) }
    {
        if self.log.is_beside() && self.waiting() > 1 {
            return self.deliver_beside(rt);
        }
        self.deliver(rt)
    }

    /// Has the messages' ranges evaluate them beside each other, and then keeps the replies in the order of their numbers. Where a range gave
    /// one back, none of them is heard.
    fn deliver_beside<R: Wait + Threads + Sync>(&mut self, rt: &R) -> Result<(), Halt>
        requires track { KeepsTrack self.old }
        requires beside { self.old.log.beside ≡ true }
        requires some { 1 ≤ length self.old.posted }
        requires none_waits { self.old.replies ≡ [] }
        requires in_call { PostsInCall self.old }
        ensures ok { OnOk result (HasDelivered self.old self.new) }
        ensures all { OnOk result (self.new.posted ≡ []) }
        ensures clock { self.new.log.clock ≡ self.old.log.clock }
        ensures err { IfErr result (HasHalted self.old self.new) }
        ensures ended { IfErr result (EndsOnly (λ made. ⊥) self.old self.new) }
    {
        let wave = self.take_wave()?;
        let outcomes = match serve_beside(rt, self.ranges, wave) {
            Ok(outcomes) => outcomes,
            Err(NoMemory) => return Err(self.want_memory()),
        };
        match first_refusal(outcomes.as_slice()) {
            None => self.keep_all(outcomes),
            Some(cause) => Err(self.end_for(cause, outcomes)),
        }
    }
}

impl<'a, N: Named<CommitWorld>, C: Clock + Drop, V: Wire + Drop, G> Desk<'a, N, C, V, G> {
    /// Its actor, to be handed in, and what is still in its outbox.
    pub fn finish(self) -> (Actor<CommitWorld, N>, Rest<N>)
        ensures actor { (result.0.world ≡ self.entry.log.head) × (result.0.part ≡ self.entry.log.part) }
        ensures log { IsOwnLog self.entry.log }
        ensures reads { ReadsEach (C.rule self.entry.log.clock) self.entry.log.part.own }
        ensures rest { map (λ w. w.posted) result.1 ≡ self.entry.posted ++ self.entry.later }
        ensures ready { All (IsReadyToGo self.entry.log.part.id self.entry.log.head.splits) result.1 }
    {
        (self.log.into_actor(), Rest::of(self.outbox, self.later))
    }
}

/// Moves the message of this number from one outbox to another, where none has this number.
fn move_message<N: Named<CommitWorld>>(
    from: &mut Outbox<Message<N>>,
    to: &mut Outbox<Message<N>>,
    number: u64,
) -> Result<(), NoMemory>
    requires free { lookup (is_at (nat_cmp number)) to.old.waiting ≡ None }
    ensures gone { from.new ≡ record from.old { waiting = remove_entry (is_at (nat_cmp number)) from.old.waiting } }
    ensures moved { OnOk result (to.new ≡ record to.old { waiting = with_one number (lookup (is_at (nat_cmp number)) from.old.waiting) to.old.waiting }) }
    ensures refused { OnErr result (to.new ≡ to.old) }
{
    match from.take(number) {
        Some((verdict, message)) => to.add(number, verdict, message),
        None => Ok(()),
    }
}

/// How often a message of this verdict may be evaluated.
fn uses_of(verdict: Verdict) -> u32
    ensures { result ≡ uses_by verdict }
{
    match verdict {
        Verdict::LoseRequest => 0,
        Verdict::Repeat(_) => 2,
        Verdict::Deliver | Verdict::LoseReply | Verdict::Hold(_) => 1,
    }
}
