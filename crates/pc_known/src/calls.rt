ghost use Rattle.std.specs.Prelude.{◌≡◌, ◌↔◌, ◌+◌, ◌≤◌, ◌&&◌, not, All, IsTrue, OnOk, List, ℕ};
ghost use Rattle.std.specs.List.{list_any};
ghost use Rattle.std.specs.Option.{option_copied};
ghost use Rattle.pc_known.specs.Calls.{BeginsNext, IsOfCall, KeepsCalls};
ghost use Rattle.pc_base.specs.Transaction.{same_txn};
ghost use Rattle.pc_history.specs.Own.{pair};
ghost use Rattle.pc_proto.specs.Stamps.{request_stamps};
ghost use Rattle.pc_world.specs.Known.{Known, call_of, learn, nothing_known, reading_of};
ghost use Rattle.pc_world.specs.Known.Clock.{high_after, top_after};
ghost use Rattle.pc_world.specs.Known.Statements.{begun_after, is_open_after, is_open_told, met_now_after, statement_after};
ghost use Rattle.pc_world.specs.Local.{MayAsk, MayMeet};
ghost use Rattle.pc_world.specs.MaySend.{MaySendRecords};
ghost use Rattle.pc_world.specs.MayTell.{IsLearnTold, MayTell, MayTellIn, MayTellRow, needs_txn};
ghost use Rattle.pc_world.specs.Tell.Begin.{IsNextOf, MayTellBegun};

use crate::call::{is_call_of, is_outside, needs_txn};
use crate::stamp::{are_within_next, event_stamp, is_clock_now, named_stamp};
use crate::statement::Open;
use pc_base::{ActorId, Entry, NoMemory, Timestamp, TxnId};
use pc_proto::{Answer, Call, Event, Request};
use std::alloc::Global;

/// The open call of an actor, and what else it knows apart from its messages and transactions.
#[derive(Drop)]
pub struct Calls<'a> {
    statement: Option<Open<'a>>,
    met: Vec<TxnId>,
    top: Timestamp,
    high: Timestamp,
    begun: u32,
    is_open: bool,
}

impl<'a> Calls<'a> {
    /// An actor that has no entry yet.
    pub fn new(alloc: Global) -> Calls<'a>
        ensures { KeepsCalls nothing_known result }
    {
        Calls {
            statement: None,
            met: Vec::new(alloc),
            top: Timestamp::ZERO,
            high: Timestamp::ZERO,
            begun: 0,
            is_open: false,
        }
    }

    /// The open call, with its reading, if there is one.
    pub fn statement(&self) -> Option<&Open<'a>>
        ensures { (k : Known) → KeepsCalls k self.now → option_copied result ≡ k.statement }
    {
        self.statement.as_ref()
    }

    /// The open call, if there is one.
    pub fn call(&self) -> Option<&'a Call>
        ensures { (k : Known) → KeepsCalls k self.now → option_copied result ≡ call_of k }
    {
        match &self.statement {
            Some(open) => Some(open.call),
            None => None,
        }
    }

    /// The reading at which the open call was asked, if there is one.
    pub fn reading(&self) -> Option<u64>
        ensures { (k : Known) → KeepsCalls k self.now → result ≡ reading_of k }
    {
        match &self.statement {
            Some(open) => Some(open.reading),
            None => None,
        }
    }

    /// Whether the last transaction is open.
    pub fn is_open(&self) -> bool
        ensures { (k : Known) → KeepsCalls k self.now → result ≡ k.is_open }
    {
        self.is_open
    }

    /// Whether no timestamp in the request is past the one after the greatest that the actor knows.
    pub(crate) fn are_within_next(&self, request: &Request) -> bool
        ensures { (k : Known) → KeepsCalls k self.now → IsTrue result ↔ All (λ ts. ts ≤ k.top + 1) (request_stamps request.now) }
    {
        are_within_next(request, self.top)
    }

    /// Whether the call may be asked.
    pub fn may_ask(&self, actor: ActorId, call: &Call) -> bool
        ensures { (k : Known) → KeepsCalls k self.now → IsTrue result ↔ MayAsk actor k call.now }
    {
        self.statement.is_none() && is_call_of(actor, call) && !(is_outside(call) && self.is_open)
    }

    /// Whether a commit may be met.
    pub fn may_meet(&self) -> bool
        ensures { (k : Known) → KeepsCalls k self.now → IsTrue result ↔ MayMeet k }
    {
        match &self.statement {
            None => false,
            Some(open) => matches!(open.call, Call::Learn(_)),
        }
    }

    /// Whether the actor is a recoverer in a round.
    pub(crate) fn is_in_round(&self, actor: ActorId) -> bool
        ensures { (k : Known) → KeepsCalls k self.now → IsTrue result ↔ MaySendRecords actor k }
    {
        match (actor, &self.statement) {
            (ActorId::Recoverer(_), Some(open)) => open.is_round(),
            _ => false,
        }
    }

    /// Whether the open call may be told this, where the answer rests on the call alone: that a transaction began, that a commit was learnt
    /// or not, that a round is done, that no transaction is open, or that the clock is past its range.
    pub fn may_tell(&self, actor: ActorId, answer: &Answer) -> bool
        requires { IsOfCall answer.now }
        ensures { (splits : List (List ℕ)) (k : Known) → KeepsCalls k self.now → IsTrue result ↔ MayTell splits actor k answer.now }
    {
        match &self.statement {
            None => false,
            Some(statement) => self.may_tell_in(statement, actor, answer),
        }
    }

    fn may_tell_in(&self, statement: &Open<'a>, actor: ActorId, answer: &Answer) -> bool
        requires { IsOfCall answer.now }
        ensures { (splits : List (List ℕ)) (k : Known) → KeepsCalls k self.now → IsTrue result ↔ MayTellIn splits actor k statement.now answer.now }
    {
        if self.finds_none(statement) {
            matches!(answer, Answer::NoTxn)
        } else if statement.is_past_range() {
            statement.is_clock(answer)
        } else {
            self.may_tell_row(statement, actor, answer)
        }
    }

    /// Whether the call needs an open transaction and finds none.
    pub fn finds_none(&self, statement: &Open<'a>) -> bool
        ensures { (k : Known) → KeepsCalls k self.now → result ≡ (needs_txn statement.now.call && not k.is_open) }
    {
        needs_txn(statement.call) && !self.is_open
    }

    /// Whether the answer is one that this call's row allows, where it rests on the call alone.
    pub fn may_tell_row(&self, statement: &Open<'a>, actor: ActorId, answer: &Answer) -> bool
        requires { IsOfCall answer.now }
        ensures { (splits : List (List ℕ)) (k : Known) → KeepsCalls k self.now → IsTrue result ↔ MayTellRow splits actor k statement.now answer.now }
    {
        match answer {
            Answer::Begun { id, ts } => self.may_tell_begun(statement, actor, *id, *ts),
            Answer::Learnt => self.is_learn_told(statement, true),
            Answer::NotYet => self.is_learn_told(statement, false),
            Answer::Done => statement.is_round(),
            _ => false,
        }
    }

    fn may_tell_begun(&self, statement: &Open<'a>, actor: ActorId, id: TxnId, ts: Timestamp) -> bool
        ensures { (k : Known) → KeepsCalls k self.now → IsTrue result ↔ MayTellBegun actor k statement.now id ts }
    {
        match statement.call {
            Call::Begin(_) => self.is_next(actor, id)
                && is_clock_now(ts, statement.reading, self.high),
            _ => false,
        }
    }

    /// Whether this is the id of the session's next transaction.
    fn is_next(&self, actor: ActorId, id: TxnId) -> bool
        ensures { IsTrue result ↔ IsNextOf actor self.now.begun id }
    {
        match actor {
            ActorId::Session(session) => {
                id.session == session && id.number as u64 == self.begun as u64 + 1
            }
            ActorId::Range(_) | ActorId::Recoverer(_) => false,
        }
    }

    /// Whether the call is a learn, and its commit was met or not.
    fn is_learn_told(&self, statement: &Open<'a>, met: bool) -> bool
        ensures { (k : Known) → KeepsCalls k self.now → IsTrue result ↔ IsLearnTold met k statement.now.call }
    {
        match statement.call {
            Call::Learn(id) => self.was_met(*id) == met,
            _ => false,
        }
    }

    fn was_met(&self, id: TxnId) -> bool
        ensures { (k : Known) → KeepsCalls k self.now → result ≡ list_any (λ other. same_txn other id) k.met_now }
    {
        is_among(&self.met, id)
    }

    /// Takes one more entry, with the one that it names. After a refusal nothing is known.
    pub fn learn(
        &mut self,
        entry: &'a Entry<Event>,
        named: Option<&Entry<Event>>,
    ) -> Result<(), NoMemory>
        requires { BeginsNext self.old.begun entry.now.event }
        ensures { (k : Known) → KeepsCalls k self.old → OnOk result (KeepsCalls (learn (pair entry.now (option_copied named.entry)) k) self.new) }
    {
        meet(&mut self.met, &entry.event)?;
        open(&mut self.statement, &entry.event);
        self.top = top_after(self.top, &entry.event, named);
        self.high = high_after(self.high, &entry.event, named);
        self.begun = begun_after(self.begun, &entry.event);
        self.is_open = is_open_after(self.is_open, &entry.event);
        Ok(())
    }
}

fn is_among(ids: &[TxnId], id: TxnId) -> bool
    ensures { result ≡ list_any (λ other. same_txn other id) ids.now }
{
    ids.iter().any(|other| *other == id)
}

fn open<'a>(statement: &mut Option<Open<'a>>, event: &'a Event)
    ensures { statement.new ≡ statement_after event.now statement.old }
{
    match event {
        Event::Ask { call, reading } => {
            *statement = Some(Open {
                call,
                reading: *reading,
            });
        }
        Event::Tell(_) => *statement = None,
        _ => {}
    }
}

fn meet(met: &mut Vec<TxnId>, event: &Event) -> Result<(), NoMemory>
    ensures { OnOk result (met.new.items ≡ met_now_after event.now met.old.items) }
{
    match event {
        Event::Ask { .. } => met.clear(),
        Event::Meet { id, .. } => met.push(*id)?,
        _ => {}
    }
    Ok(())
}

fn top_after(top: Timestamp, event: &Event, named: Option<&Entry<Event>>) -> Timestamp
    ensures { result ≡ top_after event.now (option_copied named.entry) top }
{
    top.max(event_stamp(event).max(named_stamp(named)))
}

fn high_after(high: Timestamp, event: &Event, named: Option<&Entry<Event>>) -> Timestamp
    ensures { result ≡ high_after event.now (option_copied named.entry) high }
{
    match event {
        Event::Hear { .. } | Event::Meet { .. } => high.max(named_stamp(named)),
        Event::Tell(Answer::Begun { ts, .. }) => high.max(*ts),
        _ => high,
    }
}

fn begun_after(begun: u32, event: &Event) -> u32
    requires { BeginsNext begun event.now }
    ensures { result ≡ begun_after event.now begun }
{
    match event {
        Event::Tell(Answer::Begun { id, .. }) => id.number,
        _ => begun,
    }
}

fn is_open_after(was_open: bool, event: &Event) -> bool
    ensures { result ≡ is_open_after event.now was_open }
{
    match event {
        Event::Tell(answer) => is_open_told(answer, was_open),
        _ => was_open,
    }
}

fn is_open_told(answer: &Answer, was_open: bool) -> bool
    ensures { result ≡ is_open_told answer.now was_open }
{
    match answer {
        Answer::Begun { .. } => true,
        Answer::Committed { .. }
        | Answer::RolledBack { .. }
        | Answer::Aborted { .. }
        | Answer::Unknown { .. } => false,
        _ => was_open,
    }
}
