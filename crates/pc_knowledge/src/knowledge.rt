ghost use Rattle.std.specs.Prelude.{◌≡◌, ◌↔◌, cond, map, OnOk, Contains, IsTrue, Some};
ghost use Rattle.std.specs.List.{list_any};
ghost use Rattle.std.specs.Option.{option_copied};
ghost use Rattle.pc_files.specs.Filing.{KeepsFiles, deciding_of, replies_of, views_of};
ghost use Rattle.pc_files.specs.FirstPuts.{first_put_of};
ghost use Rattle.pc_files.specs.SettledKeys.{settles_key};
ghost use Rattle.pc_history.specs.Own.{pair};
ghost use Rattle.pc_known.specs.Calls.{BeginsNext, KeepsCalls};
ghost use Rattle.pc_known.specs.Heards.{KeepsHeards};
ghost use Rattle.pc_known.specs.Sends.{KeepsSends, SendsNext};
ghost use Rattle.pc_knowledge.specs.Asking.{deciding_asked};
ghost use Rattle.pc_knowledge.specs.Keeping.{KeepsKnowledge};
ghost use Rattle.pc_knowledge.specs.LastGood.{AreLastGood};
ghost use Rattle.pc_own.specs.Numbered.{AreBegunInOrder};
ghost use Rattle.pc_world.specs.Known.{Known, call_of, learn, next_number, nothing_known, open_txn, priority_asked, reading_of, told_first, txn_begun, txns_after, txns_told};
ghost use Rattle.pc_world.specs.Known.Traffic.{replies_to};
ghost use Rattle.pc_world.specs.Known.Transactions.{Txn, txn_heard};
ghost use Rattle.pc_world.specs.StageFate.{IsUncommitted};

use crate::reads::good_after;
use pc_base::{Entry, Key, NoMemory, Priority, Timestamp, TxnId};
use pc_files::Files;
use pc_known::{Calls, Heards, Hearing, Message, Open, Sends};
use pc_own::{OwnTxn, Txns};
use pc_proto::{Answer, Call, Event, Request};
use std::alloc::Global;

/// All that a session or recoverer knows by its own entries.
#[derive(Drop)]
pub struct Knowledge<'a> {
    alloc: Global,
    calls: Calls<'a>,
    sends: Sends<'a>,
    heards: Heards<'a>,
    files: Files<'a>,
    txns: Txns<'a>,
    /// A timestamp up to which the reads of the last transaction begun are good, 0 where none is known.
    good: u128,
}

impl<'a> Knowledge<'a> {
    /// An actor that has no entry yet.
    pub fn new(alloc: Global) -> Knowledge<'a>
        ensures { KeepsKnowledge nothing_known result }
    {
        Knowledge {
            alloc,
            calls: Calls::new(alloc),
            sends: Sends::new(alloc),
            heards: Heards::new(alloc),
            files: Files::new(alloc),
            txns: Txns::new(alloc),
            good: 0,
        }
    }

    pub fn alloc(&self) -> Global {
        self.alloc
    }

    /// The open call, and what else is known apart from messages and transactions.
    pub fn calls(&self) -> &Calls<'a>
        ensures { (k : Known) → KeepsKnowledge k self.now → KeepsCalls k result.now }
    {
        &self.calls
    }

    /// The messages that were sent.
    pub fn sends(&self) -> &Sends<'a>
        ensures { (k : Known) → KeepsKnowledge k self.now → KeepsSends k result.now }
    {
        &self.sends
    }

    /// The open call, with its reading, if there is one.
    pub fn statement(&self) -> Option<&Open<'a>>
        ensures { (k : Known) → KeepsKnowledge k self.now → option_copied result ≡ k.statement }
    {
        self.calls.statement()
    }

    /// The open call, if there is one.
    pub fn call(&self) -> Option<&'a Call>
        ensures { (k : Known) → KeepsKnowledge k self.now → option_copied result ≡ call_of k }
    {
        self.calls.call()
    }

    /// The reading at which the open call was asked, if there is one.
    pub fn reading(&self) -> Option<u64>
        ensures { (k : Known) → KeepsKnowledge k self.now → result ≡ reading_of k }
    {
        self.calls.reading()
    }

    /// All messages that were sent.
    pub fn sent(&self) -> &[Message<'a>]
        ensures { (k : Known) → KeepsKnowledge k self.now → result.now ≡ k.sent }
    {
        self.sends.messages()
    }

    /// All replies that were heard.
    pub fn heard(&self) -> &[Hearing<'a>]
        ensures { (k : Known) → KeepsKnowledge k self.now → result.now ≡ k.heard }
    {
        self.heards.all()
    }

    /// The replies that were heard since the last call was asked.
    pub fn heard_now(&self) -> &[Hearing<'a>]
        ensures { (k : Known) → KeepsKnowledge k self.now → result.now ≡ k.heard_now }
    {
        self.heards.now()
    }

    /// What of it all is filed by transaction.
    pub(crate) fn files(&self) -> &Files<'a>
        ensures { (k : Known) → KeepsKnowledge k self.now → KeepsFiles k result.now }
    {
        &self.files
    }

    /// A timestamp up to which the reads of the last transaction begun are good, 0 where none is known.
    pub(crate) fn good(&self) -> u128
        ensures { (k : Known) → KeepsKnowledge k self.now → AreLastGood k result }
    {
        self.good
    }

    /// The stages and commits of the transaction that were sent.
    pub fn deciding(&self, id: TxnId) -> &[Message<'a>]
        ensures { (k : Known) → KeepsKnowledge k self.now → result.now ≡ deciding_of id k.sent }
    {
        self.files.deciding(id)
    }

    /// The number of the first put of this write that was sent.
    pub fn first_put(&self, id: TxnId, epoch: u32, seq: u32) -> Option<u64>
        ensures { (k : Known) → KeepsKnowledge k self.now → result ≡ first_put_of id epoch seq k.sent }
    {
        self.files.first_put(id, epoch, seq)
    }

    /// The replies that were heard to requests that name the transaction.
    pub fn replies(&self, id: TxnId) -> &[Hearing<'a>]
        ensures { (k : Known) → KeepsKnowledge k self.now → result.now ≡ replies_of id k.heard }
    {
        self.files.replies(id)
    }

    /// Those of them that have a view.
    pub fn views(&self, id: TxnId) -> &[Hearing<'a>]
        ensures { (k : Known) → KeepsKnowledge k self.now → result.now ≡ views_of id k.heard }
    {
        self.files.views(id)
    }

    /// Whether the intent at the key was settled for the transaction.
    pub fn is_settled(&self, id: TxnId, key: &'a Key) -> bool
        ensures { (k : Known) → KeepsKnowledge k self.now → result ≡ list_any (settles_key id key.now) k.heard }
    {
        self.files.is_settled(id, key)
    }

    /// Whether every stage of the transaction is dead, and every commit refused.
    pub fn is_uncommitted(&self, id: TxnId) -> bool
        ensures { (k : Known) → KeepsKnowledge k self.now → IsTrue result ↔ IsUncommitted id k.sent k.heard }
    {
        self.files.is_uncommitted(id)
    }

    /// The open transaction, if there is one.
    pub fn open_txn(&self) -> Option<&OwnTxn<'a>>
        ensures { (k : Known) → KeepsKnowledge k self.now → option_copied result ≡ open_txn k }
    {
        self.txns.open(self.calls.is_open())
    }

    /// The actor's own transaction of this id, if it has one.
    pub fn own_txn(&self, id: TxnId) -> Option<&OwnTxn<'a>>
        ensures { (k : Known) → KeepsKnowledge k self.now → (t : Txn) → (option_copied result ≡ Some t) ↔ (Contains k.txns t × (t.id ≡ id)) }
    {
        self.txns.own(id)
    }

    /// Takes one more entry, with the one that it names. After a refusal nothing is known.
    pub fn learn(
        &mut self,
        entry: &'a Entry<Event>,
        named: Option<&'a Entry<Event>>,
    ) -> Result<(), NoMemory>
        requires { BeginsNext self.old.calls.begun entry.now.event }
        ensures { (k : Known) → KeepsKnowledge k self.old → SendsNext (next_number k) entry.now.event → OnOk result (KeepsKnowledge (learn (pair entry.now (option_copied named.entry)) k) self.new) }
    {
        let heard = self.sends.heard_by(&entry.event, named);
        self.good = good_after(self.good, &self.txns, &self.files, &entry.event);
        learn_txns(
            &mut self.txns,
            self.alloc,
            &self.calls,
            &self.sends,
            &self.heards,
            &self.files,
            &entry.event,
            heard.as_ref(),
        )?;
        self.files.learn(&entry.event, heard.as_ref())?;
        self.sends.learn(&entry.event, heard.as_ref())?;
        self.heards.learn(&entry.event, heard)?;
        self.calls.learn(entry, named)
    }
}

/// The transactions after one more event, and the reply that it brings. After a refusal nothing is known.
fn learn_txns<'a>(
    txns: &mut Txns<'a>,
    alloc: Global,
    calls: &Calls<'a>,
    sends: &Sends<'a>,
    heards: &Heards<'a>,
    files: &Files<'a>,
    event: &'a Event,
    heard: Option<&Hearing<'a>>,
) -> Result<(), NoMemory>
    ensures { (k : Known) → KeepsCalls k calls.now → KeepsSends k sends.now → KeepsHeards k heards.now → KeepsFiles k files.now → txns.old ≡ k.txns → AreBegunInOrder k.txns → OnOk result (txns.new ≡ txns_after event.now (option_copied heard.entry) k) }
{
    match event {
        Event::Send { request, .. } => txns.send(request),
        Event::Hear { .. } => hear(txns, files, heard),
        Event::Tell(answer) => tell(txns, alloc, calls, sends, heards, answer),
        _ => Ok(()),
    }
}

fn hear(txns: &mut Txns<'_>, files: &Files<'_>, heard: Option<&Hearing<'_>>) -> Result<(), NoMemory>
    ensures { (k : Known) → KeepsFiles k files.now → AreBegunInOrder txns.old → OnOk result (txns.new ≡ map (txn_heard k.sent (option_copied heard.entry)) txns.old) }
{
    match heard {
        None => Ok(()),
        Some(hearing) => txns.hear(deciding_asked(files, hearing.request), hearing),
    }
}

/// The stages and commits of the transaction that a query asks about, if the request is one.
fn deciding_asked<'b, 'a>(files: &'b Files<'a>, request: &Request) -> &'b [Message<'a>]
    ensures { (k : Known) → KeepsFiles k files.now → result.now ≡ deciding_asked request.now k.sent }
{
    match request {
        Request::Query { id, .. } => files.deciding(*id),
        _ => &[],
    }
}

fn tell<'a>(
    txns: &mut Txns<'a>,
    alloc: Global,
    calls: &Calls<'a>,
    sends: &Sends<'a>,
    heards: &Heards<'a>,
    answer: &'a Answer,
) -> Result<(), NoMemory>
    ensures { (k : Known) → KeepsCalls k calls.now → KeepsSends k sends.now → KeepsHeards k heards.now → txns.old ≡ k.txns → OnOk result (txns.new ≡ txns_told answer.now k) }
{
    match answer {
        Answer::Begun { id, ts } => txns.begin(txn_begun(alloc, calls.statement(), *id, *ts)),
        _ => tell_open(txns, calls.is_open(), sends, heards.now(), answer),
    }
}

/// The transactions after an answer was told, to the last one where it is open.
fn tell_open<'a>(
    txns: &mut Txns<'a>,
    is_open: bool,
    sends: &Sends<'a>,
    heard_now: &[Hearing<'a>],
    answer: &'a Answer,
) -> Result<(), NoMemory>
    ensures { (k : Known) → KeepsSends k sends.now → OnOk result (txns.new ≡ cond is_open (told_first answer.now (replies_to k.sent_now heard_now.now) txns.old) txns.old) }
{
    if is_open {
        txns.tell(answer, sends, heard_now)
    } else {
        Ok(())
    }
}

/// The transaction that a begin opens.
fn txn_begun<'a>(
    alloc: Global,
    statement: Option<&Open<'a>>,
    id: TxnId,
    ts: Timestamp,
) -> OwnTxn<'a>
    ensures { result ≡ txn_begun (option_copied statement.entry) id ts }
{
    match statement {
        None => OwnTxn::new(alloc, id, Priority::Normal, 0, ts),
        Some(open) => OwnTxn::new(alloc, id, priority_asked(open.call), open.reading, ts),
    }
}

fn priority_asked(call: &Call) -> Priority
    ensures { result ≡ priority_asked call.now }
{
    match call {
        Call::Begin(priority) => *priority,
        _ => Priority::Normal,
    }
}
