ghost use Rattle.std.specs.Prelude.{◌≡◌, ◌==◌, ◌↔◌, Some, [], IsTrue, OnOk};
ghost use Rattle.std.specs.Option.{option_copied};
ghost use Rattle.pc_known.specs.Sends.{KeepsSends};
ghost use Rattle.pc_own.specs.Changes.{with_own_put};
ghost use Rattle.pc_world.specs.Known.{Known};
ghost use Rattle.pc_world.specs.Known.Traffic.{replies_to};
ghost use Rattle.pc_world.specs.Known.Transactions.{IsMetaOf, begun, has_staged, is_stage_of, meta_of, missing_ts, raised_to, txn_heard, txn_sent, txn_told};
ghost use Rattle.pc_world.specs.Known.Writes.{writes_replied};
ghost use Rattle.pc_proto.specs.Replies.{status_ts, written_ts};
ghost use Rattle.pc_proto.specs.Views.{undecided_ts};

use crate::locks::Locks;
use crate::reads::Reads;
use crate::writes::Writes;
use pc_base::{Key, NoMemory, Priority, Timestamp, TxnId, Value};
use pc_known::{Hearing, Message, Sends, is_key, lists_write, number};
use pc_proto::{Answer, Reply, Request, TxnMeta, View};
use std::alloc::Global;
use std::marker::Model;

/// A write that made its transaction restart.
#[derive(Drop)]
pub struct Restart<'a> {
    pub key: &'a Key,
    pub ts: Timestamp,
}

impl<'a> Model for Restart<'a> {
    ghost use Rattle.std.specs.Prelude.{ℕ, List};

    ghost Value = { List ℕ × ℕ };

    ghost view = { λ r. (r.key.now, r.ts) };
}

/// A transaction, as its session knows it.
#[derive(Drop)]
pub struct OwnTxn<'a> {
    id: TxnId,
    priority: Priority,
    born: u64,
    begin: Timestamp,
    /// The timestamps of the writes for which it was told to restart, one for each epoch that is over.
    over: Vec<Timestamp>,
    anchor: Option<&'a Key>,
    locks: Locks<'a>,
    write_ts: u128,
    read_ts: u128,
    writes: Writes<'a>,
    reads: Reads<'a>,
    restart: Option<Restart<'a>>,
    committed: Option<Timestamp>,
}

impl<'a> Model for OwnTxn<'a> {
    ghost use Rattle.std.specs.Prelude.{length};
    ghost use Rattle.std.specs.Option.{option_copied};
    ghost use Rattle.pc_world.specs.Known.Transactions.{Txn};

    ghost Value = { Txn };

    ghost view = { λ t. record { id = t.id; priority = t.priority; born = t.born; begin = t.begin; epoch = length t.over.items; anchor = option_copied t.anchor; locks = t.locks; write_ts = t.write_ts; read_ts = t.read_ts; writes = t.writes; reads = t.reads; restart = t.restart; committed = t.committed } };
}

impl<'a> OwnTxn<'a> {
    /// A transaction that was just begun.
    pub fn new(
        alloc: Global,
        id: TxnId,
        priority: Priority,
        born: u64,
        begin: Timestamp,
    ) -> OwnTxn<'a>
        ensures { result ≡ begun id priority born begin }
    {
        OwnTxn {
            id,
            priority,
            born,
            begin,
            over: Vec::new(alloc),
            anchor: None,
            locks: Locks::new(alloc),
            write_ts: number(begin),
            read_ts: number(begin),
            writes: Writes::new(alloc),
            reads: Reads::new(alloc),
            restart: None,
            committed: None,
        }
    }

    pub fn id(&self) -> TxnId
        ensures { result ≡ self.now.id }
    {
        self.id
    }

    pub fn priority(&self) -> Priority
        ensures { result ≡ self.now.priority }
    {
        self.priority
    }

    pub fn begin(&self) -> Timestamp
        ensures { result ≡ self.now.begin }
    {
        self.begin
    }

    /// The key of its first put, if it sent one.
    pub fn anchor(&self) -> Option<&'a Key>
        ensures { option_copied result ≡ self.now.anchor }
    {
        self.anchor
    }

    pub fn locks(&self) -> &Locks<'a>
        ensures { result.now ≡ self.now.locks }
    {
        &self.locks
    }

    pub fn write_ts(&self) -> u128
        ensures { result ≡ self.now.write_ts }
    {
        self.write_ts
    }

    pub fn read_ts(&self) -> u128
        ensures { result ≡ self.now.read_ts }
    {
        self.read_ts
    }

    pub fn writes(&self) -> &Writes<'a>
        ensures { result.now ≡ self.now.writes }
    {
        &self.writes
    }

    pub fn reads(&self) -> &Reads<'a>
        ensures { result.now ≡ self.now.reads }
    {
        &self.reads
    }

    /// The write that made it restart, where that was its last answer.
    pub fn restart(&self) -> Option<&Restart<'a>>
        ensures { option_copied result ≡ self.now.restart }
    {
        self.restart.as_ref()
    }

    /// The timestamp at which it was told committed, if it was.
    pub fn committed(&self) -> Option<Timestamp>
        ensures { result ≡ self.now.committed }
    {
        self.committed
    }

    /// How often it was told to restart.
    pub fn epoch(&self) -> u64
        ensures { result ≡ self.now.epoch }
    {
        self.over.len() as u64
    }

    pub fn is_epoch(&self, epoch: u32) -> bool
        ensures { result ≡ (epoch == self.now.epoch) }
    {
        epoch as usize == self.over.len()
    }

    /// Whether the meta is the transaction's.
    pub fn is_meta(&self, meta: &TxnMeta) -> bool
        ensures { IsTrue result ↔ IsMetaOf self.now meta.now }
    {
        match self.anchor {
            Some(anchor) => self.is_meta_at(meta, anchor),
            None => false,
        }
    }

    /// Whether the meta is the transaction's, with this anchor.
    pub fn is_meta_at(&self, meta: &TxnMeta, anchor: &Key) -> bool
        ensures { IsTrue result ↔ (meta.now ≡ meta_of self.now anchor.now) }
    {
        meta.id == self.id
            && self.is_epoch(meta.epoch)
            && meta.priority == self.priority
            && meta.born == self.born
            && is_key(&meta.anchor, anchor)
    }

    /// The transaction after its session sent a message. After a refusal nothing is known.
    pub(crate) fn send(&mut self, alloc: Global, request: &'a Request) -> Result<(), NoMemory>
        ensures { OnOk result (self.new ≡ txn_sent request.now self.old) }
    {
        match request {
            Request::Put {
                meta,
                seq,
                ts,
                key,
                value,
            } => {
                if meta.id == self.id {
                    self.put(alloc, meta.epoch, *seq, *ts, key, value.as_ref())?;
                }
            }
            Request::Stage { meta, ts, .. } | Request::Commit { meta, ts, .. } => {
                if meta.id == self.id {
                    self.read_ts = self.read_ts.max(number(*ts));
                }
            }
            _ => {}
        }
        Ok(())
    }

    fn put(
        &mut self,
        alloc: Global,
        epoch: u32,
        seq: u32,
        ts: Timestamp,
        key: &'a Key,
        value: Option<&'a Value>,
    ) -> Result<(), NoMemory>
        ensures { OnOk result (self.new ≡ with_own_put epoch seq ts key.now (option_copied value.entry) self.old) }
    {
        self.locks.add(key)?;
        if epoch as usize == self.over.len() {
            self.writes.put(alloc, seq, ts, key, value)?;
        }
        if self.anchor.is_none() {
            self.anchor = Some(key);
        }
        Ok(())
    }

    /// The transaction after its session heard a reply. After a refusal nothing is known.
    pub(crate) fn hear(
        &mut self,
        sent: &[Message<'_>],
        hearing: &Hearing<'_>,
    ) -> Result<(), NoMemory>
        ensures { OnOk result (self.new ≡ txn_heard sent.now (Some hearing.now) self.old) }
    {
        let raised = raised_to(self.id, sent, hearing.request, hearing.reply);
        let epoch = self.over.len() as u64;
        self.write_ts = self.write_ts.max(raised);
        prove(
            &mut self.writes,
            self.id,
            epoch,
            hearing.request,
            hearing.reply,
        )
    }

    /// The open transaction after it was told an answer, by what was heard in the open call. After a refusal nothing is known.
    pub(crate) fn tell(
        &mut self,
        answer: &'a Answer,
        sends: &Sends<'a>,
        heard_now: &[Hearing<'a>],
    ) -> Result<(), NoMemory>
        ensures { (k : Known) → KeepsSends k sends.now → OnOk result (self.new ≡ txn_told answer.now (replies_to k.sent_now heard_now.now) self.old) }
    {
        self.restart = None;
        match answer {
            Answer::Restart { key, ts } => self.start_again(key, *ts),
            Answer::Value(_) | Answer::Rows(_) => self.reads.tell(sends, heard_now),
            Answer::Committed { ts, .. } => {
                self.committed = Some(*ts);
                Ok(())
            }
            _ => Ok(()),
        }
    }

    fn start_again(&mut self, key: &'a Key, ts: Timestamp) -> Result<(), NoMemory>
        ensures { OnOk result (self.new ≡ txn_told (Answer.Restart key.now ts) [] self.old) }
    {
        self.over.push(ts)?;
        self.read_ts = self.read_ts.max(self.write_ts);
        self.writes.clear();
        self.reads.clear();
        self.restart = Some(Restart { key, ts });
        Ok(())
    }
}

/// How far a reply raises the transaction's write timestamp.
fn raised_to(id: TxnId, sent: &[Message<'_>], request: &Request, reply: &Reply) -> u128
    ensures { result ≡ raised_to id sent.now request.now reply.now }
{
    match request {
        Request::Put { meta, .. } if meta.id == id => written_ts(reply),
        Request::Beat { meta, .. } | Request::Stage { meta, .. } | Request::Commit { meta, .. } => {
            if meta.id == id { status_ts(reply) } else { 0 }
        }
        Request::Query {
            id: other,
            epoch,
            seq,
            ts,
            key,
            ..
        } if *other == id => {
            let staged = has_staged(sent, id, *epoch, *ts, key, *seq);
            missing_ts(staged, *ts, reply)
        }
        _ => 0,
    }
}

/// The timestamp at which a reply says that a put was written, 0 where it says no such thing.
fn written_ts(reply: &Reply) -> u128
    ensures { result ≡ written_ts reply.now }
{
    match reply {
        Reply::Written { ts } => number(*ts),
        _ => 0,
    }
}

/// The timestamp of the record that is not final that a reply shows, 0 where it shows none.
pub fn status_ts(reply: &Reply) -> u128
    ensures { result ≡ status_ts reply.now }
{
    match reply {
        Reply::Status(view) => undecided_ts(view),
        _ => 0,
    }
}

fn undecided_ts(view: &View) -> u128
    ensures { result ≡ undecided_ts view.now }
{
    match view {
        View::Pending { ts, .. } | View::Staging { ts, .. } => number(*ts),
        View::Nothing | View::Committed { .. } | View::Aborted { .. } => 0,
    }
}

/// The timestamp after the staged one, where a write of the transaction's own stage is missing.
fn missing_ts(staged: bool, ts: Timestamp, reply: &Reply) -> u128
    ensures { result ≡ missing_ts staged ts reply.now }
{
    match reply {
        Reply::Missing if staged => number(ts) + 1,
        _ => 0,
    }
}

/// Whether the transaction staged this write at this timestamp.
pub fn has_staged(
    sent: &[Message<'_>],
    id: TxnId,
    epoch: u32,
    ts: Timestamp,
    key: &Key,
    seq: u32,
) -> bool
    ensures { result ≡ has_staged sent.now id epoch ts key.now seq }
{
    sent.iter().any(|message| is_stage_of(message.request, id, epoch, ts, key, seq))
}

fn is_stage_of(request: &Request, id: TxnId, epoch: u32, ts: Timestamp, key: &Key, seq: u32) -> bool
    ensures { result ≡ is_stage_of id epoch ts key.now seq request.now }
{
    match request {
        Request::Stage {
            meta,
            ts: at,
            writes,
            ..
        } => {
            meta.id == id && meta.epoch == epoch && (*at == ts && lists_write(writes, key, seq))
        }
        _ => false,
    }
}

/// The epoch's writes after a reply was heard. After a refusal nothing is known.
fn prove(
    writes: &mut Writes<'_>,
    id: TxnId,
    epoch: u64,
    request: &Request,
    reply: &Reply,
) -> Result<(), NoMemory>
    ensures { OnOk result (writes.new ≡ writes_replied id epoch request.now reply.now writes.old) }
{
    match (request, reply) {
        (Request::Put { meta, seq, key, .. }, Reply::Written { ts }) => {
            if meta.id == id && meta.epoch as u64 == epoch {
                writes.prove(key, *seq, *ts)?;
            }
        }
        (
            Request::Query {
                id: other,
                epoch: at,
                seq,
                ts,
                key,
                ..
            },
            Reply::Found,
        ) => {
            if *other == id && *at as u64 == epoch {
                writes.prove(key, *seq, *ts)?;
            }
        }
        _ => {}
    }
    Ok(())
}
