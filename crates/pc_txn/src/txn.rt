ghost use Rattle.std.specs.Prelude.{◌≡◌, ◌+◌, ◌<◌, nat_lt, IfOk, OnOk, unwrap_or};
ghost use Rattle.std.specs.List.{list_all};
ghost use Rattle.pc_base.specs.Timestamp.{greatest};
ghost use Rattle.pc_txn.specs.Opened.{has_place_behind, just_begun, landed_at, meta_now, missed_at, next_put, own_abort, own_commit, own_get, own_put, own_scan, refused_at, restarted_by, with_commit, with_found, with_next_write};
ghost use Rattle.pc_world.specs.Known.Transactions.{begun};

use pc_base::{Key, NoMemory, Priority, Span, Timestamp, TryCopy, TxnId, Value};
use pc_flight::{Flight, WriteInFlight};
use pc_locks::Locks;
use pc_proto::{Request, TxnMeta, Why};
use pc_reads::TxnReads;
use pc_staging::Staging;
use std::alloc::Global;

/// The open transaction, as its session knows it.
#[derive(Drop)]
pub struct OpenTxn {
    pub id: TxnId,
    pub priority: Priority,
    /// Its session's reading at its begin, in nanoseconds.
    pub born: u64,
    /// The reading at which it last showed that it is alive, in nanoseconds: that of its last heartbeat, else that of its begin.
    pub shown: u64,
    pub begin: Timestamp,
    /// How often it has restarted.
    pub epoch: u32,
    /// The number of its last write in this epoch.
    pub seq: u32,
    pub write_ts: Timestamp,
    /// The key of its first write.
    pub anchor: Option<Key>,
    /// Each key that it wrote in any epoch.
    pub locks: Locks,
    /// What it read in this epoch, and where it reads.
    pub reads: TxnReads,
    /// The writes of this epoch that were sent and are not proved.
    pub in_flight: Flight,
    /// What became of the stages and commits that it sent.
    pub staging: Staging,
    /// Why a rollback aborts it: for the write that made it restart, where that was its last answer.
    pub cause: Why,
}

impl OpenTxn {
    /// A transaction begins at this timestamp.
    pub fn new(alloc: Global, id: TxnId, priority: Priority, born: u64, ts: Timestamp) -> OpenTxn
        ensures { result ≡ just_begun (begun id priority born ts) }
    {
        OpenTxn {
            id,
            priority,
            born,
            shown: born,
            begin: ts,
            epoch: 0,
            seq: 0,
            write_ts: ts,
            anchor: None,
            locks: Locks::new(alloc),
            reads: TxnReads::new(alloc, ts),
            in_flight: Flight::new(alloc),
            staging: Staging::new(alloc),
            cause: Why::Client,
        }
    }

    pub(crate) fn meta(&self, anchor: Key) -> TxnMeta
        ensures { result ≡ meta_now self.now anchor }
    {
        TxnMeta {
            id: self.id,
            epoch: self.epoch,
            priority: self.priority,
            born: self.born,
            anchor,
        }
    }

    /// The message that reads a key, at the read timestamp.
    pub fn get(&self, key: &Key) -> Result<Request, NoMemory>
        ensures { IfOk result (λ made. made ≡ own_get self.now key.now) }
    {
        let ts = self.reads.ts();
        let key = key.copy()?;
        Ok(Request::Get {
            id: self.id,
            epoch: self.epoch,
            seq: self.seq,
            ts,
            key,
        })
    }

    /// The message that reads a span which lies in one range.
    pub fn scan(&self, span: Span) -> Request
        ensures { result ≡ own_scan self.now span }
    {
        Request::Scan {
            id: self.id,
            epoch: self.epoch,
            seq: self.seq,
            ts: self.reads.ts(),
            span,
        }
    }

    /// The message that lays its next write at the write timestamp; no value is a deletion. Refused too where the sequences are used up.
    pub fn next_put(&self, key: &Key, value: &Option<Value>) -> Result<Request, NoMemory>
        ensures { IfOk result (λ made. made ≡ next_put self.now key.now value.now) }
    {
        let seq = following(self.seq)?;
        let meta = self.meta(self.anchor_at(key)?);
        let key = key.copy()?;
        let value = value.copy()?;
        Ok(Request::Put {
            meta,
            seq,
            ts: self.write_ts,
            key,
            value,
        })
    }

    fn anchor_at(&self, key: &Key) -> Result<Key, NoMemory>
        ensures { IfOk result (λ made. made ≡ unwrap_or self.now.anchor key.now) }
    {
        match &self.anchor {
            Some(anchor) => anchor.copy(),
            None => key.copy(),
        }
    }

    /// Its next write was sent: it is in flight. Its stages are dead by then, and forgotten. Refused too where the sequences are used up, or as
    /// many writes are in flight as there may be.
    pub fn lay(&mut self, key: &Key, value: &Option<Value>) -> Result<(), NoMemory>
        ensures { OnOk result (self.new ≡ with_next_write key.now value.now self.old) }
    {
        let seq = following(self.seq)?;
        if !self.has_place_behind(seq) {
            return Err(NoMemory);
        }
        let anchor = self.anchor_at(key)?;
        self.locks.add(key)?;
        self.in_flight.add(key.copy()?, seq, value.copy()?)?;
        self.staging.forget();
        self.anchor = Some(anchor);
        self.seq = seq;
        Ok(())
    }

    /// Whether a write of this sequence may be in flight behind the others.
    fn has_place_behind(&self, seq: u32) -> bool
        ensures { result ≡ has_place_behind seq self.now.in_flight }
    {
        if self.in_flight.is_full() {
            return false;
        }
        self.is_later(seq)
    }

    /// Whether the sequence is later than that of each write in flight.
    fn is_later(&self, seq: u32) -> bool
        ensures { result ≡ list_all (λ w. nat_lt w.seq seq) self.now.in_flight }
    {
        self.in_flight.writes().iter().all(|write| write.seq < seq)
    }

    /// The message that sends a write in flight again, at the write timestamp.
    pub fn put_again(&self, anchor: &Key, write: &WriteInFlight) -> Result<Request, NoMemory>
        ensures { IfOk result (λ made. made ≡ own_put self.now anchor.now write.now) }
    {
        let meta = self.meta(anchor.copy()?);
        let key = write.key.copy()?;
        let value = write.value.copy()?;
        Ok(Request::Put {
            meta,
            seq: write.seq,
            ts: self.write_ts,
            key,
            value,
        })
    }

    /// Its write of this key and sequence was written at this timestamp, by a reply that was evaluated at this step.
    pub fn land(&mut self, key: &Key, seq: u32, ts: Timestamp, step: u64)
        ensures { self.new ≡ landed_at key.now seq ts step self.old }
    {
        self.write_ts = self.write_ts.max(ts);
        self.in_flight.proved(key, seq);
        self.staging.heard_written(ts, step);
    }

    /// A query found its write of this key and sequence, no later than the write timestamp.
    pub fn found(&mut self, key: &Key, seq: u32)
        ensures { self.new ≡ with_found key.now seq self.old }
    {
        self.in_flight.proved(key, seq);
    }

    /// A query missed a write of its at this timestamp, where a stage lists it, by a reply that was evaluated at this step: it writes above that.
    pub fn missed(&mut self, ts: Timestamp, step: u64)
        requires { ts < greatest }
        ensures { self.new ≡ missed_at ts step self.old }
    {
        self.write_ts = self.write_ts.max(ts.next());
        self.staging.heard_missing(ts, step);
    }

    /// Its commit was refused: its record is not final and stands at this timestamp, by a reply that was evaluated at this step.
    pub fn refused(&mut self, recorded: Timestamp, step: u64)
        ensures { self.new ≡ refused_at recorded step self.old }
    {
        self.write_ts = self.write_ts.max(recorded);
        self.staging.commit_refused(step);
    }

    /// The message that commits the record at the write timestamp.
    pub fn commit(&self, anchor: &Key) -> Result<Request, NoMemory>
        ensures { IfOk result (λ made. made ≡ own_commit self.now anchor.now) }
    {
        let meta = self.meta(anchor.copy()?);
        let locks = self.locks.list()?;
        Ok(Request::Commit {
            meta,
            ts: self.write_ts,
            locks,
        })
    }

    /// Its commit was sent: it reads at the write timestamp.
    pub fn committing(&mut self)
        ensures { self.new ≡ with_commit self.old }
    {
        self.reads.refreshed(self.write_ts);
        self.staging.sent_commit(self.write_ts);
    }

    /// The message that makes the record aborted.
    pub fn abort(&self, anchor: &Key, why: &Why) -> Result<Request, NoMemory>
        ensures { IfOk result (λ made. made ≡ own_abort self.now why.now anchor.now) }
    {
        let meta = self.meta(anchor.copy()?);
        let why = why.copy()?;
        let locks = self.locks.list()?;
        Ok(Request::Abort { meta, why, locks })
    }

    /// It is told to restart for this write. Refused where the epochs are used up.
    pub fn restart(&mut self, key: Key, ts: Timestamp) -> Result<(), NoMemory>
        ensures { OnOk result (self.new ≡ restarted_by key ts self.old) }
    {
        self.epoch = following(self.epoch)?;
        self.seq = 0;
        self.in_flight.clear();
        self.staging.forget();
        let ts_read = self.reads.ts().max(self.write_ts);
        self.reads.restart(ts_read);
        self.cause = Why::Refresh { key, ts };
        Ok(())
    }
}

/// The next number, unless the numbers are used up.
fn following(number: u32) -> Result<u32, NoMemory>
    ensures { IfOk result (λ next. next ≡ number + 1) }
{
    if number == u32::MAX {
        return Err(NoMemory);
    }
    Ok(number + 1)
}
