ghost use Rattle.std.specs.Prelude.{◌≡◌, IfOk, OnOk, OnErr};
ghost use Rattle.std.specs.Option.{option_copied};
ghost use Rattle.pc_base.specs.Keyed.{at};
ghost use Rattle.pc_base.specs.Transaction.{same_txn};
ghost use Rattle.pc_world.specs.RangeState.{no_state};
ghost use Rattle.pc_world.specs.Stamps.{HasRoom};
ghost use Rattle.pc_world.specs.Evaluation.{reply, state_after};

use pc_base::{NoMemory, TxnId};
use pc_bound::Bound;
use pc_intent::Intents;
use pc_mvcc::Versions;
use pc_proto::{Record, Reply, Request, Status};
use pc_record::RecordTable;
use std::alloc::Global;
use std::marker::Model;

/// What a range is: the committed versions of its keys, its intents, what has been read of it, and the records and marks of
/// the transactions whose anchor it holds.
#[derive(Debug, Drop)]
pub struct RangeState {
    pub(crate) alloc: Global,
    pub(crate) versions: Versions,
    pub(crate) intents: Intents,
    pub(crate) bound: Bound,
    pub(crate) table: RecordTable,
}

impl Model for RangeState {
    ghost use Rattle.pc_world.specs.RangeState.{RangeState as range_state};

    ghost Value = { range_state };

    ghost view = { λ s. record { versions = s.versions; intents = s.intents; bound = s.bound; table = s.table } };
}

impl RangeState {
    /// A range on which nothing has happened.
    pub fn new(alloc: Global) -> RangeState
        ensures { result ≡ no_state }
    {
        RangeState {
            alloc,
            versions: Versions::new(alloc),
            intents: Intents::new(alloc),
            bound: Bound::new(),
            table: RecordTable::new(alloc),
        }
    }

    /// The transaction's record, if the range keeps it.
    pub fn record(&self, id: TxnId) -> Option<&Record>
        ensures { option_copied result ≡ at same_txn id self.now.table.records }
    {
        self.table.record(id)
    }

    /// What the transaction's record said when it was removed.
    pub fn mark(&self, id: TxnId) -> Option<&Status>
        ensures { option_copied result ≡ at same_txn id self.now.table.marks }
    {
        self.table.mark(id)
    }

    /// Answers a request, and becomes what the request makes of the range.
    pub fn eval(&mut self, request: &Request) -> Result<Reply, NoMemory>
        requires { HasRoom request.now self.old }
        ensures reply { IfOk result (λ made. made ≡ reply request.now self.old) }
        ensures after { OnOk result (self.new ≡ state_after request.now self.old) }
        ensures err { OnErr result (self.new ≡ self.old) }
    {
        match request {
            Request::Get {
                id,
                epoch,
                seq,
                ts,
                key,
            } => self.get(*id, *epoch, *seq, *ts, key),
            Request::Scan {
                id,
                epoch,
                seq,
                ts,
                span,
            } => self.scan(*id, *epoch, *seq, *ts, span),
            Request::Put {
                meta,
                seq,
                ts,
                key,
                value,
            } => self.put(meta, *seq, *ts, key, value),
            Request::Refresh { id, from, to, span } => self.refresh(*id, *from, *to, span),
            Request::Query {
                id,
                epoch,
                seq,
                ts,
                key,
                by: _,
            } => Ok(self.query(*id, *epoch, *seq, *ts, key)),
            Request::Resolve { id, key, fate } => self.resolve(*id, key, *fate),
            _ => self.table.step(request),
        }
    }
}
