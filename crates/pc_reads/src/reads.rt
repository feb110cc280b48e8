ghost use Rattle.std.specs.Prelude.{◌≡◌, ℕ, nat_lt, false, ◌≤◌, ◌&&◌, ◌++◌, not, [], ◌∷◌, List, All, map, length, ◌==◌, IfOk, OnOk, OnErr};
ghost use Rattle.std.specs.BTreeSet.{insert_key};
ghost use Rattle.pc_base.specs.declared.transaction.TxnId.{TxnId};
ghost use Rattle.pc_base.specs.SpanOrder.{span_cmp};
ghost use Rattle.pc_reads.specs.ReadsStanding.{IsCommitting, MayRefresh, TxnReadsStand, refresh_to};
ghost use Rattle.pc_world.specs.Known.{Known};
ghost use Rattle.pc_world.specs.Known.Reads.{IsGoodAt, Read, WasRefreshed};
ghost use Rattle.pc_world.specs.Known.Traffic.{Heard};
ghost use Rattle.pc_world.specs.Known.Transactions.{Txn};

use pc_base::{NoMemory, Span, Timestamp, TryCopy, TxnId};
use pc_proto::Request;
use pc_refresh::Reads;
use std::alloc::Global;

/// What a transaction has read in its present epoch, and the timestamp at which it reads.
#[derive(Drop)]
pub struct TxnReads {
    spans: Reads,
    ts: Timestamp,
}

impl TxnReads {
    /// A transaction begins, or begins anew after a restart, and reads at this timestamp.
    pub fn new(alloc: Global, ts: Timestamp) -> TxnReads
        ensures made { result ≡ record { spans = []; ts = ts } }
        ensures stands { (id : TxnId) (heard : List Heard) → TxnReadsStand id heard [] result }
    {
        TxnReads {
            spans: Reads::new(alloc),
            ts,
        }
    }

    /// The timestamp at which it reads.
    pub fn ts(&self) -> Timestamp
        ensures { result ≡ self.now.ts }
    {
        self.ts
    }

    /// It was told what a get or a piece of a scan found in this span.
    pub fn read(&mut self, span: Span) -> Result<(), NoMemory>
        ensures made { OnOk result (self.new ≡ record self.old { spans = insert_key span_cmp self.old.spans span }) }
        ensures kept { OnErr result (self.new ≡ self.old) }
        ensures stands { (id : TxnId) (heard : List Heard) (reads : List Read) → TxnReadsStand id heard reads self.old → OnOk result (TxnReadsStand id heard (reads ++ record { span = span; ts = self.old.ts } ∷ []) self.new) }
    {
        self.spans.add(span)
    }

    /// Whether a commit at this timestamp has to refresh what was read.
    pub fn is_to_refresh(&self, to: Timestamp) -> bool
        ensures made { result ≡ nat_lt self.now.ts to && not (length self.now.spans == 0) }
        ensures good { (id : TxnId) (heard : List Heard) (reads : List Read) → TxnReadsStand id heard reads self.now → self.now.ts ≤ to → result ≡ false → All (IsGoodAt id heard to) reads }
    {
        self.ts < to && !self.spans.is_empty()
    }

    /// The refreshes of a commit at this timestamp, of each span in order.
    pub fn refreshes(
        &self,
        alloc: Global,
        id: TxnId,
        to: Timestamp,
    ) -> Result<Vec<Request>, NoMemory>
        ensures made { IfOk result (λ requests. requests.items ≡ map (refresh_to id self.now.ts to) self.now.spans) }
        ensures may { (k : Known) (t : Txn) → TxnReadsStand t.id k.heard t.reads self.now → IsCommitting k t id self.now.ts to → IfOk result (λ requests. All (MayRefresh k) requests.items) }
    {
        let mut requests = Vec::new(alloc);
        for span in self.spans.iter() {
            requests.push(refresh_to(id, self.ts, to, span.span().copy()?))?;
        }
        Ok(requests)
    }

    /// Each of its spans was refreshed to this timestamp, where it reads from now on.
    pub fn refreshed(&mut self, to: Timestamp)
        ensures made { self.new ≡ record self.old { ts = to } }
        ensures stands { (id : TxnId) (heard : List Heard) (reads : List Read) → TxnReadsStand id heard reads self.old → self.old.ts ≤ to → All (λ span. WasRefreshed id heard span self.old.ts to) self.old.spans → TxnReadsStand id heard reads self.new }
    {
        self.ts = to;
    }

    /// It was told to restart: it reads anew, at this timestamp.
    pub fn restart(&mut self, ts: Timestamp)
        ensures made { self.new ≡ record { spans = []; ts = ts } }
        ensures stands { (id : TxnId) (heard : List Heard) → TxnReadsStand id heard [] self.new }
    {
        self.spans.clear();
        self.ts = ts;
    }
}

fn refresh_to(id: TxnId, from: Timestamp, to: Timestamp, span: Span) -> Request
    ensures { result ≡ refresh_to id from to span }
{
    Request::Refresh { id, from, to, span }
}
