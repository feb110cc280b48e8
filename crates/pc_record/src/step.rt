//! One step of the records: the requests that speak of transaction records alone.

ghost use Rattle.std.specs.Prelude.{◌≡◌, IfOk, IsTrue, OnOk, OnErr};
ghost use Rattle.pc_proto.specs.RecordRows.{record_reply, table_after};
ghost use Rattle.pc_record.specs.RecordRequest.{is_record_request};

use crate::abort::abort;
use crate::beat::beat;
use crate::commit::commit;
use crate::push::push;
use crate::recover::recover;
use crate::remove::remove;
use crate::stage::stage;
use crate::table::RecordTable;
use pc_base::NoMemory;
use pc_proto::{Reply, Request};

impl RecordTable {
    /// Answers a request that speaks of records alone, and becomes what the request makes of them.
    pub fn step(&mut self, request: &Request) -> Result<Reply, NoMemory>
        requires { IsTrue (is_record_request request.now) }
        ensures reply { IfOk result (λ made. made ≡ record_reply request.now self.old) }
        ensures after { OnOk result (self.new ≡ table_after request.now self.old) }
        ensures err { OnErr result (self.new ≡ self.old) }
    {
        match request {
            Request::Beat { meta, ts, now } => beat(self, meta, *ts, *now),
            Request::Stage {
                meta,
                ts,
                now,
                writes,
                locks,
            } => stage(self, meta, *ts, *now, writes, locks),
            Request::Commit { meta, ts, locks } => commit(self, meta, *ts, locks),
            Request::Abort { meta, why, locks } => abort(self, meta, why, locks),
            Request::Push {
                holder,
                by,
                level,
                now,
                goal,
            } => push(self, holder, *by, *level, *now, *goal),
            Request::Recover {
                id,
                epoch,
                ts,
                anchor: _,
                finding,
            } => recover(self, *id, *epoch, *ts, finding),
            Request::Remove { id, anchor: _ } => remove(self, *id),
            Request::Records => Ok(Reply::Listed(self.list()?)),
            _ => unreachable!(),
        }
    }
}
