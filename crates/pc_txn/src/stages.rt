ghost use Rattle.std.specs.Prelude.{◌≡◌, IfOk, OnOk};
ghost use Rattle.pc_txn.specs.Staged.{stage_now, stage_told_at, with_stage};

use crate::txn::OpenTxn;
use pc_base::{Key, NoMemory, Timestamp, TryCopy};
use pc_proto::{Request, View};
use std::alloc::Global;

impl OpenTxn {
    /// The message that stages its writes in flight, at the write timestamp and at this reading.
    pub fn stage(&self, alloc: Global, anchor: &Key, reading: u64) -> Result<Request, NoMemory>
        ensures { IfOk result (λ made. made ≡ stage_now self.now anchor.now reading) }
    {
        let meta = self.meta(anchor.copy()?);
        let writes = self.in_flight.list(alloc)?;
        let locks = self.locks.list()?;
        Ok(Request::Stage {
            meta,
            ts: self.write_ts,
            now: reading,
            writes,
            locks,
        })
    }

    /// Its stage was sent: it reads at the write timestamp.
    pub fn staging(&mut self) -> Result<(), NoMemory>
        ensures { OnOk result (self.new ≡ with_stage self.old) }
    {
        self.staging.sent_stage(self.write_ts)?;
        self.reads.refreshed(self.write_ts);
        Ok(())
    }

    /// Its stage at this timestamp was told this view, of a record that is not final and stands at the second timestamp, by a reply that was
    /// evaluated at this step.
    pub fn stage_told(&mut self, ts: Timestamp, view: &View, recorded: Timestamp, step: u64)
        ensures { self.new ≡ stage_told_at ts view.now recorded step self.old }
    {
        self.write_ts = self.write_ts.max(recorded);
        self.staging.heard_stage(self.epoch, ts, step, view);
    }
}
