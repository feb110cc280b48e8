//! Put: lays an intent. It closes the races with whoever has read the key, or written it: the intent lands above the key's
//! newest version and above the range's read bound, unless the writer owns the bound; and another's intent is never touched.

ghost use Rattle.std.specs.Prelude.{◌≡◌, IfOk, OnOk, OnErr, max};
ghost use Rattle.pc_base.specs.Bound.{least_write};
ghost use Rattle.pc_base.specs.Versions.{above_newest};
ghost use Rattle.pc_world.specs.Stamps.{AllBelowGreatest, state_stamps};
ghost use Rattle.pc_world.specs.Evaluation.{reply, state_after};

use crate::state::RangeState;
use crate::versions::above_newest;
use pc_base::{Key, NoMemory, Timestamp, Value};
use pc_proto::{Reply, Request, TxnMeta};

impl RangeState {
    #[tactic(auto, using(crate::proofs::Coming::comes_as))]
    pub(crate) fn put(
        &mut self,
        meta: &TxnMeta,
        seq: u32,
        ts: Timestamp,
        key: &Key,
        value: &Option<Value>,
    ) -> Result<Reply, NoMemory>
        requires { AllBelowGreatest (state_stamps self.old) }
        ensures reply { IfOk result (λ made. made ≡ reply (Request.Put meta.now seq ts key.now value.now) self.old) }
        ensures after { OnOk result (self.new ≡ state_after (Request.Put meta.now seq ts key.now value.now) self.old) }
        ensures err { OnErr result (self.new ≡ self.old) }
    {
        let ts = self.free_ts(meta, ts, key);
        self.intents.put(meta, seq, ts, key, value)
    }

    /// The least timestamp, not below the one asked for, that the key's versions and the read bound leave to this write.
    fn free_ts(&self, meta: &TxnMeta, ts: Timestamp, key: &Key) -> Timestamp
        requires { AllBelowGreatest (state_stamps self.now) }
        ensures { result ≡ max (least_write self.now.bound ts meta.now.id) (above_newest key.now self.now.versions) }
    {
        let unread = self.bound.least_write(ts, meta.id);
        let unwritten = above_newest(&self.versions, key);
        unread.max(unwritten)
    }
}
