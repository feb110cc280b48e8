//! Query: asks whether a listed write stands. It closes the race with a write that is still under way: where the query finds
//! nothing, the read bound goes up to the staged timestamp under no owner, so that the write never lands at or below it.

ghost use Rattle.std.specs.Prelude.{◌≡◌};
ghost use Rattle.pc_world.specs.Evaluation.Query.{bound_after_query, query, write_stands};

use crate::state::RangeState;
use pc_base::{Key, Timestamp, TxnId};
use pc_proto::Reply;

impl RangeState {
    pub(crate) fn query(
        &mut self,
        id: TxnId,
        epoch: u32,
        seq: u32,
        ts: Timestamp,
        key: &Key,
    ) -> Reply
        ensures reply { result ≡ query id epoch seq ts key.now self.old }
        ensures after { self.new ≡ record self.old { bound = bound_after_query id epoch seq ts key.now self.old } }
    {
        if self.stands(id, epoch, seq, ts, key) {
            Reply::Found
        } else {
            self.bound.raise(ts, None);
            Reply::Missing
        }
    }

    /// Whether the listed write stands at its key.
    pub fn stands(&self, id: TxnId, epoch: u32, seq: u32, ts: Timestamp, key: &Key) -> bool
        ensures { result ≡ write_stands id epoch seq ts key.now self.now }
    {
        self.intents.stands(id, epoch, seq, ts, key)
    }
}
