//! Resolve: settles an intent. It closes the race with the transaction's next epoch: only an intent of the committed epoch, at
//! or below the commit timestamp, becomes a version.

ghost use Rattle.std.specs.Prelude.{◌≡◌, IfOk, OnOk, OnErr};
ghost use Rattle.pc_world.specs.Evaluation.{reply, state_after};

use crate::state::RangeState;
use pc_base::{Key, NoMemory, TxnId};
use pc_proto::{Fate, Reply, Request};

impl RangeState {
    pub(crate) fn resolve(&mut self, id: TxnId, key: &Key, fate: Fate) -> Result<Reply, NoMemory>
        ensures reply { IfOk result (λ made. made ≡ reply (Request.Resolve id key.now fate) self.old) }
        ensures after { OnOk result (self.new ≡ state_after (Request.Resolve id key.now fate) self.old) }
        ensures err { OnErr result (self.new ≡ self.old) }
    {
        match fate {
            Fate::Committed { .. } | Fate::Aborted => {
                self.intents.settle(id, key, fate, &mut self.versions)?;
            }
            Fate::Pending { ts } => self.intents.move_up(key, id, ts),
        }
        Ok(Reply::Resolved)
    }
}
