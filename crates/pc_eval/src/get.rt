//! Get: reads a key. It closes the race with whoever writes there later at or below the read's timestamp: the read bound keeps
//! them above it. Another's intent at or below the read's timestamp may commit there, and so stands in the way.

ghost use Rattle.std.specs.Prelude.{◌≡◌, IfOk, OnOk, OnErr};
ghost use Rattle.std.specs.Option.{option_copied};
ghost use Rattle.pc_world.specs.Evaluation.{reply, state_after};
ghost use Rattle.pc_world.specs.Evaluation.Get.{found_at, get_blocker, own_value, version_found};

use crate::state::RangeState;
use pc_base::{Key, NoMemory, Timestamp, TryCopy, TxnId, Value, Version};
use pc_intent::{Intent, conflict};
use pc_proto::{Origin, Reply, Request};

impl RangeState {
    pub(crate) fn get(
        &mut self,
        id: TxnId,
        epoch: u32,
        seq: u32,
        ts: Timestamp,
        key: &Key,
    ) -> Result<Reply, NoMemory>
        ensures reply { IfOk result (λ made. made ≡ reply (Request.Get id epoch seq ts key.now) self.old) }
        ensures after { OnOk result (self.new ≡ state_after (Request.Get id epoch seq ts key.now) self.old) }
        ensures err { OnErr result (self.new ≡ self.old) }
    {
        if let Some(other) = self.get_blocker(id, ts, key) {
            return conflict(other, key);
        }
        let (origin, value) = self.found_at(id, epoch, seq, ts, key)?;
        self.bound.raise(ts, Some(id));
        Ok(Reply::Value { origin, value })
    }

    /// Another transaction's intent that stands in a read's way.
    fn get_blocker(&self, id: TxnId, ts: Timestamp, key: &Key) -> Option<&Intent>
        ensures { option_copied result ≡ get_blocker id ts key.now self.now }
    {
        self.intents
            .other_at(id, key)
            .filter(|other| other.ts <= ts)
    }

    /// What a read finds at a key: the own write first, else the newest version at or below its timestamp.
    pub(crate) fn found_at(
        &self,
        id: TxnId,
        epoch: u32,
        seq: u32,
        ts: Timestamp,
        key: &Key,
    ) -> Result<(Origin, Option<Value>), NoMemory>
        ensures { IfOk result (λ found. found ≡ found_at id epoch seq ts key.now self.now) }
    {
        match self.own_value(id, epoch, seq, key) {
            Some(value) => Ok((Origin::Own, value.copy()?)),
            None => version_found(self.versions.visible(key, ts)),
        }
    }

    /// What the transaction's own intent of this epoch says, by its writes up to this sequence.
    fn own_value(&self, id: TxnId, epoch: u32, seq: u32, key: &Key) -> Option<&Option<Value>>
        ensures { option_copied result ≡ own_value id epoch seq key.now self.now }
    {
        self.intents.own_value(id, epoch, seq, key)
    }
}

fn version_found(version: Option<&Version>) -> Result<(Origin, Option<Value>), NoMemory>
    ensures { IfOk result (λ found. found ≡ version_found (option_copied version.entry)) }
{
    match version {
        Some(version) => Ok((Origin::At(version.ts), version.value.copy()?)),
        None => Ok((Origin::Nothing, None)),
    }
}
