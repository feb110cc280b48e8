//! Refresh: asks whether what was read at `from` is still so at `to`. It closes the race with whoever writes in between: where
//! it is still so, the read bound keeps them above `to`.

ghost use Rattle.std.specs.Prelude.{◌≡◌, IfOk, OnOk, OnErr};
ghost use Rattle.std.specs.Option.{option_copied, option_map};
ghost use Rattle.pc_world.specs.Evaluation.{reply, state_after};
ghost use Rattle.pc_world.specs.Evaluation.Refresh.{refuter};

use crate::state::RangeState;
use pc_base::{Key, NoMemory, Span, Timestamp, TryCopy, TxnId, Version};
use pc_intent::Intent;
use pc_proto::{Reply, Request};

impl RangeState {
    pub(crate) fn refresh(
        &mut self,
        id: TxnId,
        from: Timestamp,
        to: Timestamp,
        span: &Span,
    ) -> Result<Reply, NoMemory>
        ensures reply { IfOk result (λ made. made ≡ reply (Request.Refresh id from to span.now) self.old) }
        ensures after { OnOk result (self.new ≡ state_after (Request.Refresh id from to span.now) self.old) }
        ensures err { OnErr result (self.new ≡ self.old) }
    {
        let version = self.versions.any_in(span, from, to);
        let other = self.intents.first_other(span, to, id);
        if let Some((key, ts)) = refuter(version, other)? {
            return Ok(Reply::Unrefreshed { key, ts });
        }
        self.bound.raise(to, Some(id));
        Ok(Reply::Refreshed)
    }
}

/// The write that refutes a refresh, by key and timestamp: the one of the lesser key, the version where both have one key.
fn refuter(
    version: Option<&Version>,
    other: Option<(&Key, &Intent)>,
) -> Result<Option<(Key, Timestamp)>, NoMemory>
    ensures { IfOk result (λ found. found ≡ refuter (option_copied version.entry) (option_map (λ e. (e.0.now, e.1.now)) other.entry)) }
{
    match (version, other) {
        (Some(version), Some((key, other))) if *key < version.key => {
            Ok(Some((key.copy()?, other.ts)))
        }
        (Some(version), _) => Ok(Some((version.key.copy()?, version.ts))),
        (None, Some((key, other))) => Ok(Some((key.copy()?, other.ts))),
        (None, None) => Ok(None),
    }
}
