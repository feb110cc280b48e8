//! Settling: what an intent becomes. Of a committed transaction only an intent of the committed epoch, at or below the commit
//! timestamp, becomes a version.

ghost use Rattle.std.specs.Prelude.{◌≡◌, IfOk, OnOk, OnErr, fold};
ghost use Rattle.std.specs.Option.{option_to_list};
ghost use Rattle.pc_base.specs.Versions.{with_version};
ghost use Rattle.pc_intent.specs.Rising.{WritesRise};
ghost use Rattle.pc_world.specs.Evaluation.Resolve.{is_committed_by, versions_of};

use crate::intent::last_value;
use pc_base::{Key, NoMemory, Timestamp, TryCopy, TxnId, Version};
use pc_mvcc::Versions;
use pc_proto::{Fate, Intent};

/// Adds what the intent becomes to the versions, if it becomes one.
pub(crate) fn keep(
    own: &Intent,
    id: TxnId,
    key: &Key,
    fate: Fate,
    versions: &mut Versions,
) -> Result<(), NoMemory>
    requires { WritesRise own.now }
    ensures ok { OnOk result (versions.new ≡ fold with_version versions.old (versions_of id key.now fate own.now)) }
    ensures err { OnErr result (versions.new ≡ versions.old) }
{
    if let Some(version) = version_of(own, id, key, fate)? {
        versions.add(version)?;
    }
    Ok(())
}

/// The version that the intent becomes, if it becomes one.
fn version_of(own: &Intent, id: TxnId, key: &Key, fate: Fate) -> Result<Option<Version>, NoMemory>
    requires { WritesRise own.now }
    ensures { IfOk result (λ made. option_to_list made ≡ versions_of id key.now fate own.now) }
{
    let Fate::Committed { epoch, ts } = fate else {
        return Ok(None);
    };
    match last_value(own) {
        Some(value) if is_committed_by(own, epoch, ts) => {
            let key = key.copy()?;
            let value = value.copy()?;
            Ok(Some(Version { key, ts, id, value }))
        }
        _ => Ok(None),
    }
}

/// Whether the intent is of the committed epoch, and lies at or below the commit timestamp.
fn is_committed_by(own: &Intent, epoch: u32, ts: Timestamp) -> bool
    ensures { result ≡ is_committed_by epoch ts own.now }
{
    own.meta.epoch == epoch && own.ts <= ts
}
