ghost use Rattle.std.specs.Prelude.{◌≡◌, map};
ghost use Rattle.pc_base.specs.Versions.{above_newest};
ghost use Rattle.pc_world.specs.Stamps.{AllBelowGreatest};

use pc_base::{Key, Timestamp};
use pc_mvcc::Versions;

/// The least timestamp above the key's newest version.
pub(crate) fn above_newest(versions: &Versions, key: &Key) -> Timestamp
    requires { AllBelowGreatest (map (λ v. v.ts) versions.now) }
    ensures { result ≡ above_newest key.now versions.now }
{
    match versions.newest(key) {
        Some(version) => version.ts.next(),
        None => Timestamp::ZERO,
    }
}
