//! One key's versions, by timestamp.

ghost use Rattle.std.specs.Prelude.{◌≡◌, ◌&&◌, OnErr, OnOk, filter, find, fold, None, nat_le, nat_lt, slice_get};
ghost use Rattle.std.specs.Option.{option_copied};
ghost use Rattle.std.specs.List.Sorted.{IsNonDecreasingBy};
ghost use Rattle.pc_base.specs.Versions.{later, with_version};
ghost use Rattle.pc_mvcc.specs.Chains.{IsChain};

use pc_base::{NoMemory, Timestamp, Version};

/// The version of the greatest timestamp.
pub(crate) fn latest(chain: &[Version]) -> Option<&Version>
    requires { IsNonDecreasingBy (λ v. v.ts) chain.now }
    ensures { option_copied result ≡ fold later None chain.now }
{
    let last = chain.last()?;
    let place = chain.partition_point(|version| version.ts < last.ts);
    version_at(chain, place)
}

/// The version of the greatest timestamp that is not above this one.
pub(crate) fn latest_by(chain: &[Version], ts: Timestamp) -> Option<&Version>
    requires { IsNonDecreasingBy (λ v. v.ts) chain.now }
    ensures { option_copied result ≡ fold later None (filter (λ v. nat_le v.ts ts) chain.now) }
{
    let count = chain.partition_point(|version| version.ts <= ts);
    latest(&chain[..count])
}

/// The version of the least timestamp above `from` and not above `to`.
pub(crate) fn between(chain: &[Version], from: Timestamp, to: Timestamp) -> Option<&Version>
    requires { IsNonDecreasingBy (λ v. v.ts) chain.now }
    ensures { option_copied result ≡ find (λ v. nat_lt from v.ts && nat_le v.ts to) chain.now }
{
    let place = chain.partition_point(|version| version.ts <= from);
    version_at(chain, place).filter(|version| version.ts <= to)
}

/// The version at a place.
fn version_at(chain: &[Version], place: usize) -> Option<&Version>
    ensures { option_copied result ≡ slice_get chain.now place }
{
    chain.get(place)
}

/// Puts a version of the chain's key in its place.
pub(crate) fn put(chain: &mut Vec<Version>, version: Version) -> Result<(), NoMemory>
    requires { IsChain version.key chain.old.items }
    ensures ok { OnOk result (chain.new.items ≡ with_version chain.old.items version) }
    ensures chain { IsChain version.key chain.new.items }
    ensures err { OnErr result (chain.new.items ≡ chain.old.items) }
{
    let place = chain.partition_point(|kept| kept.ts <= version.ts);
    chain.insert(place, version)?;
    Ok(())
}
