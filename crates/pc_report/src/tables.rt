ghost use Rattle.std.specs.Prelude.{◌≡◌, OnOk};
ghost use Rattle.pc_report.specs.Ordering.{with_entry_if};
ghost use Rattle.pc_report.specs.Replaying.{first_of, held, only_for};

use pc_base::{NoMemory, TryCopy, TxnId};
use std::collections::BTreeMap;

/// Keeps the value, unless the transaction has one already.
pub(crate) fn keep_first<V: Drop>(
    table: &mut BTreeMap<TxnId, V>,
    id: TxnId,
    value: V,
) -> Result<(), NoMemory>
    ensures { OnOk result ((other : TxnId) → held table.new other ≡ first_of (held table.old other) (only_for id value other)) }
{
    if !table.contains_key(&id) {
        table.insert(id, value)?;
    }
    Ok(())
}

/// Keeps a copy of the value, unless the transaction has one already.
pub(crate) fn keep_first_copy<V: Drop + TryCopy>(
    table: &mut BTreeMap<TxnId, V>,
    id: TxnId,
    value: &V,
) -> Result<(), NoMemory>
    ensures { OnOk result ((other : TxnId) → held table.new other ≡ first_of (held table.old other) (only_for id value.now other)) }
{
    if !table.contains_key(&id) {
        table.insert(id, value.copy()?)?;
    }
    Ok(())
}

/// Puts the entry into the map, if there is one.
pub(crate) fn insert<K: Ord + Drop, V: Drop>(
    map: &mut BTreeMap<K, V>,
    entry: Option<(K, V)>,
) -> Result<(), NoMemory>
    ensures { OnOk result (map.new.entries ≡ with_entry_if K.cmp entry map.old.entries) }
{
    if let Some((key, value)) = entry {
        map.insert(key, value)?;
    }
    Ok(())
}
