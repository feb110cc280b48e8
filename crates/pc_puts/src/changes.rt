ghost use Rattle.std.specs.Prelude.{◌≡◌, IfOk, OnOk, fold};
ghost use Rattle.pc_puts.specs.Changes.{last_puts, map_with_put};

use crate::puts::Put;
use pc_base::{Items, Key, NoMemory, TryCopy, Value};
use std::alloc::Global;
use std::collections::BTreeMap;

/// The last write of each key, in key order.
pub fn last_writes(alloc: Global, puts: &[Put]) -> Result<Items<(Key, Option<Value>)>, NoMemory>
    ensures { IfOk result (λ last. last ≡ last_puts puts.now) }
{
    let mut last = BTreeMap::new(alloc);
    for put in puts {
        last.insert(put.key.copy()?, put.value.copy()?)?;
    }
    Ok(Items::from_vec(last.into_iter().collect(alloc)?))
}

/// The map after these puts, one after another.
pub fn apply(map: &mut BTreeMap<Key, Value>, puts: &[Put]) -> Result<(), NoMemory>
    ensures { OnOk result (map.new.entries ≡ fold map_with_put map.old.entries puts.now) }
{
    for put in puts {
        write(map, put)?;
    }
    Ok(())
}

fn write(map: &mut BTreeMap<Key, Value>, put: &Put) -> Result<(), NoMemory>
    ensures { OnOk result (map.new.entries ≡ map_with_put map.old.entries put.now) }
{
    match &put.value {
        Some(value) => {
            map.insert(put.key.copy()?, value.copy()?)?;
        }
        None => {
            map.remove(&put.key);
        }
    }
    Ok(())
}
