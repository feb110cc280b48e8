ghost use Rattle.std.specs.Prelude.{◌≡◌, [], OnOk, false};
ghost use Rattle.std.specs.BTreeMap.{get};
ghost use Rattle.std.specs.Option.{option_map_or};
ghost use Rattle.pc_base.specs.declared.transaction.TxnId.{TxnId as txn_id};
ghost use Rattle.pc_base.specs.Transaction.{same_txn, txn_cmp};
ghost use Rattle.pc_files.specs.Filing.{FilesNext, FilesOneMore, filed_under};

use pc_base::{NoMemory, TxnId};
use std::alloc::Global;
use std::collections::BTreeMap;

/// Elements of a list, in their order, by the transaction that each is filed under.
#[derive(Drop)]
pub struct Filed<T> {
    alloc: Global,
    lists: BTreeMap<TxnId, Vec<T>>,
}

impl<T: Drop> Filed<T> {
    /// Nothing is filed.
    pub fn new(alloc: Global) -> Filed<T>
        ensures { (id : txn_id) → filed_under id result ≡ [] }
    {
        Filed {
            alloc,
            lists: BTreeMap::new(alloc),
        }
    }

    /// What is filed under the transaction.
    pub fn of(&self, id: TxnId) -> &[T]
        ensures { result.now ≡ filed_under id self.now }
    {
        match self.lists.get(&id) {
            Some(list) => list.as_slice(),
            None => &[],
        }
    }

    /// Files one more under the transaction.
    pub fn add(&mut self, id: TxnId, item: T) -> Result<(), NoMemory>
        ensures { OnOk result (FilesOneMore id item self.old self.new) }
    {
        let mut list = taken_out(&mut self.lists, self.alloc, id);
        list.push(item)?;
        self.lists.insert(id, list)?;
        Ok(())
    }

    /// Files one more under the transaction of this name, if it has one.
    pub fn next(&mut self, name: Option<TxnId>, item: T) -> Result<(), NoMemory>
        ensures { OnOk result (FilesNext name item self.old self.new) }
    {
        match name {
            Some(id) => self.add(id, item),
            None => Ok(()),
        }
    }
}

/// Takes out what is filed under the transaction.
fn taken_out<T: Drop>(lists: &mut BTreeMap<TxnId, Vec<T>>, alloc: Global, id: TxnId) -> Vec<T>
    ensures list { result.items ≡ option_map_or (λ list. list.items) (get txn_cmp lists.old id) [] }
    ensures others { (other : txn_id) → same_txn id other ≡ false → get txn_cmp lists.new other ≡ get txn_cmp lists.old other }
{
    match lists.remove(&id) {
        Some(list) => list,
        None => Vec::new(alloc),
    }
}
