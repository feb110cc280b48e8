ghost use Rattle.std.specs.Prelude.{◌≡◌, [], IfOk, OnErr, OnOk};
ghost use Rattle.pc_world.specs.Known.Transactions.{with_lock};

use pc_base::{Items, Key, NoMemory, TryCopy};
use pc_proto::Keys;
use std::alloc::Global;
use std::collections::BTreeSet;
use std::marker::Model;

/// The keys that a transaction wrote, in order, each once.
#[derive(Drop)]
pub struct Locks {
    alloc: Global,
    keys: BTreeSet<Key>,
}

impl Model for Locks {
    ghost use Rattle.std.specs.Prelude.{ℕ, List};

    ghost Value = { List (List ℕ) };

    ghost view = { λ locks. locks.keys.keys };
}

impl Locks {
    /// No key was written.
    pub fn new(alloc: Global) -> Locks
        ensures { result ≡ [] }
    {
        Locks {
            alloc,
            keys: BTreeSet::new(alloc),
        }
    }

    /// This key was written. One that is there already is kept once.
    pub fn add(&mut self, key: &Key) -> Result<(), NoMemory>
        ensures ok { OnOk result (self.new ≡ with_lock key.now self.old) }
        ensures err { OnErr result (self.new ≡ self.old) }
    {
        self.keys.insert(key.copy()?)?;
        Ok(())
    }

    /// The keys, as a message lists them.
    pub fn list(&self) -> Result<Keys, NoMemory>
        ensures { IfOk result (λ list. list ≡ self.now) }
    {
        let mut list = Items::new(self.alloc);
        for key in &self.keys {
            list.add(key.copy()?)?;
        }
        Ok(list)
    }

    /// The keys, given away as a list.
    pub fn into_list(self) -> Result<Keys, NoMemory>
        ensures { IfOk result (λ list. list ≡ self) }
    {
        let Locks { alloc, keys } = self;
        Ok(Items::from_vec(keys.into_iter().collect(alloc)?))
    }
}
