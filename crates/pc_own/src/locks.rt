ghost use Rattle.std.specs.Prelude.{◌≡◌, ◌∷◌, ◌↔◌, [], IsTrue, OnOk, Some};
ghost use Rattle.std.specs.Option.{option_copied};
ghost use Rattle.std.proofs.Common.{rules};
ghost use Rattle.std.specs.Cmp.{partial_order_from_own_ties};
ghost use Rattle.std.specs.Cmp.Rules.{comparing};
ghost use Rattle.std.specs.Ordering.{nat_cmp, as_partial_cmp};
ghost use Rattle.std.specs.Cmp.Lexicographic.{slice_cmp};
ghost use Rattle.pc_base.specs.Span.{same_key};
ghost use Rattle.pc_world.specs.Known.Transactions.{with_lock};

use pc_base::{Key, NoMemory};
use pc_proto::Keys;
use std::alloc::Global;
use std::cmp::Ordering;
use std::collections::BTreeSet;
use std::collections::btree_set::Iter;
use std::marker::Model;

/// A key that a transaction wrote, as an entry has it.
#[derive(Drop)]
pub struct Lock<'a> {
    pub key: &'a Key,
}

impl<'a> Model for Lock<'a> {
    ghost use Rattle.std.specs.Prelude.{ℕ, List};

    ghost Value = { List ℕ };

    ghost view = { λ lock. lock.key.now };
}

impl<'a> PartialEq for Lock<'a> {
    ghost eq = { same_key };

    ghost laws = { Prim.search (comparing, rules) };

    fn eq(&self, other: &Lock<'a>) -> bool {
        self.key == other.key
    }
}

impl<'a> Eq for Lock<'a> {
    ghost laws = { Prim.search (comparing, rules) };
}

impl<'a> PartialOrd for Lock<'a> {
    ghost partial_cmp = { as_partial_cmp (slice_cmp nat_cmp) };

    ghost laws = { partial_order_from_own_ties (Prim.search (comparing, rules)) (Prim.search (comparing, rules)) };

    fn partial_cmp(&self, other: &Lock<'a>) -> Option<Ordering> {
        Some(self.cmp(other))
    }
}

impl<'a> Ord for Lock<'a> {
    ghost cmp = { slice_cmp nat_cmp };

    ghost total = { Prim.search (comparing, rules) };

    ghost matches_partial_cmp = { Prim.search (comparing, rules) };

    ghost matches_eq = { Prim.search (comparing, rules) };

    fn cmp(&self, other: &Lock<'a>) -> Ordering {
        self.key.cmp(other.key)
    }
}

/// The keys that a transaction wrote, in order, each once.
#[derive(Drop)]
pub struct Locks<'a> {
    locks: BTreeSet<Lock<'a>>,
}

impl<'a> Model for Locks<'a> {
    ghost use Rattle.std.specs.Prelude.{ℕ, List};

    ghost Value = { List (List ℕ) };

    ghost view = { λ locks. locks.locks.keys };
}

impl<'a> Locks<'a> {
    /// No key was written.
    pub fn new(alloc: Global) -> Locks<'a>
        ensures { result ≡ [] }
    {
        Locks {
            locks: BTreeSet::new(alloc),
        }
    }

    /// This key was written. One that is there already is kept once.
    pub fn add(&mut self, key: &'a Key) -> Result<(), NoMemory>
        ensures { OnOk result (self.new ≡ with_lock key.now self.old) }
    {
        self.locks.insert(Lock { key })?;
        Ok(())
    }

    /// The keys, in order.
    pub fn iter(&self) -> Iter<'_, Lock<'a>>
        ensures { result ≡ self.now }
    {
        self.locks.iter()
    }

    /// Whether these keys are the ones that a message lists.
    pub fn are(&self, keys: &Keys) -> bool
        ensures { IsTrue result ↔ (keys.now ≡ self.now) }
    {
        are_same(keys.as_slice(), &self.locks)
    }
}

fn are_same(keys: &[Key], locks: &BTreeSet<Lock<'_>>) -> bool
    ensures { IsTrue result ↔ (keys.now ≡ locks.now.keys) }
{
    let mut rest = keys;
    for lock in locks {
        let Some(later) = after(rest, lock) else {
            return false;
        };
        rest = later;
    }
    rest.is_empty()
}

/// The keys after the first one, where that is the lock's.
fn after<'b>(keys: &'b [Key], lock: &Lock<'_>) -> Option<&'b [Key]>
    ensures some { (later : _) → option_copied result ≡ Some later → keys.now ≡ lock.now ∷ later }
    ensures none { (later : _) → keys.now ≡ lock.now ∷ later → option_copied result ≡ Some later }
{
    let (first, later) = keys.split_first()?;
    if first == lock.key { Some(later) } else { None }
}
