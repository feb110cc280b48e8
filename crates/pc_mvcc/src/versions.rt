ghost use Rattle.std.specs.Prelude.{◌≡◌, [], IfOk, OnErr, OnOk, filter, fold, map};
ghost use Rattle.std.specs.BTreeSet.{insert_key};
ghost use Rattle.std.specs.Cmp.Lexicographic.{slice_cmp};
ghost use Rattle.std.specs.Option.{option_copied};
ghost use Rattle.std.specs.Ordering.{nat_cmp};
ghost use Rattle.pc_base.specs.Span.{contains, same_key};
ghost use Rattle.pc_base.specs.Versions.{first_between, newest, visible, with_version};
ghost use Rattle.pc_mvcc.specs.Chains.{IsChain, with_key_of};
ghost use Rattle.pc_mvcc.specs.VisibleIn.{visible_in};

use crate::chain::{between, latest, latest_by, put};
use pc_base::{Key, NoMemory, Span, Timestamp, TryCopy, Version};
use std::alloc::Global;
use std::collections::{BTreeMap, BTreeSet};
use std::marker::Model;

/// The committed versions of a range's keys. Contracts see them as one list, by key, then by timestamp.
#[derive(Debug, Drop)]
pub struct Versions {
    alloc: Global,
    chains: BTreeMap<Key, Vec<Version>>,
}

impl Model for Versions {
    ghost use Rattle.std.specs.Prelude.{List};
    ghost use Rattle.pc_base.specs.declared.version.Version.{Version};
    ghost use Rattle.pc_mvcc.specs.Chains.{AreChains, joined};

    ghost Value = { List Version };

    ghost view = { λ s. joined s.chains.entries };

    ghost invariant = { λ s. AreChains s.chains.entries };
}

impl Versions {
    /// A range in which nothing is committed.
    pub fn new(alloc: Global) -> Versions
        ensures { result ≡ [] }
    {
        Versions {
            alloc,
            chains: BTreeMap::new(alloc),
        }
    }

    /// Puts a version in its place by key and timestamp.
    pub fn add(&mut self, version: Version) -> Result<(), NoMemory>
        ensures ok { OnOk result (self.new ≡ with_version self.old version) }
        ensures err { OnErr result (self.new ≡ self.old) }
    {
        let alloc = self.alloc;
        let place = self.chains.entry(version.key.copy()?)?;
        let chain = place.or_insert(Vec::new(alloc));
        put(chain, version)
    }

    /// The key's version of the greatest timestamp.
    pub fn newest(&self, key: &Key) -> Option<&Version>
        ensures { option_copied result ≡ newest key.now self.now }
    {
        latest(self.chain(key))
    }

    /// The key's version of the greatest timestamp that is not above this one.
    pub fn visible(&self, key: &Key, ts: Timestamp) -> Option<&Version>
        ensures { option_copied result ≡ visible key.now ts self.now }
    {
        latest_by(self.chain(key), ts)
    }

    /// The version in the span, above `from` and not above `to`, of least key, then of least timestamp.
    pub fn any_in(&self, span: &Span, from: Timestamp, to: Timestamp) -> Option<&Version>
        ensures { option_copied result ≡ first_between span.now from to self.now }
    {
        for (_, chain) in self.chains.range(span.bounds()) {
            if let Some(version) = between(chain, from, to) {
                return Some(version);
            }
        }
        None
    }

    /// Of each key in the span the version that a read at this timestamp sees, in the order of the keys.
    pub fn visible_in(&self, span: &Span, ts: Timestamp) -> Result<Vec<&Version>, NoMemory>
        ensures { IfOk result (λ seen. map (λ v. v.now) seen.items ≡ visible_in span.now ts self.now) }
    {
        let mut seen = Vec::new(self.alloc);
        for (_, chain) in self.chains.range(span.bounds()) {
            if let Some(version) = latest_by(chain, ts) {
                seen.push(version)?;
            }
        }
        Ok(seen)
    }

    /// Adds the keys of the span that have a version to the others; where memory runs out, some of them.
    pub fn add_keys(&self, span: &Span, keys: &mut BTreeSet<Key>) -> Result<(), NoMemory>
        ensures { OnOk result (keys.new.keys ≡ fold (insert_key (slice_cmp nat_cmp)) keys.old.keys (filter (contains span.now) (map (λ v. v.key) self.now))) }
    {
        for (key, chain) in self.chains.range(span.bounds()) {
            add_key(keys, key, chain)?;
        }
        Ok(())
    }

    /// The key's versions.
    fn chain(&self, key: &Key) -> &[Version]
        ensures own { IsChain key.now result.now }
        ensures all { result.now ≡ filter (λ v. same_key v.key key.now) self.now }
    {
        match self.chains.get(key) {
            Some(chain) => chain.as_slice(),
            None => &[],
        }
    }
}

/// Adds the chain's key, if the chain has a version.
fn add_key(keys: &mut BTreeSet<Key>, key: &Key, chain: &Vec<Version>) -> Result<(), NoMemory>
    ensures { OnOk result (keys.new.keys ≡ with_key_of key.now chain.now.items keys.old.keys) }
{
    if !chain.is_empty() {
        keys.insert(key.copy()?)?;
    }
    Ok(())
}
