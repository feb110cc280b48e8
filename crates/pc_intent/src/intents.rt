ghost use Rattle.std.specs.Prelude.{◌≡◌, ◌==◌, [], IfOk, IfSome, MatchOption, OnErr, OnOk, filter, fold, map, max};
ghost use Rattle.std.specs.BTreeMap.{insert_entry};
ghost use Rattle.std.specs.BTreeSet.{insert_key};
ghost use Rattle.std.specs.Cmp.Lexicographic.{slice_cmp};
ghost use Rattle.std.specs.List.{list_any};
ghost use Rattle.std.specs.Option.{option_and_then, option_copied, option_map};
ghost use Rattle.std.specs.Ordering.{nat_cmp};
ghost use Rattle.pc_base.specs.Keyed.{without};
ghost use Rattle.pc_base.specs.Span.{contains, same_key};
ghost use Rattle.pc_base.specs.Versions.{with_version};
ghost use Rattle.pc_intent.specs.Coming.{comes_to};
ghost use Rattle.pc_intent.specs.Rising.{WritesRise};
ghost use Rattle.pc_proto.specs.Intents.{first_other, intent_at, kept_if, other_at, own_at, value_by};
ghost use Rattle.pc_world.specs.Evaluation.IntentChange.{intents_with};
ghost use Rattle.pc_world.specs.Evaluation.Put.{put_change, put_reply};
ghost use Rattle.pc_world.specs.Evaluation.Query.{is_found};
ghost use Rattle.pc_world.specs.Evaluation.Resolve.{versions_of};

use crate::intent::{first, is_it, put_there, value_by};
use crate::settle::keep;
use pc_base::{Key, NoMemory, Span, Timestamp, TryCopy, TxnId, Value};
use pc_mvcc::Versions;
use pc_proto::{Fate, Intent, Reply, TxnMeta};
use std::alloc::Global;
use std::collections::btree_map::Entry;
use std::collections::{BTreeMap, BTreeSet};
use std::marker::Model;

/// The intents of a range, at most one under each key. Contracts see them as the list of the keys with their intents, in the
/// order of the keys.
#[derive(Debug, Drop)]
pub struct Intents {
    alloc: Global,
    entries: BTreeMap<Key, Intent>,
}

impl Model for Intents {
    ghost use Rattle.std.specs.Prelude.{ℕ, List};
    ghost use Rattle.pc_intent.specs.Rising.{IsIntentTable};
    ghost use Rattle.pc_proto.specs.declared.record.Intent.{Intent as intent};

    ghost Value = { List (List ℕ × intent) };

    ghost view = { λ s. s.entries.entries };

    ghost invariant = { λ s. IsIntentTable s.entries.entries };
}

impl Intents {
    /// A range without intents.
    pub fn new(alloc: Global) -> Intents
        ensures { result ≡ [] }
    {
        Intents {
            alloc,
            entries: BTreeMap::new(alloc),
        }
    }

    /// The intent at a key.
    pub fn at(&self, key: &Key) -> Option<&Intent>
        ensures found { option_copied result ≡ intent_at key.now self.now }
        ensures rises { IfSome result (λ intent. WritesRise intent.now) }
    {
        self.entries.get(key)
    }

    /// The transaction's own intent at a key.
    pub fn own_at(&self, id: TxnId, key: &Key) -> Option<&Intent>
        ensures found { option_copied result ≡ own_at id key.now self.now }
        ensures rises { IfSome result (λ intent. WritesRise intent.now) }
    {
        self.at(key).filter(|intent| intent.meta.id == id)
    }

    /// What the transaction's own intent of this epoch says at a key, by its writes up to this sequence.
    pub fn own_value(&self, id: TxnId, epoch: u32, seq: u32, key: &Key) -> Option<&Option<Value>>
        ensures { option_copied result ≡ option_and_then (value_by seq) (kept_if (λ i. i.meta.epoch == epoch) (own_at id key.now self.now)) }
    {
        match self.own_at(id, key) {
            Some(own) if own.meta.epoch == epoch => value_by(own, seq),
            _ => None,
        }
    }

    /// Whether the transaction's own intent at a key is of this epoch, has this sequence or a later one, and lies at or below
    /// this timestamp.
    pub fn stands(&self, id: TxnId, epoch: u32, seq: u32, ts: Timestamp, key: &Key) -> bool
        ensures { result ≡ is_found epoch seq ts (own_at id key.now self.now) }
    {
        match self.own_at(id, key) {
            Some(own) => is_it(own, epoch, seq, ts),
            None => false,
        }
    }

    /// Another transaction's intent at a key.
    pub fn other_at(&self, id: TxnId, key: &Key) -> Option<&Intent>
        ensures { option_copied result ≡ other_at id key.now self.now }
    {
        self.at(key).filter(|intent| intent.meta.id != id)
    }

    /// Another transaction's intent in a span, at or below a timestamp, of least key, with that key.
    pub fn first_other(&self, span: &Span, ts: Timestamp, id: TxnId) -> Option<(&Key, &Intent)>
        ensures { option_map (λ e. (e.0.now, e.1.now)) result ≡ first_other span.now ts id self.now }
    {
        self.entries
            .range(span.bounds())
            .find(|entry| entry.1.ts <= ts && entry.1.meta.id != id)
    }

    /// Whether an intent stands at a key of the span.
    pub fn any_in(&self, span: &Span) -> bool
        ensures { result ≡ list_any (λ e. contains span.now e.0) self.now }
    {
        self.entries.range(span.bounds()).next().is_some()
    }

    /// Adds the keys of the span at which an intent stands to the others; where memory runs out, some of them.
    pub fn add_keys(&self, span: &Span, keys: &mut BTreeSet<Key>) -> Result<(), NoMemory>
        ensures { OnOk result (keys.new.keys ≡ fold (insert_key (slice_cmp nat_cmp)) keys.old.keys (filter (contains span.now) (map (λ e. e.0) self.now))) }
    {
        for (key, _) in self.entries.range(span.bounds()) {
            keys.insert(key.copy()?)?;
        }
        Ok(())
    }

    /// Lays a copy of a write where no other transaction's intent stands and no later write of the transaction has overtaken it,
    /// not below this timestamp nor the own intent's, and answers as a range does.
    pub fn put(
        &mut self,
        meta: &TxnMeta,
        seq: u32,
        ts: Timestamp,
        key: &Key,
        value: &Option<Value>,
    ) -> Result<Reply, NoMemory>
        ensures reply { IfOk result (λ made. made ≡ put_reply key.now (comes_to meta.now seq ts value.now (intent_at key.now self.old))) }
        ensures after { OnOk result (self.new ≡ intents_with key.now (put_change (comes_to meta.now seq ts value.now (intent_at key.now self.old))) self.old) }
        ensures err { OnErr result (self.new ≡ self.old) }
    {
        let alloc = self.alloc;
        let place = self.entries.entry(key.copy()?)?;
        let intent = place.or_try_insert_with(|| first(alloc, meta, seq, ts, value))?;
        put_there(alloc, intent, meta, seq, ts, key, value)
    }

    /// Moves the transaction's own intent at a key up to this timestamp, where it lies below.
    pub fn move_up(&mut self, key: &Key, id: TxnId, ts: Timestamp)
        ensures { MatchOption (own_at id key.now self.old) (self.new ≡ self.old) (λ own. self.new ≡ insert_entry (slice_cmp nat_cmp) self.old key.now (record own { ts = max own.ts ts })) }
    {
        let Some(intent) = self.entries.get_mut(key) else {
            return;
        };
        if intent.meta.id != id {
            return;
        }
        intent.ts = intent.ts.max(ts);
    }

    /// Takes the transaction's own intent at a key away, once what a fate makes of it stands among the versions.
    pub fn settle(
        &mut self,
        id: TxnId,
        key: &Key,
        fate: Fate,
        versions: &mut Versions,
    ) -> Result<(), NoMemory>
        ensures taken { OnOk result (MatchOption (own_at id key.now self.old) (self.new ≡ self.old) (λ own. self.new ≡ without same_key key.now self.old)) }
        ensures kept { OnOk result (MatchOption (own_at id key.now self.old) (versions.new ≡ versions.old) (λ own. versions.new ≡ fold with_version versions.old (versions_of id key.now fate own))) }
        ensures err { OnErr result (self.new ≡ self.old) }
        ensures left { OnErr result (versions.new ≡ versions.old) }
    {
        let own = match self.entries.entry(key.copy()?)? {
            Entry::Occupied(own) => own,
            Entry::Vacant(place) => {
                // Of the calls that end a vacant place, this one alone says that the map stays.
                let ended = Entry::Vacant(place).or_try_insert_with(|| Err(NoMemory));
                return match ended {
                    Ok(_) => unreachable!(),
                    Err(_) => Ok(()),
                };
            }
        };
        if own.get().meta.id != id {
            return Ok(());
        }
        keep(own.get(), id, key, fate, versions)?;
        own.remove();
        Ok(())
    }
}
