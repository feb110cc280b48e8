ghost use Rattle.std.specs.Prelude.{◌≡◌, [], List, OnOk};
ghost use Rattle.std.specs.List.{list_any};
ghost use Rattle.std.specs.Option.{option_copied};
ghost use Rattle.pc_files.specs.SettledKeys.{AreSettledKeys, IsPlaceAdded, SettlesMore, settles_key};
ghost use Rattle.pc_world.specs.Known.Traffic.{Heard, heard_after};

use pc_base::{Key, NoMemory, TxnId};
use pc_known::Hearing;
use pc_own::Lock;
use pc_proto::{Reply, Request};
use std::alloc::Global;
use std::collections::BTreeSet;

/// The keys at which intents were settled, by transaction.
#[derive(Drop)]
pub(crate) struct SettledKeys<'a> {
    places: BTreeSet<(TxnId, Lock<'a>)>,
}

impl<'a> SettledKeys<'a> {
    /// None was settled.
    pub(crate) fn new(alloc: Global) -> SettledKeys<'a>
        ensures { AreSettledKeys [] result }
    {
        SettledKeys {
            places: BTreeSet::new(alloc),
        }
    }

    /// Whether the intent at the key was settled for the transaction.
    pub(crate) fn has(&self, id: TxnId, key: &'a Key) -> bool
        ensures { (heard : List Heard) → AreSettledKeys heard self.now → result ≡ list_any (settles_key id key.now) heard }
    {
        self.places.contains(&(id, Lock { key }))
    }

    /// Takes one more reply, if one was heard. After a refusal nothing is known.
    pub(crate) fn learn(&mut self, heard: Option<&Hearing<'a>>) -> Result<(), NoMemory>
        ensures { (all : List Heard) → AreSettledKeys all self.old → OnOk result (AreSettledKeys (heard_after (option_copied heard.entry) all) self.new) }
    {
        match heard {
            None => Ok(()),
            Some(hearing) => self.hear(hearing),
        }
    }

    fn hear(&mut self, hearing: &Hearing<'a>) -> Result<(), NoMemory>
        ensures { OnOk result (SettlesMore hearing.now self.old self.new) }
    {
        match (hearing.request, hearing.reply) {
            (Request::Resolve { id, key, .. }, Reply::Resolved) => self.add(*id, key),
            _ => Ok(()),
        }
    }

    fn add(&mut self, id: TxnId, key: &'a Key) -> Result<(), NoMemory>
        ensures { OnOk result (IsPlaceAdded id key.now self.old self.new) }
    {
        self.places.insert((id, Lock { key }))?;
        Ok(())
    }
}
