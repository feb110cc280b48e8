ghost use Rattle.std.specs.Prelude.{◌≡◌, ◌==◌, ◌<◌, ◌≤◌, All, ◌++◌, ◌∷◌, [], ℕ, List, OnErr, OnOk, IfOk, Some, filter, length, map, nat_le};
ghost use Rattle.std.specs.List.{list_any};
ghost use Rattle.pc_base.specs.declared.limits.TheConstants.{MOST_IN_FLIGHT};
ghost use Rattle.pc_base.specs.Span.{contains, same_key};
ghost use Rattle.pc_flight.specs.InFlight.{AreBySequence, AreInFlight, FlightStands, HasNoSeq, ShowsStanding, is_another, listed_in_flight, listed_one};
ghost use Rattle.pc_proto.specs.declared.meta.TxnMeta.{TxnMeta};
ghost use Rattle.pc_proto.specs.declared.request.Request.TheVariants as requests;
ghost use Rattle.pc_world.specs.Known.Traffic.{Heard, Sent};
ghost use Rattle.pc_world.specs.Known.Transactions.{Txn, txn_heard, txn_sent};
ghost use Rattle.pc_world.specs.Known.Writes.{Write, listed_as, proved_at, unproved, with_put};

use crate::write::WriteInFlight;
use pc_base::limits::MOST_IN_FLIGHT;
use pc_base::{Items, Key, NoMemory, Span, TryCopy, Value};
use pc_proto::Writes;
use std::alloc::Global;
use std::marker::Model;

/// The writes in flight of a transaction's present epoch, by sequence.
#[derive(Debug, Drop)]
pub struct Flight {
    writes: Vec<WriteInFlight>,
}

impl Model for Flight {
    ghost use Rattle.std.specs.Prelude.{List};
    ghost use Rattle.pc_flight.specs.declared.write.WriteInFlight.{WriteInFlight};
    ghost use Rattle.pc_flight.specs.InFlight.{IsFlight};

    ghost Value = { List WriteInFlight };

    ghost view = { λ f. f.writes.items };

    ghost invariant = { λ f. IsFlight f.writes.items };
}

impl Flight {
    /// No write is in flight.
    pub fn new(alloc: Global) -> Flight
        ensures made { result ≡ [] }
        ensures stands { (t : Txn) → t.writes ≡ [] → FlightStands result t }
    {
        Flight {
            writes: Vec::new(alloc),
        }
    }

    /// This write, whose sequence is above all earlier ones, was sent.
    pub fn add(&mut self, key: Key, seq: u32, value: Option<Value>) -> Result<(), NoMemory>
        requires room { length self.old < MOST_IN_FLIGHT }
        requires above { All (λ w. w.seq < seq) self.old }
        ensures ok { OnOk result (self.new ≡ self.old ++ record { key = key; seq = seq; value = value } ∷ []) }
        ensures err { OnErr result (self.new ≡ self.old) }
        ensures holds { (writes : List Write) (ts : ℕ) → AreInFlight self.old writes → HasNoSeq seq writes → OnOk result (AreInFlight self.new (with_put seq ts key value writes)) }
        ensures stands { (t : Txn) (meta : TxnMeta) (ts : ℕ) → FlightStands self.old t → HasNoSeq seq t.writes → meta.id ≡ t.id → meta.epoch ≡ t.epoch → OnOk result (FlightStands self.new (txn_sent (requests.Put meta seq ts key value) t)) }
    {
        self.writes.push(WriteInFlight { key, seq, value })?;
        Ok(())
    }

    /// The write of this key and sequence is proved.
    pub fn proved(&mut self, key: &Key, seq: u32)
        ensures made { self.new ≡ filter (is_another key.now seq) self.old }
        ensures holds { (writes : List Write) (ts : ℕ) → AreInFlight self.old writes → AreInFlight self.new (map (proved_at key.now seq ts) writes) }
        ensures stands { (t : Txn) (sent : List Sent) (h : Heard) → FlightStands self.old t → ShowsStanding t key.now seq h → FlightStands self.new (txn_heard sent (Some h) t) }
    {
        self.take_out(key, seq);
    }

    fn take_out(&mut self, key: &Key, seq: u32)
        ensures { self.new ≡ filter (is_another key.now seq) self.old }
    {
        self.writes.retain(|write| is_another(write, key, seq));
    }

    /// Whether a write in flight lies in this span.
    pub fn overlaps(&self, span: &Span) -> bool
        ensures { result ≡ list_any (λ w. contains span.now w.key) self.now }
    {
        self.writes.iter().any(|write| span.contains(&write.key))
    }

    /// Whether a write of this key is in flight.
    pub fn has_key(&self, key: &Key) -> bool
        ensures { result ≡ list_any (λ w. same_key w.key key.now) self.now }
    {
        self.writes.iter().any(|write| write.key == *key)
    }

    /// Whether no write is in flight.
    pub fn is_empty(&self) -> bool
        ensures { result ≡ (length self.now == 0) }
    {
        self.writes.is_empty()
    }

    /// Whether as many writes are in flight as there may be.
    pub fn is_full(&self) -> bool
        ensures { result ≡ nat_le MOST_IN_FLIGHT (length self.now) }
    {
        self.writes.len() >= MOST_IN_FLIGHT
    }

    pub fn len(&self) -> usize
        ensures count { result ≡ length self.now }
        ensures most { result ≤ MOST_IN_FLIGHT }
    {
        self.writes.len()
    }

    /// The writes in flight, by sequence.
    pub fn writes(&self) -> &[WriteInFlight]
        ensures all { result.now ≡ self.now }
        ensures by_sequence { AreBySequence result.now }
    {
        self.writes.as_slice()
    }

    /// The writes in flight as a staging record lists them, by sequence.
    pub fn list(&self, alloc: Global) -> Result<Writes, NoMemory>
        ensures made { IfOk result (λ list. list ≡ listed_in_flight self.now) }
        ensures staged { (writes : List Write) → AreInFlight self.now writes → IfOk result (λ list. list ≡ listed_as (unproved writes)) }
    {
        self.listed(alloc)
    }

    fn listed(&self, alloc: Global) -> Result<Writes, NoMemory>
        ensures { IfOk result (λ list. list ≡ listed_in_flight self.now) }
    {
        let mut list = Items::new(alloc);
        add_listed(&mut list, &self.writes)?;
        Ok(list)
    }

    /// A new epoch begins: nothing is in flight.
    pub fn clear(&mut self)
        ensures made { self.new ≡ [] }
        ensures stands { (t : Txn) → t.writes ≡ [] → FlightStands self.new t }
    {
        self.writes.clear();
    }
}

fn is_another(write: &WriteInFlight, key: &Key, seq: u32) -> bool
    ensures { result ≡ is_another key.now seq write.now }
{
    write.seq != seq || write.key != *key
}

fn add_listed(list: &mut Writes, writes: &[WriteInFlight]) -> Result<(), NoMemory>
    ensures { OnOk result (list.new ≡ list.old ++ map listed_one writes.now) }
{
    for write in writes {
        list.add((write.key.copy()?, write.seq))?;
    }
    Ok(())
}
