ghost use Rattle.std.specs.Prelude.{◌≡◌, ◌↔◌, ◌<◌, ◌==◌, ◌∷◌, ◌++◌, [], All, IsTrue, None, OnErr, OnOk, false, find, length, map, slice_get, slice_index_or, slice_set};
ghost use Rattle.std.specs.Option.{option_copied};
ghost use Rattle.pc_base.specs.Span.{same_key};
ghost use Rattle.pc_known.specs.Parts.{part_span};
ghost use Rattle.pc_own.specs.Flying.{without_write};
ghost use Rattle.pc_own.specs.Places.{ArePlacesOf, place_by_sequence};
ghost use Rattle.pc_world.specs.Known.Writes.{Write, asked_again, is_proved, last_seq_of, proved_at, unproved, with_put};
ghost use Rattle.pc_world.specs.Send.Reading.{IsProvedIn};

use crate::flying::{Flying, add_flying, land, none_in, none_on};
use crate::places::Places;
use crate::write::OwnWrite;
use pc_base::{Key, NoMemory, Timestamp, Value};
use pc_known::Part;
use std::alloc::Global;
use std::marker::Model;

/// The writes of a transaction's present epoch.
#[derive(Drop)]
pub struct Writes<'a> {
    writes: Vec<OwnWrite<'a>>,
    places: Places,
    /// Those that are not proved yet.
    flying: Vec<Flying<'a>>,
}

impl<'a> Model for Writes<'a> {
    ghost use Rattle.std.specs.Prelude.{List};
    ghost use Rattle.pc_own.specs.Flying.{AreKeptOf};
    ghost use Rattle.pc_world.specs.Known.Writes.{Write};

    ghost Value = { List Write };

    ghost view = { λ ws. ws.writes.items };

    ghost invariant = { λ ws. AreKeptOf ws.writes.items ws.places ws.flying.items };
}

impl<'a> Writes<'a> {
    /// Nothing was written.
    pub(crate) fn new(alloc: Global) -> Writes<'a>
        ensures { result ≡ [] }
    {
        Writes {
            writes: Vec::new(alloc),
            places: Places::new(alloc),
            flying: Vec::new(alloc),
        }
    }

    pub fn as_slice(&self) -> &[OwnWrite<'a>]
        ensures { result.now ≡ self.now }
    {
        self.writes.as_slice()
    }

    /// The sequence of the last write, 0 where there is none.
    pub fn last_seq(&self) -> u32
        ensures { result ≡ last_seq_of self.now }
    {
        self.places.last
    }

    /// The write of this sequence, if there is one.
    pub fn of(&self, seq: u32) -> Option<&OwnWrite<'a>>
        ensures { option_copied result ≡ find (λ w. w.seq == seq) self.now }
    {
        match self.places.place(seq) {
            Some(place) => at(self.writes.as_slice(), place),
            None => None,
        }
    }

    pub(crate) fn clear(&mut self)
        ensures { self.new ≡ [] }
    {
        self.writes.clear();
        self.places.clear();
        self.flying.clear();
    }

    /// Whether each write of the key is proved.
    pub fn are_proved_on(&self, key: &Key) -> bool
        ensures { IsTrue result ↔ All (λ w. IsTrue (same_key w.key key.now) → IsTrue (is_proved w)) self.now }
    {
        none_on(self.flying.as_slice(), key)
    }

    /// Whether each write in the span is proved.
    pub fn are_proved_in(&self, span: Part<'_>) -> bool
        ensures { IsTrue result ↔ IsProvedIn (part_span span.entry) self.now }
    {
        none_in(self.flying.as_slice(), span)
    }

    /// The writes after a put was sent: a new one stands last, one that was sent before is sent once more.
    pub(crate) fn put(
        &mut self,
        alloc: Global,
        seq: u32,
        ts: Timestamp,
        key: &'a Key,
        value: Option<&'a Value>,
    ) -> Result<(), NoMemory>
        ensures { OnOk result (self.new ≡ with_put seq ts key.now (option_copied value.entry) self.old) }
    {
        match self.places.place(seq) {
            Some(place) => ask_at(&mut self.writes, place, seq, ts),
            None => {
                let write = OwnWrite::new(alloc, key, seq, value, ts)?;
                self.add(write)
            }
        }
    }

    /// One more write, of a sequence that none has, stands last. After a refusal none is kept.
    fn add(&mut self, write: OwnWrite<'a>) -> Result<(), NoMemory>
        requires free { place_by_sequence write.seq self.old ≡ None }
        requires unproved { is_proved write ≡ false }
        ensures { OnOk result (self.new ≡ self.old ++ write.entry ∷ []) }
    {
        let added = add(&mut self.writes, &mut self.places, &mut self.flying, write);
        if added.is_err() {
            self.writes.clear();
            self.places.clear();
            self.flying.clear();
        }
        added
    }

    /// The writes after the one of this key and sequence was proved.
    pub(crate) fn prove(&mut self, key: &Key, seq: u32, ts: Timestamp) -> Result<(), NoMemory>
        ensures { OnOk result (self.new ≡ map (proved_at key.now seq ts) self.old) }
    {
        match self.places.place(seq) {
            Some(place) => prove_at(&mut self.writes, &mut self.flying, place, key, seq, ts),
            None => Ok(()),
        }
    }
}

/// The write at a place.
fn at<'b, 'a>(writes: &'b [OwnWrite<'a>], place: usize) -> Option<&'b OwnWrite<'a>>
    ensures { option_copied result ≡ slice_get writes.now place }
{
    writes.get(place)
}

fn add<'a>(
    writes: &mut Vec<OwnWrite<'a>>,
    places: &mut Places,
    flying: &mut Vec<Flying<'a>>,
    write: OwnWrite<'a>,
) -> Result<(), NoMemory>
    requires free { place_by_sequence write.seq writes.old.items ≡ None }
    requires kept { ArePlacesOf writes.old.items places.old }
    ensures pushed { OnOk result (writes.new.items ≡ writes.old.items ++ write.entry ∷ []) }
    ensures kept { OnOk result (ArePlacesOf writes.new.items places.new) }
    ensures flying { OnOk result (flying.new.items ≡ flying.old.items ++ (write.entry.key, write.entry.seq) ∷ []) }
{
    places.add(write.seq, writes.len())?;
    add_flying(flying, write.key, write.seq)?;
    writes.push(write)?;
    Ok(())
}

fn ask_at(
    writes: &mut Vec<OwnWrite<'_>>,
    place: usize,
    seq: u32,
    ts: Timestamp,
) -> Result<(), NoMemory>
    ensures ok { (d : Write) → place < length writes.old.items → OnOk result (writes.new.items ≡ slice_set writes.old.items place (asked_again seq ts (slice_index_or writes.old.items place d))) }
    ensures err { OnErr result (writes.new.items ≡ writes.old.items) }
{
    if let Some(write) = writes.get_mut(place) {
        write.ask_again(seq, ts)?;
    }
    Ok(())
}

fn prove_at(
    writes: &mut Vec<OwnWrite<'_>>,
    flying: &mut Vec<Flying<'_>>,
    place: usize,
    key: &Key,
    seq: u32,
    ts: Timestamp,
) -> Result<(), NoMemory>
    ensures ok { (d : Write) → place < length writes.old.items → OnOk result (writes.new.items ≡ slice_set writes.old.items place (proved_at key.now seq ts (slice_index_or writes.old.items place d))) }
    ensures err { OnErr result (writes.new.items ≡ writes.old.items) }
    ensures landed { OnOk result (flying.new.items ≡ without_write key.now seq flying.old.items) }
    ensures flying { OnErr result (flying.new.items ≡ flying.old.items) }
{
    if let Some(write) = writes.get_mut(place) {
        write.prove_at(key, seq, ts)?;
    }
    land(flying, key, seq);
    Ok(())
}
