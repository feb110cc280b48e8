ghost use Rattle.std.specs.Prelude.{◌≡◌, ◌↔◌, ◌≤◌, ◌∷◌, [], Any, Contains, IfOk, IsTrue, OnErr, OnOk};
ghost use Rattle.std.specs.Option.{option_copied};
ghost use Rattle.pc_world.specs.Known.Writes.{IsProvedBy, asked_again, is_proved, proved_at};

use pc_base::{Key, NoMemory, Timestamp, Value};
use std::alloc::Global;
use std::marker::Model;

/// A write of a transaction: what it lays under which sequence, when it was sent, and when it was proved.
#[derive(Drop)]
pub struct OwnWrite<'a> {
    pub key: &'a Key,
    pub seq: u32,
    pub value: Option<&'a Value>,
    asked: Vec<Timestamp>,
    proofs: Vec<Timestamp>,
}

impl<'a> Model for OwnWrite<'a> {
    ghost use Rattle.std.specs.Option.{option_copied};
    ghost use Rattle.pc_world.specs.Known.Writes.{Write};

    ghost Value = { Write };

    ghost view = { λ w. record { key = w.key.now; seq = w.seq; value = option_copied w.value; asked = w.asked.items; proofs = w.proofs.items } };
}

impl<'a> OwnWrite<'a> {
    /// A write that was sent once.
    pub(crate) fn new(
        alloc: Global,
        key: &'a Key,
        seq: u32,
        value: Option<&'a Value>,
        ts: Timestamp,
    ) -> Result<OwnWrite<'a>, NoMemory>
        ensures { IfOk result (λ w. w ≡ record { key = key.now; seq = seq; value = option_copied value.entry; asked = ts ∷ []; proofs = [] }) }
    {
        let mut asked = Vec::new(alloc);
        asked.push(ts)?;
        Ok(OwnWrite {
            key,
            seq,
            value,
            asked,
            proofs: Vec::new(alloc),
        })
    }

    /// Whether a reply said that it stands.
    pub fn is_proved(&self) -> bool
        ensures { result ≡ is_proved self.now }
    {
        self.proofs.iter().any(|_| true)
    }

    /// Whether a reply said that it stands at or below this timestamp.
    pub fn is_proved_by(&self, ts: Timestamp) -> bool
        ensures { IsTrue result ↔ IsProvedBy ts self.now }
    {
        is_some_by(&self.proofs, ts)
    }

    /// Whether it was sent at this timestamp.
    pub fn was_asked_at(&self, ts: Timestamp) -> bool
        ensures { IsTrue result ↔ Contains self.now.asked ts }
    {
        self.asked.contains(&ts)
    }

    /// The write after a put of this sequence was sent once more.
    pub(crate) fn ask_again(&mut self, seq: u32, ts: Timestamp) -> Result<(), NoMemory>
        ensures ok { OnOk result (self.new ≡ asked_again seq ts self.old) }
        ensures err { OnErr result (self.new ≡ self.old) }
    {
        if self.seq == seq {
            self.asked.push(ts)?;
        }
        Ok(())
    }

    /// The write after one of this key and sequence was proved.
    pub(crate) fn prove_at(&mut self, key: &Key, seq: u32, ts: Timestamp) -> Result<(), NoMemory>
        ensures ok { OnOk result (self.new ≡ proved_at key.now seq ts self.old) }
        ensures err { OnErr result (self.new ≡ self.old) }
    {
        if self.seq == seq && self.key == key {
            self.proofs.push(ts)?;
        }
        Ok(())
    }
}

/// Whether some proof is at or below this timestamp.
fn is_some_by(proofs: &[Timestamp], ts: Timestamp) -> bool
    ensures { IsTrue result ↔ Any (λ proof. proof ≤ ts) proofs.now }
{
    proofs.iter().any(|proof| is_by(*proof, ts))
}

fn is_by(proof: Timestamp, ts: Timestamp) -> bool
    ensures { IsTrue result ↔ (proof ≤ ts) }
{
    proof <= ts
}
