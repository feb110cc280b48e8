//! The writes of one transaction, each once.

ghost use Rattle.std.specs.Prelude.{◌≡◌, [], IfOk};
ghost use Rattle.pc_puts.specs.Puts.{with_new_put};

use pc_base::{Items, Key, NoMemory, Value};
use std::alloc::Global;
use std::collections::BTreeSet;
use std::marker::Model;

/// A write of a key; no value is a deletion.
#[derive(Drop)]
pub struct Put {
    pub seq: u32,
    pub key: Key,
    pub value: Option<Value>,
}

/// The writes of a transaction's present epoch, in the order in which they were sent first.
#[derive(Drop)]
pub struct Puts {
    puts: Items<Put>,
    /// The sequences of the writes.
    seqs: BTreeSet<u32>,
}

impl Model for Puts {
    ghost use Rattle.std.specs.Prelude.{List};
    ghost use Rattle.pc_puts.specs.declared.puts.Put.{Put};
    ghost use Rattle.pc_puts.specs.Puts.{AreSeqsOf};

    ghost Value = { List Put };

    ghost view = { λ s. s.puts };

    ghost invariant = { λ s. AreSeqsOf s.puts s.seqs };
}

impl Puts {
    /// Nothing was written.
    pub fn new(alloc: Global) -> Puts
        ensures { result ≡ [] }
    {
        Puts {
            puts: Items::new(alloc),
            seqs: BTreeSet::new(alloc),
        }
    }

    pub fn as_slice(&self) -> &[Put]
        ensures { result.now ≡ self.now }
    {
        self.puts.as_slice()
    }

    /// The writes with one more, where its sequence is new.
    pub fn with(self, put: Put) -> Result<Puts, NoMemory>
        ensures { IfOk result (λ puts. puts ≡ with_new_put put self) }
    {
        let Puts { mut puts, mut seqs } = self;
        if seqs.insert(put.seq)? {
            puts.add(put)?;
        }
        Ok(Puts { puts, seqs })
    }
}
