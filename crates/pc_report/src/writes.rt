//! What each transaction wrote, as its session was told.

ghost use Rattle.std.specs.Prelude.{◌≡◌, [], IfOk, OnOk, if◌then◌else◌};
ghost use Rattle.pc_base.specs.Transaction.{same_txn};
ghost use Rattle.pc_report.specs.Replaying.{held};
ghost use Rattle.pc_report.specs.Writing.{AreWritesOf, LastChanges, LastFollows, PutsChange, PutsFollow, is_last_in, puts_held, puts_of, puts_sent, puts_told};
ghost use Rattle.pc_puts.specs.Puts.{with_new_put};

use pc_base::{ActorId, Entry, NoMemory, TryCopy, TxnId};
use pc_proto::{Answer, Event, Request};
use pc_puts::{Put, Puts};
use std::alloc::Global;
use std::collections::BTreeMap;

/// The writes of each transaction's present epoch.
#[derive(Drop)]
pub(crate) struct Writes {
    puts: BTreeMap<TxnId, Puts>,
    /// The transaction that each session began last.
    last: BTreeMap<u32, TxnId>,
}

impl Writes {
    /// What is written in no entry.
    pub(crate) fn new(alloc: Global) -> Writes
        ensures { AreWritesOf [] result }
    {
        Writes {
            puts: BTreeMap::new(alloc),
            last: BTreeMap::new(alloc),
        }
    }

    /// Takes one more entry.
    pub(crate) fn follow(&mut self, alloc: Global, entry: &Entry<Event>) -> Result<(), NoMemory>
        ensures puts { OnOk result (PutsFollow self.old entry.now self.new) }
        ensures last { OnOk result (LastFollows self.old entry.now self.new) }
    {
        let ActorId::Session(session) = entry.actor else {
            return Ok(());
        };
        match &entry.event {
            Event::Send { request, .. } => self.sent(alloc, session, request),
            Event::Tell(answer) => self.told(session, answer),
            _ => Ok(()),
        }
    }
}

impl Writes {
    /// The transaction's writes.
    pub fn of(&self, id: TxnId) -> &[Put]
        ensures { result.now ≡ puts_held self.now id }
    {
        match self.puts.get(&id) {
            Some(puts) => puts.as_slice(),
            None => &[],
        }
    }

    fn sent(&mut self, alloc: Global, session: u32, request: &Request) -> Result<(), NoMemory>
        ensures puts { OnOk result (PutsChange session (λ id. puts_sent id request.now) self.old self.new) }
        ensures last { OnOk result (self.new.last ≡ self.old.last) }
    {
        if let Request::Put {
            meta,
            seq,
            key,
            value,
            ..
        } = request
            && meta.id.session == session
        {
            let put = Put {
                seq: *seq,
                key: key.copy()?,
                value: value.copy()?,
            };
            add(&mut self.puts, alloc, meta.id, put)?;
        }
        Ok(())
    }

    fn told(&mut self, session: u32, answer: &Answer) -> Result<(), NoMemory>
        ensures puts { OnOk result (PutsChange session (λ id. puts_told (is_last_in self.old id) answer.now) self.old self.new) }
        ensures last { OnOk result (LastChanges session answer.now self.old self.new) }
    {
        match answer {
            Answer::Begun { id, .. } => {
                self.last.insert(session, *id)?;
            }
            Answer::Restart { .. } => self.restarted(session),
            _ => {}
        }
        Ok(())
    }

    /// The last transaction of the session begins anew.
    fn restarted(&mut self, session: u32)
        ensures puts { PutsChange session (λ id puts. if is_last_in self.old id then [] else puts) self.old self.new }
        ensures last { self.new.last ≡ self.old.last }
    {
        if let Some(id) = self.last.get(&session).copied()
            && id.session == session
        {
            self.puts.remove(&id);
        }
    }
}

/// Adds a put to those of a transaction, where its sequence is new.
fn add(
    table: &mut BTreeMap<TxnId, Puts>,
    alloc: Global,
    id: TxnId,
    put: Put,
) -> Result<(), NoMemory>
    ensures { OnOk result ((other : TxnId) → puts_of (held table.new other) ≡ if same_txn id other then with_new_put put (puts_of (held table.old other)) else puts_of (held table.old other)) }
{
    let puts = match table.remove(&id) {
        Some(puts) => puts,
        None => Puts::new(alloc),
    };
    table.insert(id, puts.with(put)?)?;
    Ok(())
}
