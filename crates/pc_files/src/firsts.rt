ghost use Rattle.std.specs.Prelude.{◌≡◌, [], List, OnOk};
ghost use Rattle.pc_files.specs.FirstPuts.{AreFirstPuts, IsFirstKept, KeepsFirst, first_put_of};
ghost use Rattle.pc_world.specs.Known.Traffic.{Sent, sent_after};

use pc_base::{NoMemory, TxnId};
use pc_proto::{Event, Request};
use std::alloc::Global;
use std::collections::BTreeMap;

/// The number of the first put of each write, by transaction, epoch and sequence.
#[derive(Drop)]
pub(crate) struct Firsts {
    numbers: BTreeMap<(TxnId, u32, u32), u64>,
}

impl Firsts {
    /// No put was sent.
    pub(crate) fn new(alloc: Global) -> Firsts
        ensures { AreFirstPuts [] result }
    {
        Firsts {
            numbers: BTreeMap::new(alloc),
        }
    }

    /// The number of the first put of this write.
    pub(crate) fn of(&self, id: TxnId, epoch: u32, seq: u32) -> Option<u64>
        ensures { (sent : List Sent) → AreFirstPuts sent self.now → result ≡ first_put_of id epoch seq sent }
    {
        self.numbers.get(&(id, epoch, seq)).copied()
    }

    /// Takes one more entry. After a refusal nothing is known.
    pub(crate) fn learn(&mut self, event: &Event) -> Result<(), NoMemory>
        ensures { (sent : List Sent) → AreFirstPuts sent self.old → OnOk result (AreFirstPuts (sent_after event.now sent) self.new) }
    {
        match event {
            Event::Send {
                number,
                request,
                ..
            } => self.send(*number, request),
            _ => Ok(()),
        }
    }

    fn send(&mut self, number: u64, request: &Request) -> Result<(), NoMemory>
        ensures { OnOk result (KeepsFirst number request.now self.old self.new) }
    {
        match request {
            Request::Put { meta, seq, .. } => {
                keep_first(&mut self.numbers, (meta.id, meta.epoch, *seq), number)
            }
            _ => Ok(()),
        }
    }
}

/// Keeps the number, unless the write has one already.
fn keep_first(
    numbers: &mut BTreeMap<(TxnId, u32, u32), u64>,
    write: (TxnId, u32, u32),
    number: u64,
) -> Result<(), NoMemory>
    ensures { OnOk result (IsFirstKept write number numbers.old numbers.new) }
{
    if !numbers.contains_key(&write) {
        numbers.insert(write, number)?;
    }
    Ok(())
}
