ghost use Rattle.std.specs.Prelude.{◌+◌, ◌^◌, ◌<◌, [], IfOk, length};
ghost use Rattle.pc_check.specs.FirstBroken.{head_with};
ghost use Rattle.pc_judge.specs.Keeping.{KeepsActors};

use crate::clients::may_make;
use crate::ranges::{blank_ranges, evaluates};
use pc_base::{ActorId, Entry, NoMemory};
use pc_check::{Client, Judge};
use pc_eval::RangeState;
use pc_proto::{Event, Keys};
use std::alloc::Global;
use std::collections::BTreeMap;

/// What is kept of the actors of a journal, entry by entry: each range's state, and a client for each session and recoverer that has
/// an entry.
#[derive(Drop)]
pub struct Actors<'a, C> {
    alloc: Global,
    splits: &'a Keys,
    sessions: u32,
    recoverers: u32,
    ranges: Vec<RangeState>,
    session_clients: BTreeMap<u32, C>,
    recoverer_clients: BTreeMap<u32, C>,
}

impl<'a, C: Client<'a> + Drop> Actors<'a, C> {
    /// Actors that have no entry yet.
    pub fn new(
        alloc: Global,
        splits: &'a Keys,
        sessions: u32,
        recoverers: u32,
    ) -> Result<Actors<'a, C>, NoMemory>
        requires { length splits.now + 1 < 2 ^ 32 }
        ensures { IfOk result (KeepsActors C.keeps (head_with splits.now sessions recoverers) []) }
    {
        Ok(Actors {
            alloc,
            splits,
            sessions,
            recoverers,
            ranges: blank_ranges(alloc, splits.len())?,
            session_clients: BTreeMap::new(alloc),
            recoverer_clients: BTreeMap::new(alloc),
        })
    }
}

impl<'a, C: Client<'a> + Drop> Judge<'a> for Actors<'a, C> {
    ghost keeps = { KeepsActors C.keeps };

    fn take(
        &mut self,
        before: &'a [Entry<Event>],
        entry: &'a Entry<Event>,
        named: Option<&'a Entry<Event>>,
    ) -> Result<bool, NoMemory> {
        match entry.actor {
            ActorId::Range(range) => evaluates(&mut self.ranges, range, &entry.event, named),
            ActorId::Session(number) => may_make(
                self.alloc,
                self.splits,
                &mut self.session_clients,
                number,
                entry,
                named,
            ),
            ActorId::Recoverer(number) => may_make(
                self.alloc,
                self.splits,
                &mut self.recoverer_clients,
                number,
                entry,
                named,
            ),
        }
    }
}
