//! Goes through a history once, and gathers what its report is made of.

ghost use Rattle.std.specs.Prelude.{◌≡◌, ◌+◌, ◌^◌, ◌<◌, ◌++◌, [], IfOk, OnOk, length};
ghost use Rattle.std.specs.List.{cons_option};
ghost use Rattle.pc_report.specs.ReportOf.{IsRunOver};
ghost use Rattle.pc_report.specs.Findings.{AreFindingsOf};
ghost use Rattle.pc_world.specs.CommitOrder.{begun_in};

use crate::replay::{Replay, any_sends_a_stage};
use crate::writes::Writes;
use pc_base::{Entry, NoMemory, TxnId};
use pc_proto::{Answer, Event, Keys};
use pc_sent::Sent;
use std::alloc::Global;

/// What a report is made of.
#[derive(Drop)]
pub struct Findings {
    /// What the whole history comes to.
    pub(crate) replay: Replay,
    /// What the transactions wrote.
    pub(crate) writes: Writes,
    /// The transactions that were begun, in the order of their begins.
    pub(crate) begun: Vec<TxnId>,
}

impl Findings {
    /// What is found of a history over ranges with these splits. Each entry is looked at once for all three: a long history does not fit into a processor's cache.
    pub fn of(alloc: Global, splits: &Keys, entries: &[Entry<Event>]) -> Result<Findings, NoMemory>
        requires few { length splits.now + 1 < 2 ^ 32 }
        requires run { IsRunOver splits.now entries.now }
        ensures { IfOk result (AreFindingsOf splits.now entries.now) }
    {
        let whole = any_sends_a_stage(entries);
        let mut replay = Replay::new(alloc, splits, whole)?;
        let mut sent = Sent::new(alloc);
        let mut writes = Writes::new(alloc);
        let mut begun = Vec::new(alloc);
        for (done, entry) in entries.iter().enumerate() {
            let (before, _) = entries.split_at(done);
            replay.follow(splits, &sent, before, entry)?;
            sent.add(before, entry)?;
            writes.follow(alloc, entry)?;
            add_begun(&mut begun, &entry.event)?;
        }
        Ok(Findings {
            replay,
            writes,
            begun,
        })
    }
}

/// Adds the transaction that the event tells begun, if it tells one.
fn add_begun(ids: &mut Vec<TxnId>, event: &Event) -> Result<(), NoMemory>
    ensures { OnOk result (ids.new.items ≡ ids.old.items ++ cons_option (begun_in event.now) []) }
{
    if let Event::Tell(Answer::Begun { id, .. }) = event {
        ids.push(*id)?;
    }
    Ok(())
}
