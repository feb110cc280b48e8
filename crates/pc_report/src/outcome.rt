ghost use Rattle.std.specs.Prelude.{◌≡◌, ℕ, ◌+◌, ◌^◌, ◌<◌, List, [], IfOk, fold, length, map};
ghost use Rattle.std.specs.Cmp.Lexicographic.{slice_cmp};
ghost use Rattle.std.specs.Ordering.{nat_cmp};
ghost use Rattle.pc_base.specs.Keyed.{in_order};
ghost use Rattle.pc_base.specs.declared.entry.Entry.{Entry};
ghost use Rattle.pc_proto.specs.declared.event.Event.{Event};
ghost use Rattle.pc_report.specs.Findings.{AreFindingsOf};
ghost use Rattle.pc_report.specs.Ordering.{order_among, other_in, others_among, placed};
ghost use Rattle.pc_report.specs.ReportOf.{IsRunOver, other_row, report_of};
ghost use Rattle.pc_report.specs.Rows.{commit_row, map_with_puts};
ghost use Rattle.pc_world.specs.Local.{Head};

use crate::gathered::Findings;
use crate::replay::{Rank, Replay};
use crate::rows::{CommittedRow, CommittedRows, Ending, MapRows, OtherRow, OtherRows, Report};
use crate::tables::insert;
use crate::writes::Writes;
use pc_base::{Entry, Items, NoMemory, TxnId};
use pc_proto::{Event, Keys};
use pc_puts::{apply, last_writes};
use std::alloc::Global;
use std::collections::BTreeMap;

/// The report of a history over ranges with these splits.
pub fn report(alloc: Global, splits: &Keys, entries: &[Entry<Event>]) -> Result<Report, NoMemory>
    requires few { length splits.now + 1 < 2 ^ 32 }
    requires run { IsRunOver splits.now entries.now }
    ensures { IfOk result (λ report. (head : Head) → head.splits ≡ splits.now → report ≡ report_of head entries.now) }
{
    let findings = Findings::of(alloc, splits, entries)?;
    findings.report(alloc, splits)
}

impl Findings {
    /// The report of the history of which this was found, over ranges with these splits.
    pub fn report(&self, alloc: Global, splits: &Keys) -> Result<Report, NoMemory>
        requires { length splits.now + 1 < 2 ^ 32 }
        ensures { (entries : List (Entry Event)) → AreFindingsOf splits.now entries self.now → IfOk result (λ report. (head : Head) → head.splits ≡ splits.now → report ≡ report_of head entries) }
    {
        let order = commit_order(alloc, splits, &self.begun, &self.replay)?;
        let committed = committed_rows(alloc, &order, &self.writes)?;
        let others = other_rows(alloc, splits, &self.begun, &self.replay)?;
        let map = map_rows(alloc, &order, &self.writes)?;
        Ok(Report {
            committed,
            others,
            map,
        })
    }
}

/// Of these transactions the committed ones, by timestamp and then by commit point.
fn commit_order(
    alloc: Global,
    splits: &Keys,
    begun: &[TxnId],
    replay: &Replay,
) -> Result<Vec<(Rank, TxnId)>, NoMemory>
    requires { length splits.now + 1 < 2 ^ 32 }
    ensures { IfOk result (λ order. order.items ≡ order_among splits.now replay.now begun.now) }
{
    let mut order = BTreeMap::new(alloc);
    for id in begun {
        insert(&mut order, placed(splits, replay, id))?;
    }
    Ok(order.into_iter().collect(alloc)?)
}

/// The transaction with its place in the order, if it is committed.
fn placed(splits: &Keys, replay: &Replay, id: &TxnId) -> Option<(Rank, TxnId)>
    requires { length splits.now + 1 < 2 ^ 32 }
    ensures { result ≡ placed splits.now replay.now id.now }
{
    let rank = replay.rank(splits, *id)?;
    Some((rank, *id))
}

fn committed_rows(
    alloc: Global,
    order: &[(Rank, TxnId)],
    writes: &Writes,
) -> Result<CommittedRows, NoMemory>
    ensures { IfOk result (λ rows. rows ≡ map (commit_row writes.now) order.now) }
{
    let mut rows = Items::new(alloc);
    for (rank, id) in order {
        rows.add(CommittedRow {
            id: *id,
            ts: rank.ts,
            writes: last_writes(alloc, writes.of(*id))?,
        })?;
    }
    Ok(rows)
}

fn other_rows(
    alloc: Global,
    splits: &Keys,
    begun: &[TxnId],
    replay: &Replay,
) -> Result<OtherRows, NoMemory>
    requires { length splits.now + 1 < 2 ^ 32 }
    ensures { IfOk result (λ rows. rows ≡ map other_row (others_among splits.now replay.now begun.now)) }
{
    let mut rows = Items::new(alloc);
    for (id, ending) in others(alloc, splits, begun, replay)? {
        rows.add(OtherRow { id, ending })?;
    }
    Ok(rows)
}

/// Of these transactions those that are not committed, by session and number.
fn others(
    alloc: Global,
    splits: &Keys,
    begun: &[TxnId],
    replay: &Replay,
) -> Result<BTreeMap<TxnId, Ending>, NoMemory>
    requires { length splits.now + 1 < 2 ^ 32 }
    ensures { IfOk result (λ others. others.entries ≡ others_among splits.now replay.now begun.now) }
{
    let mut others = BTreeMap::new(alloc);
    for id in begun {
        insert(&mut others, other(splits, replay, id)?)?;
    }
    Ok(others)
}

/// The transaction with its ending, unless it is committed.
fn other(splits: &Keys, replay: &Replay, id: &TxnId) -> Result<Option<(TxnId, Ending)>, NoMemory>
    requires { length splits.now + 1 < 2 ^ 32 }
    ensures { IfOk result (λ other. other ≡ other_in splits.now replay.now id.now) }
{
    match replay.commit(splits, *id) {
        Some(_) => Ok(None),
        None => Ok(Some((*id, replay.ending(splits, *id)?))),
    }
}

/// The map after all committed transactions, one after another in their order.
fn map_rows(alloc: Global, order: &[(Rank, TxnId)], writes: &Writes) -> Result<MapRows, NoMemory>
    ensures { IfOk result (λ rows. rows ≡ fold (map_with_puts writes.now) [] order.now) }
{
    let mut map = BTreeMap::new(alloc);
    for (_, id) in order {
        apply(&mut map, writes.of(*id))?;
    }
    Ok(Items::from_vec(map.into_iter().collect(alloc)?))
}
