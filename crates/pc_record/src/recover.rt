//! Recover: decides a STAGING record of just this epoch and timestamp by what was found of its writes. It closes the race with
//! the holder: a record that the holder staged anew, or that somebody decided first, stays as it is.

ghost use Rattle.std.specs.Prelude.{◌≡◌, IfOk, OnOk, OnErr, []};
ghost use Rattle.pc_proto.specs.Place.{after, view_of};
ghost use Rattle.pc_proto.specs.RecordRows.{unless_decided};
ghost use Rattle.pc_proto.specs.RecordRows.Reached.{status_of};
ghost use Rattle.pc_proto.specs.RecordRows.Recover.{recover, standing_found};
ghost use Rattle.pc_proto.specs.Table.{applied_to, place_of};
ghost use Rattle.pc_record.specs.RecordOf.{becoming};

use crate::place::Place;
use crate::table::RecordTable;
use pc_base::{Items, NoMemory, Timestamp, TryCopy, TxnId};
use pc_proto::{Finding, Record, Reply, Standing, Status, Why};
use std::alloc::Global;

pub(crate) fn recover(
    table: &mut RecordTable,
    id: TxnId,
    epoch: u32,
    ts: Timestamp,
    finding: &Finding,
) -> Result<Reply, NoMemory>
    ensures reply { let p = place_of id table.old in IfOk result (λ made. made ≡ Reply.Status (view_of (after p (unless_decided p (recover epoch ts finding.now p))))) }
    ensures after { let p = place_of id table.old in OnOk result (table.new ≡ applied_to id (unless_decided p (recover epoch ts finding.now p)) table.old) }
    ensures err { OnErr result (table.new ≡ table.old) }
{
    let record = recovered(table.alloc(), &table.place(id), epoch, ts, finding)?;
    table.write(id, record)
}

/// The record to write, where the recovery may decide.
fn recovered(
    alloc: Global,
    place: &Place<'_>,
    epoch: u32,
    ts: Timestamp,
    finding: &Finding,
) -> Result<Option<Record>, NoMemory>
    ensures { IfOk result (λ made. becoming made ≡ unless_decided place.now (recover epoch ts finding.now place.now)) }
{
    match place.record() {
        Some(staged) if place.is_staged_at(epoch, ts) => {
            Ok(Some(decided(alloc, staged, finding)?))
        }
        _ => Ok(None),
    }
}

/// The record, decided by the finding.
fn decided(alloc: Global, staged: &Record, finding: &Finding) -> Result<Record, NoMemory>
    ensures { IfOk result (λ made. made ≡ record staged.now { status = status_of (standing_found finding.now) staged.now.status.epoch staged.now.status.ts; writes = [] }) }
{
    let status = Status {
        standing: decision(finding)?,
        epoch: staged.status.epoch,
        ts: staged.status.ts,
    };
    let meta = staged.meta.copy()?;
    let locks = staged.locks.copy()?;
    Ok(Record {
        meta,
        status,
        activity: staged.activity,
        writes: Items::new(alloc),
        locks,
    })
}

fn decision(finding: &Finding) -> Result<Standing, NoMemory>
    ensures { IfOk result (λ made. made ≡ standing_found finding.now) }
{
    match finding {
        Finding::All => Ok(Standing::Committed),
        Finding::Missing { key, by } => Ok(Standing::Aborted(Why::Missing {
            key: key.copy()?,
            by: *by,
        })),
    }
}
