//! Commit: the record becomes COMMITTED. It closes the race with whoever pushes, aborts or recovers the transaction: a record
//! that one of them decided first, or that stands past the commit's epoch or timestamp, stays as it is.

ghost use Rattle.std.specs.Prelude.{◌≡◌, IfOk, OnOk, OnErr};
ghost use Rattle.pc_proto.specs.RecordRows.{place_change, record_reply, table_after};
ghost use Rattle.pc_record.specs.RecordOf.{becoming};

use crate::place::Place;
use crate::table::RecordTable;
use pc_base::{Items, NoMemory, Timestamp, TryCopy};
use pc_proto::{Keys, Record, Reply, Request, Standing, Status, TxnMeta};
use std::alloc::Global;

pub(crate) fn commit(
    table: &mut RecordTable,
    meta: &TxnMeta,
    ts: Timestamp,
    locks: &Keys,
) -> Result<Reply, NoMemory>
    ensures reply { IfOk result (λ made. made ≡ record_reply (Request.Commit meta.now ts locks.now) table.old) }
    ensures after { OnOk result (table.new ≡ table_after (Request.Commit meta.now ts locks.now) table.old) }
    ensures err { OnErr result (table.new ≡ table.old) }
{
    let record = committed(table.alloc(), &table.place(meta.id), meta, ts, locks)?;
    table.write(meta.id, record)
}

/// The record to write, where the commit may.
fn committed(
    alloc: Global,
    place: &Place<'_>,
    meta: &TxnMeta,
    ts: Timestamp,
    locks: &Keys,
) -> Result<Option<Record>, NoMemory>
    ensures { IfOk result (λ made. becoming made ≡ place_change (Request.Commit meta.now ts locks.now) place.now) }
{
    if place.is_decided() || !place.is_reached(meta.epoch, ts) {
        return Ok(None);
    }
    let status = Status {
        standing: Standing::Committed,
        epoch: meta.epoch,
        ts,
    };
    let activity = place.activity_or(meta.born);
    let meta = meta.copy()?;
    let locks = locks.copy()?;
    Ok(Some(Record {
        meta,
        status,
        activity,
        writes: Items::new(alloc),
        locks,
    }))
}
