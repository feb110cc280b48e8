//! Beat: shows that the transaction is alive, by a PENDING record where there is none. It closes the race with a push that
//! takes a silent holder for gone: the holder's activity goes up.

ghost use Rattle.std.specs.Prelude.{◌≡◌, IfOk, OnOk, OnErr, []};
ghost use Rattle.pc_proto.specs.RecordRows.{record_reply, table_after};
ghost use Rattle.pc_proto.specs.RecordRows.Reached.{status_of};

use crate::table::RecordTable;
use pc_base::{Items, NoMemory, Timestamp, TryCopy};
use pc_proto::{Record, Reply, Request, Standing, Status, TxnMeta};
use std::alloc::Global;

pub(crate) fn beat(
    table: &mut RecordTable,
    meta: &TxnMeta,
    ts: Timestamp,
    now: u64,
) -> Result<Reply, NoMemory>
    ensures reply { IfOk result (λ made. made ≡ record_reply (Request.Beat meta.now ts now) table.old) }
    ensures after { OnOk result (table.new ≡ table_after (Request.Beat meta.now ts now) table.old) }
    ensures err { OnErr result (table.new ≡ table.old) }
{
    let alloc = table.alloc();
    let place = table.place(meta.id);
    if place.is_decided() {
        return Ok(Reply::Status(place.view(alloc)?));
    }
    if place.record().is_none() {
        let record = begun(alloc, meta, ts, now)?;
        return table.write(meta.id, Some(record));
    }
    let view = place.view(alloc)?;
    table.stay_active(meta.id, now);
    Ok(Reply::Status(view))
}

/// The first record of a transaction.
fn begun(alloc: Global, meta: &TxnMeta, ts: Timestamp, now: u64) -> Result<Record, NoMemory>
    ensures { IfOk result (λ made. made ≡ record { meta = meta.now; status = status_of Standing.Pending meta.now.epoch ts; activity = now; writes = []; locks = [] }) }
{
    Ok(Record {
        meta: meta.copy()?,
        status: Status {
            standing: Standing::Pending,
            epoch: meta.epoch,
            ts,
        },
        activity: now,
        writes: Items::new(alloc),
        locks: Items::new(alloc),
    })
}
