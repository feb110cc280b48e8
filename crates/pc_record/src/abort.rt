//! Abort: the record becomes ABORTED with this cause. It closes the race with a commit or a recovery: a record that one of them
//! decided first stays as it is.

ghost use Rattle.std.specs.Prelude.{◌≡◌, IfOk, OnOk, OnErr};
ghost use Rattle.pc_proto.specs.RecordRows.{place_change, record_reply, table_after};
ghost use Rattle.pc_record.specs.RecordOf.{becoming};

use crate::place::Place;
use crate::table::RecordTable;
use pc_base::{Items, NoMemory, TryCopy};
use pc_proto::{Keys, Record, Reply, Request, Standing, Status, TxnMeta, Why};
use std::alloc::Global;

pub(crate) fn abort(
    table: &mut RecordTable,
    meta: &TxnMeta,
    why: &Why,
    locks: &Keys,
) -> Result<Reply, NoMemory>
    ensures reply { IfOk result (λ made. made ≡ record_reply (Request.Abort meta.now why.now locks.now) table.old) }
    ensures after { OnOk result (table.new ≡ table_after (Request.Abort meta.now why.now locks.now) table.old) }
    ensures err { OnErr result (table.new ≡ table.old) }
{
    let record = aborted(table.alloc(), &table.place(meta.id), meta, why, locks)?;
    table.write(meta.id, record)
}

/// The record to write, where the abort may.
fn aborted(
    alloc: Global,
    place: &Place<'_>,
    meta: &TxnMeta,
    why: &Why,
    locks: &Keys,
) -> Result<Option<Record>, NoMemory>
    ensures { IfOk result (λ made. becoming made ≡ place_change (Request.Abort meta.now why.now locks.now) place.now) }
{
    if place.is_decided() {
        return Ok(None);
    }
    let status = Status {
        standing: Standing::Aborted(why.copy()?),
        epoch: place.epoch_from(meta.epoch),
        ts: place.ts(),
    };
    let activity = place.activity_or(meta.born);
    let meta = meta.copy()?;
    let locks = locks.copy()?;
    Ok(Some(Record {
        meta,
        status,
        activity,
        writes: Items::new(alloc),
        locks,
    }))
}
