//! Stage: the record becomes STAGING with the writes that it waits for; from then on the transaction is committed as soon as
//! each of them stands. It closes the race with a push or a recovery: a record that one of them decided, or moved past this
//! epoch or timestamp, stays as it is.

ghost use Rattle.std.specs.Prelude.{◌≡◌, IfOk, OnOk, OnErr};
ghost use Rattle.pc_proto.specs.RecordRows.{place_change, record_reply, table_after};
ghost use Rattle.pc_record.specs.RecordOf.{becoming};

use crate::place::Place;
use crate::table::RecordTable;
use pc_base::{NoMemory, Timestamp, TryCopy};
use pc_proto::{Keys, Record, Reply, Request, Standing, Status, TxnMeta, Writes};

pub(crate) fn stage(
    table: &mut RecordTable,
    meta: &TxnMeta,
    ts: Timestamp,
    now: u64,
    writes: &Writes,
    locks: &Keys,
) -> Result<Reply, NoMemory>
    ensures reply { IfOk result (λ made. made ≡ record_reply (Request.Stage meta.now ts now writes.now locks.now) table.old) }
    ensures after { OnOk result (table.new ≡ table_after (Request.Stage meta.now ts now writes.now locks.now) table.old) }
    ensures err { OnErr result (table.new ≡ table.old) }
{
    let record = staged(&table.place(meta.id), meta, ts, now, writes, locks)?;
    table.write(meta.id, record)
}

/// The record to write, where the stage may and is not there already.
fn staged(
    place: &Place<'_>,
    meta: &TxnMeta,
    ts: Timestamp,
    now: u64,
    writes: &Writes,
    locks: &Keys,
) -> Result<Option<Record>, NoMemory>
    ensures { IfOk result (λ made. becoming made ≡ place_change (Request.Stage meta.now ts now writes.now locks.now) place.now) }
{
    let is_past = !place.is_reached(meta.epoch, ts);
    if place.is_decided() || is_past || place.is_staged_at(meta.epoch, ts) {
        return Ok(None);
    }
    let status = Status {
        standing: Standing::Staging,
        epoch: meta.epoch,
        ts,
    };
    let activity = place.alive_at(now);
    let meta = meta.copy()?;
    let writes = writes.copy()?;
    let locks = locks.copy()?;
    Ok(Some(Record {
        meta,
        status,
        activity,
        writes,
        locks,
    }))
}
