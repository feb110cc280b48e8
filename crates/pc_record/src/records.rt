//! Records: lists the transactions whose records the range keeps, so that somebody can finish what a gone session left.

ghost use Rattle.std.specs.Prelude.{◌≡◌, IfOk};
ghost use Rattle.pc_proto.specs.RecordRows.Reached.{at_epoch};
ghost use Rattle.pc_proto.specs.RecordRows.Records.{listed_metas};

use pc_base::{Items, NoMemory, TryCopy, TxnId};
use pc_proto::{Metas, Record, TxnMeta};
use std::alloc::Global;
use std::collections::BTreeMap;

/// The records' metas by transaction, each with its record's epoch.
pub(crate) fn listed(alloc: Global, records: &BTreeMap<TxnId, Record>) -> Result<Metas, NoMemory>
    ensures { IfOk result (λ made. made ≡ listed_metas records.now.entries) }
{
    let mut metas = Items::new(alloc);
    for (_, record) in records {
        metas.add(meta_of(record)?)?;
    }
    Ok(metas)
}

/// The record's meta, in the record's epoch.
fn meta_of(kept: &Record) -> Result<TxnMeta, NoMemory>
    ensures { IfOk result (λ made. made ≡ at_epoch kept.now.status.epoch kept.now.meta) }
{
    let mut meta = kept.meta.copy()?;
    meta.epoch = kept.status.epoch;
    Ok(meta)
}
