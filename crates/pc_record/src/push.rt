//! Push: aborts or moves a transaction that stands in the way. It closes the race between one that waits and one that went
//! away: a holder of lower level, or one that shows no more life, gives way. A push that wins against a STAGING record
//! decides nothing, since the holder may be committed already: a recovery must find out.

ghost use Rattle.std.specs.Prelude.{◌≡◌, IfOk, OnOk, OnErr};
ghost use Rattle.pc_proto.specs.RecordRows.{record_reply, table_after};
ghost use Rattle.pc_proto.specs.RecordRows.Push.{level_rank, pushed, reaches_goal, wins};
ghost use Rattle.pc_record.specs.RecordOf.{becoming};

use crate::place::Place;
use crate::table::RecordTable;
use pc_base::limits::EXPIRY;
use pc_base::{Items, NoMemory, Priority, TryCopy, Who};
use pc_proto::{Goal, Record, Reply, Request, Standing, Status, TxnMeta, Why};
use std::alloc::Global;

pub(crate) fn push(
    table: &mut RecordTable,
    holder: &TxnMeta,
    by: Who,
    level: Priority,
    now: u64,
    goal: Goal,
) -> Result<Reply, NoMemory>
    ensures reply { IfOk result (λ made. made ≡ record_reply (Request.Push holder.now by level now goal) table.old) }
    ensures after { OnOk result (table.new ≡ table_after (Request.Push holder.now by level now goal) table.old) }
    ensures err { OnErr result (table.new ≡ table.old) }
{
    let alloc = table.alloc();
    let place = table.place(holder.id);
    if place.is_decided() || is_there(&place, goal) {
        return Ok(Reply::Status(place.view(alloc)?));
    }
    if !wins(&place, holder, level, now) {
        return Ok(Reply::Refused(place.view(alloc)?));
    }
    if place.is_staged() {
        return Ok(Reply::Unsure(place.view(alloc)?));
    }
    let record = pushed(alloc, &place, holder, by, goal)?;
    table.write(holder.id, Some(record))
}

/// Whether the record stands at the target or above it.
fn is_there(place: &Place<'_>, goal: Goal) -> bool
    ensures { result ≡ reaches_goal goal place.now }
{
    match goal {
        Goal::Abort => false,
        Goal::Move(target) => place.is_kept_at(target),
    }
}

/// Whether the level is higher than the holder's, or the holder has expired.
fn wins(place: &Place<'_>, holder: &TxnMeta, level: Priority, now: u64) -> bool
    ensures { result ≡ wins holder.now level now place.now }
{
    let silent = now.saturating_sub(place.activity_or(holder.born));
    rank(holder.priority) < rank(level) || EXPIRY < silent
}

fn rank(priority: Priority) -> u8
    ensures { result ≡ level_rank priority }
{
    match priority {
        Priority::Low => 0,
        Priority::Normal => 1,
        Priority::High => 2,
    }
}

/// The record that a push leaves which wins.
fn pushed(
    alloc: Global,
    place: &Place<'_>,
    holder: &TxnMeta,
    by: Who,
    goal: Goal,
) -> Result<Record, NoMemory>
    ensures { IfOk result (λ made. becoming (Some made) ≡ pushed holder.now by goal place.now) }
{
    let epoch = place.epoch_from(holder.epoch);
    let (standing, ts) = match goal {
        Goal::Abort => (Standing::Aborted(Why::Pushed { by }), place.ts()),
        Goal::Move(target) => (Standing::Pending, target),
    };
    let mut meta = holder.copy()?;
    meta.epoch = epoch;
    Ok(Record {
        meta,
        status: Status {
            standing,
            epoch,
            ts,
        },
        activity: place.activity_or(holder.born),
        writes: Items::new(alloc),
        locks: Items::new(alloc),
    })
}
