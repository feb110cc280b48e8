ghost use Rattle.std.specs.Prelude.{◌≡◌, IfOk, OnOk, OnErr, None, Some, false};
ghost use Rattle.std.specs.List.{last_or};
ghost use Rattle.std.specs.Option.{option_copied};
ghost use Rattle.pc_intent.specs.Coming.{comes_to, intent_then, stands_already};
ghost use Rattle.pc_intent.specs.Rising.{WritesRise};
ghost use Rattle.pc_proto.specs.Intents.{fresh, last_seq, last_value, value_by};
ghost use Rattle.pc_world.specs.Evaluation.Put.{is_overtaken_by, laid, put_change, put_reply};
ghost use Rattle.pc_world.specs.Evaluation.Query.{is_it};

use pc_base::{Items, Key, NoMemory, Timestamp, TryCopy, Value};
use pc_proto::{Intent, Reply, TxnMeta};
use std::alloc::Global;

/// A write's sequence and what it says.
type Write = (u32, Option<Value>);

/// The greatest sequence that the intent has.
fn last_seq(intent: &Intent) -> u32
    requires { WritesRise intent.now }
    ensures { result ≡ last_seq intent.now }
{
    last(intent.history.as_slice()).map_or(0, |write| write.0)
}

/// What the intent's write of the greatest sequence says.
pub(crate) fn last_value(intent: &Intent) -> Option<&Option<Value>>
    requires { WritesRise intent.now }
    ensures { option_copied result ≡ last_value intent.now }
{
    let write = last(intent.history.as_slice())?;
    Some(&write.1)
}

/// What the intent's write of the greatest sequence that is not above this one says.
pub(crate) fn value_by(intent: &Intent, seq: u32) -> Option<&Option<Value>>
    requires { WritesRise intent.now }
    ensures { option_copied result ≡ value_by seq intent.now }
{
    let history = intent.history.as_slice();
    let count = history.partition_point(|write| write.0 <= seq);
    let write = last(&history[..count])?;
    Some(&write.1)
}

fn last(writes: &[Write]) -> Option<&Write>
    ensures { option_copied result ≡ last_or None writes.now }
{
    writes.last()
}

/// Whether the intent is of this epoch, has this sequence or a later one, and lies at or below this timestamp.
pub(crate) fn is_it(intent: &Intent, epoch: u32, seq: u32, ts: Timestamp) -> bool
    requires { WritesRise intent.now }
    ensures { result ≡ is_it epoch seq ts intent.now }
{
    intent.meta.epoch == epoch && seq <= last_seq(intent) && intent.ts <= ts
}

/// What a put comes to at a key where this intent stands. Where the write stands already, it wants no memory.
pub(crate) fn put_there(
    alloc: Global,
    intent: &mut Intent,
    meta: &TxnMeta,
    seq: u32,
    ts: Timestamp,
    key: &Key,
    value: &Option<Value>,
) -> Result<Reply, NoMemory>
    requires { WritesRise intent.old }
    ensures reply { IfOk result (λ made. made ≡ put_reply key.now (comes_to meta.now seq ts value.now (Some intent.old))) }
    ensures after { OnOk result (intent.new ≡ intent_then (put_change (comes_to meta.now seq ts value.now (Some intent.old))) intent.old) }
    ensures err { OnErr result (intent.new ≡ intent.old) }
    ensures stands { OnErr result (stands_already meta.now seq intent.old ≡ false) }
{
    if intent.meta.id != meta.id {
        return conflict(intent, key);
    }
    if is_overtaken_by(meta, seq, intent) {
        return Ok(Reply::Written { ts: intent.ts });
    }
    let ts = ts.max(intent.ts);
    add_write(alloc, intent, meta.copy()?, seq, ts, value.copy()?)?;
    Ok(Reply::Written { ts })
}

/// Another's intent stands in the way.
pub fn conflict(other: &Intent, key: &Key) -> Result<Reply, NoMemory>
    ensures { IfOk result (λ made. made ≡ Reply.Conflict other.now.meta other.now.ts key.now) }
{
    let holder = other.meta.copy()?;
    let key = key.copy()?;
    Ok(Reply::Conflict {
        holder,
        ts: other.ts,
        key,
    })
}

/// Whether the transaction's own intent is of a later epoch, or has this sequence or a later one already.
fn is_overtaken_by(meta: &TxnMeta, seq: u32, own: &Intent) -> bool
    requires { WritesRise own.now }
    ensures { result ≡ is_overtaken_by meta.now seq own.now }
{
    let (epoch, at) = (meta.epoch, own.meta.epoch);
    epoch < at || at == epoch && seq <= last_seq(own)
}

/// Adds a write to the transaction's own intent, or begins the intent anew where it is of another epoch.
fn add_write(
    alloc: Global,
    intent: &mut Intent,
    meta: TxnMeta,
    seq: u32,
    ts: Timestamp,
    value: Option<Value>,
) -> Result<(), NoMemory>
    ensures ok { OnOk result (intent.new ≡ laid meta seq ts value (Some intent.old)) }
    ensures err { OnErr result (intent.new ≡ intent.old) }
{
    if intent.meta.epoch == meta.epoch {
        intent.history.add((seq, value))?;
        intent.ts = ts;
    } else {
        *intent = fresh(alloc, meta, seq, ts, value)?;
    }
    Ok(())
}

/// A new intent of a copy of one write.
pub(crate) fn first(
    alloc: Global,
    meta: &TxnMeta,
    seq: u32,
    ts: Timestamp,
    value: &Option<Value>,
) -> Result<Intent, NoMemory>
    ensures { IfOk result (λ made. made ≡ fresh meta.now seq ts value.now) }
{
    fresh(alloc, meta.copy()?, seq, ts, value.copy()?)
}

/// A new intent of one write.
fn fresh(
    alloc: Global,
    meta: TxnMeta,
    seq: u32,
    ts: Timestamp,
    value: Option<Value>,
) -> Result<Intent, NoMemory>
    ensures { IfOk result (λ made. made ≡ fresh meta seq ts value) }
{
    let mut history = Items::new(alloc);
    history.add((seq, value))?;
    Ok(Intent { meta, ts, history })
}
