//! Kinds of requests, and tests of one thing that several rules ask for.

ghost use Rattle.std.specs.Prelude.{◌≡◌, ◌↔◌, All, Any, IsTrue};
ghost use Rattle.std.specs.Option.{option_copied};
ghost use Rattle.pc_proto.specs.Requests.{is_push_of, is_put_of};
ghost use Rattle.pc_world.specs.Known.Writes.{IsProvedBy};
ghost use Rattle.pc_world.specs.Send.Abort.{own_cause};
ghost use Rattle.pc_world.specs.Send.Put.{AsksFor};
ghost use Rattle.pc_world.specs.Send.Recovery.{was_refused};

use crate::same::same_value;
use pc_base::{Key, Timestamp, TxnId, Value};
use pc_known::{Hearing, is_key};
use pc_own::{OwnWrite, Restart};
use pc_proto::{Call, Reply, Request, Why};

/// Whether the call asks for this write; no value is a deletion.
pub fn asks_for(call: Option<&Call>, key: &Key, value: Option<&Value>) -> bool
    ensures { IsTrue result ↔ AsksFor (option_copied call.entry) key.now (option_copied value.entry) }
{
    match (call, value) {
        (Some(Call::Delete(asked)), None) => is_key(asked, key),
        (Some(Call::Put(asked, laid)), Some(_)) => {
            is_key(asked, key) && same_value(Some(laid), value)
        }
        _ => false,
    }
}

/// Whether the request pushes this transaction.
pub fn is_push_of(id: TxnId, request: &Request) -> bool
    ensures { result ≡ is_push_of id request.now }
{
    match request {
        Request::Push { holder, .. } => holder.id == id,
        _ => false,
    }
}

/// Whether the request is a put of this write.
pub fn is_put_of(id: TxnId, epoch: u32, seq: u32, request: &Request) -> bool
    ensures { result ≡ is_put_of id epoch seq request.now }
{
    match request {
        Request::Put { meta, seq: at, .. } => {
            meta.id == id && (meta.epoch == epoch && *at == seq)
        }
        _ => false,
    }
}

/// Whether a push of this transaction was refused.
pub fn was_refused(id: TxnId, hearing: &Hearing<'_>) -> bool
    ensures { result ≡ was_refused id hearing.now }
{
    is_push_of(id, hearing.request) && matches!(hearing.reply, Reply::Refused(_))
}

/// Whether one of these replies refused a push of the transaction.
pub fn some_refused(id: TxnId, heard: &[Hearing<'_>]) -> bool
    ensures { IsTrue result ↔ Any (λ later. IsTrue (was_refused id later)) heard.now }
{
    heard.iter().any(|later| was_refused(id, later))
}

/// Whether each write of the epoch is proved at or below this timestamp.
pub fn are_proved_by(writes: &[OwnWrite<'_>], ts: Timestamp) -> bool
    ensures { IsTrue result ↔ All (IsProvedBy ts) writes.now }
{
    for write in writes {
        if !write.is_proved_by(ts) {
            return false;
        }
    }
    true
}

/// Whether a rollback aborts for this cause, after it was made to restart or not.
pub fn is_own_cause(why: &Why, restart: Option<&Restart<'_>>) -> bool
    ensures { IsTrue result ↔ (why.now ≡ own_cause (option_copied restart.entry)) }
{
    match (why, restart) {
        (Why::Client, None) => true,
        (Why::Refresh { key, ts }, Some(write)) => is_key(key, write.key) && *ts == write.ts,
        _ => false,
    }
}
