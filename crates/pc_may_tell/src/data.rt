//! Value and Written: what was heard in the open call to its get; and a write, once it was sent.

ghost use Rattle.std.specs.Prelude.{◌≡◌, ◌↔◌, Any, IsTrue, false, not};
ghost use Rattle.std.specs.List.{list_any};
ghost use Rattle.std.specs.Option.{option_copied, option_map_or};
ghost use Rattle.pc_known.specs.Sends.{is_number_now};
ghost use Rattle.pc_knowledge.specs.Keeping.{KeepsKnowledge};
ghost use Rattle.pc_may_tell.specs.Heard.{HasValueNow, IsFirstAfter, IsGetCall};
ghost use Rattle.pc_proto.specs.Requests.{is_put_of};
ghost use Rattle.pc_world.specs.Known.{Known};
ghost use Rattle.pc_world.specs.Tell.Data.{IsValueOf, MayTellValue, MayTellWritten, sent_before, was_sent_now};

use pc_base::{TxnId, Value};
use pc_knowledge::{Knowledge, asks_for, same_value};
use pc_known::{Hearing, Message, Open, Sends};
use pc_own::OwnTxn;
use pc_proto::{Call, Reply, Request};

/// Whether the reply to a get has this value.
fn is_value_of(value: Option<&Value>, request: &Request, reply: &Reply) -> bool
    ensures { IsTrue result ↔ IsValueOf (option_copied value.entry) request.now reply.now }
{
    match (request, reply) {
        (Request::Get { .. }, Reply::Value { value: found, .. }) => {
            same_value(found.as_ref(), value)
        }
        _ => false,
    }
}

fn has_value_now(sends: &Sends<'_>, value: Option<&Value>, hearing: &Hearing<'_>) -> bool
    ensures { IsTrue result ↔ HasValueNow sends.now (option_copied value.entry) hearing.now }
{
    sends.was_sent_now(hearing.number) && is_value_of(value, hearing.request, hearing.reply)
}

/// Whether one of these replies to the messages of the open call has the value.
fn some_has_value_now(sends: &Sends<'_>, value: Option<&Value>, heard: &[Hearing<'_>]) -> bool
    ensures { IsTrue result ↔ Any (HasValueNow sends.now (option_copied value.entry)) heard.now }
{
    heard
        .iter()
        .any(|hearing| has_value_now(sends, value, hearing))
}

fn is_get(call: &Open<'_>) -> bool
    ensures { IsTrue result ↔ IsGetCall call.now }
{
    matches!(call.call, Call::Get(_))
}

/// Whether a reply to a get of the open call with this value was heard in it.
fn was_value_heard(known: &Knowledge<'_>, value: Option<&Value>) -> bool
    ensures { (k : Known) → KeepsKnowledge k known.now → IsTrue result ↔ Any (λ h. IsTrue (was_sent_now k h) × IsValueOf (option_copied value.entry) h.request h.reply) k.heard_now }
{
    some_has_value_now(known.sends(), value, known.heard_now())
}

/// Whether the call may be told this value.
pub(crate) fn may_tell_value(known: &Knowledge<'_>, call: &Open<'_>, value: Option<&Value>) -> bool
    ensures { (k : Known) → KeepsKnowledge k known.now → IsTrue result ↔ MayTellValue k call.now (option_copied value.entry) }
{
    is_get(call) && was_value_heard(known, value)
}

/// Whether this is the number of a message that was sent before the last call was asked, where it is that of one that was sent.
fn is_before(sends: &Sends<'_>, first: Option<u64>) -> bool
    ensures { result ≡ option_map_or (λ number. not (is_number_now sends.now number)) first false }
{
    match first {
        Some(number) => !sends.was_sent_now(number),
        None => false,
    }
}

/// Whether a put of this write was sent before the last call was asked.
fn was_put(known: &Knowledge<'_>, id: TxnId, epoch: u32, seq: u32) -> bool
    ensures { (k : Known) → KeepsKnowledge k known.now → result ≡ list_any (λ other. is_put_of id epoch seq other.request) (sent_before k) }
{
    is_before(known.sends(), known.first_put(id, epoch, seq))
}

/// Whether the message is a put of the call's write, under a sequence that was not sent before the call.
fn is_first_after(known: &Knowledge<'_>, call: &Call, t: &OwnTxn<'_>, message: &Message<'_>) -> bool
    ensures { (k : Known) → KeepsKnowledge k known.now → IsTrue result ↔ IsFirstAfter (sent_before k) call.now t.now message.now }
{
    match message.request {
        Request::Put {
            meta,
            seq,
            key,
            value,
            ..
        } => {
            meta.id == t.id()
                && t.is_epoch(meta.epoch)
                && asks_for(Some(call), key, value.as_ref())
                && !was_put(known, meta.id, meta.epoch, *seq)
        }
        _ => false,
    }
}

fn some_is_first_after(
    known: &Knowledge<'_>,
    call: &Call,
    t: &OwnTxn<'_>,
    messages: &[Message<'_>],
) -> bool
    ensures { (k : Known) → KeepsKnowledge k known.now → IsTrue result ↔ Any (IsFirstAfter (sent_before k) call.now t.now) messages.now }
{
    messages
        .iter()
        .any(|message| is_first_after(known, call, t, message))
}

/// Whether the call may be told that it has written.
pub(crate) fn may_tell_written(known: &Knowledge<'_>, call: &Open<'_>) -> bool
    ensures { (k : Known) → KeepsKnowledge k known.now → IsTrue result ↔ MayTellWritten k call.now }
{
    match known.open_txn() {
        None => false,
        Some(t) => {
            let (_, now) = known.sends().halves();
            some_is_first_after(known, call.call, t, now)
        }
    }
}
