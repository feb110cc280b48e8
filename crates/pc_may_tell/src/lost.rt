//! Unavailable and Unknown: the last sends of one request were lost, and it may not be known whether the transaction committed.

ghost use Rattle.std.specs.Prelude.{◌≡◌, ◌↔◌, ◌⊎◌, ◌<◌, true, Any, Contains, IsTrue, not, reverse};
ghost use Rattle.pc_proto.specs.Requests.{is_put_of};
ghost use Rattle.pc_world.specs.Known.Writes.{is_proved};
ghost use Rattle.pc_known.specs.Sends.{KeepsSends};
ghost use Rattle.pc_knowledge.specs.Keeping.{KeepsKnowledge};
ghost use Rattle.pc_may_tell.specs.Losing.{IsUnprovedIn, WasSentLost};
ghost use Rattle.pc_world.specs.Known.{Known};
ghost use Rattle.pc_world.specs.Known.Transactions.{Txn};
ghost use Rattle.pc_world.specs.StageFate.{IsCommitWith, IsDead, IsStageWith, SomeCommit, SomeStage, WasCommitRefused};
ghost use Rattle.pc_world.specs.SameRequest.{IsSameMessage};
ghost use Rattle.pc_world.specs.Tell.Refusal.{AreLastLost, IsUnprovedPut, MayHaveCommitted, MayTellUnavailable, MayTellUnknown, WasLost, is_heard};

use crate::end::is_commit_of;
use crate::refusal::{is_uncommitted_in, left_after};
use crate::same::is_same_message;
use pc_base::TxnId;
use pc_files::put_by;
use pc_knowledge::{Knowledge, is_put_of};
use pc_known::fate::{Commit, Stage};
use pc_known::{Hearing, Message, Open, Sends};
use pc_own::{OwnTxn, OwnWrite};
use pc_proto::{Call, Request};

/// Whether the message is one of those that are left to count, and was heard.
fn is_heard_yet(sends: &Sends<'_>, left: u32, same: bool, message: &Message<'_>) -> bool
    ensures { (k : Known) → KeepsSends k sends.now → IsTrue result ↔ ((0 < left) × (same ≡ true) × (is_heard k.heard message.now ≡ true)) }
{
    left > 0 && same && was_heard(sends, message)
}

fn was_heard(sends: &Sends<'_>, message: &Message<'_>) -> bool
    ensures { (k : Known) → KeepsSends k sends.now → result ≡ is_heard k.heard message.now }
{
    sends.was_heard(message.number)
}

/// Whether the last so many messages of this request among these, which are all or the first of those that were sent, were not heard.
fn are_last_lost(
    sends: &Sends<'_>,
    message: &Message<'_>,
    sent: &[Message<'_>],
    faults: u32,
) -> bool
    ensures { (k : Known) → KeepsSends k sends.now → IsTrue result ↔ AreLastLost k.heard message.now (reverse sent.now) faults }
{
    let mut left = faults;
    for back in 0..sent.len() {
        let last = &sent[sent.len() - 1 - back];
        let same = is_same_message(message, last);
        if is_heard_yet(sends, left, same, last) {
            return false;
        }
        left = left_after(left, same);
    }
    left == 0
}

fn is_unproved_put(t: &OwnTxn<'_>, write: &OwnWrite<'_>, request: &Request) -> bool
    ensures { IsTrue result ↔ (IsTrue (not (is_proved write.now)) × IsTrue (is_put_of t.now.id t.now.epoch write.now.seq request.now)) }
{
    match request {
        Request::Put { meta, seq, .. } => {
            !write.is_proved()
                && (meta.id == t.id() && (t.is_epoch(meta.epoch) && *seq == write.seq))
        }
        _ => false,
    }
}

/// Whether the request is a put of one of the transaction's writes that is not proved.
fn is_unproved_in(t: &OwnTxn<'_>, request: &Request) -> bool
    ensures { IsTrue result ↔ IsUnprovedIn t.now request.now }
{
    t.writes()
        .as_slice()
        .iter()
        .any(|write| is_unproved_put(t, write, request))
}

/// Whether the actor has a transaction of this id, and the request puts one of its writes that is not proved.
fn is_unproved_of(known: &Knowledge<'_>, id: TxnId, request: &Request) -> bool
    ensures { (k : Known) → KeepsKnowledge k known.now → IsTrue result ↔ ((t : Txn) × (Contains k.txns t × (t.id ≡ id)) × IsUnprovedIn t request.now) }
{
    match known.own_txn(id) {
        Some(t) => is_unproved_in(t, request),
        None => false,
    }
}

fn is_own_unproved(known: &Knowledge<'_>, request: &Request) -> bool
    ensures { (k : Known) → KeepsKnowledge k known.now → IsTrue result ↔ ((t : Txn) × Contains k.txns t × IsUnprovedIn t request.now) }
{
    match put_by(request) {
        Some(id) => is_unproved_of(known, id, request),
        None => false,
    }
}

fn is_own_unproved_put(known: &Knowledge<'_>, message: &Message<'_>) -> bool
    ensures { (k : Known) → KeepsKnowledge k known.now → IsTrue result ↔ IsUnprovedPut k.txns message.now }
{
    is_own_unproved(known, message.request)
}

fn is_one_of(message: &Message<'_>, messages: &[Message<'_>]) -> bool
    ensures { IsTrue result ↔ Any (IsSameMessage message.now) messages.now }
{
    messages.iter().any(|other| is_same_message(message, other))
}

/// Whether the message was sent in the open call, or puts a write that is not proved, and its last so many sends were lost.
fn was_sent_lost(known: &Knowledge<'_>, message: &Message<'_>, faults: u32) -> bool
    ensures { (k : Known) → KeepsKnowledge k known.now → IsTrue result ↔ WasSentLost k faults message.now }
{
    let (_, now) = known.sends().halves();
    (is_one_of(message, now) || is_own_unproved_put(known, message))
        && are_last_lost(known.sends(), message, known.sent(), faults)
}

fn some_was_sent_lost(known: &Knowledge<'_>, messages: &[Message<'_>], faults: u32) -> bool
    ensures { (k : Known) → KeepsKnowledge k known.now → IsTrue result ↔ Any (WasSentLost k faults) messages.now }
{
    messages
        .iter()
        .any(|message| was_sent_lost(known, message, faults))
}

/// Whether the last so many sends of one request were lost.
fn was_lost(known: &Knowledge<'_>, faults: u32) -> bool
    ensures { (k : Known) → KeepsKnowledge k known.now → IsTrue result ↔ WasLost k faults }
{
    faults >= 1 && some_was_sent_lost(known, known.sent(), faults)
}

/// Whether the call may be told that so many sends of one request were lost.
pub(crate) fn may_tell_unavailable(known: &Knowledge<'_>, call: &Open<'_>, faults: u32) -> bool
    ensures { (k : Known) → KeepsKnowledge k known.now → IsTrue result ↔ MayTellUnavailable k call.now faults }
{
    !matches!(call.call, Call::Rollback)
        && !matches!(call.call, Call::Round)
        && was_lost(known, faults)
        && is_uncommitted_in(known, call.call)
}

fn is_live_stage(id: TxnId, heard: &[Hearing<'_>], request: &Request) -> bool
    ensures { IsTrue result ↔ IsStageWith id (λ s. IsDead heard.now s → ⊥) request.now }
{
    match request {
        Request::Stage {
            meta,
            ts,
            now,
            writes,
            locks,
        } => {
            let stage = Stage {
                meta,
                ts: *ts,
                reading: *now,
                writes,
                locks,
            };
            meta.id == id && !stage.is_dead(heard)
        }
        _ => false,
    }
}

fn some_live_stage(id: TxnId, sent: &[Message<'_>], heard: &[Hearing<'_>]) -> bool
    ensures { IsTrue result ↔ SomeStage id sent.now (λ s. IsDead heard.now s → ⊥) }
{
    sent.iter()
        .any(|message| is_live_stage(id, heard, message.request))
}

fn is_live_commit(id: TxnId, heard: &[Hearing<'_>], request: &Request) -> bool
    ensures { IsTrue result ↔ IsCommitWith id (λ c. WasCommitRefused heard.now c → ⊥) request.now }
{
    match request {
        Request::Commit { meta, ts, locks } => {
            let commit = Commit {
                meta,
                ts: *ts,
                locks,
            };
            meta.id == id && !commit.is_refused(heard)
        }
        _ => false,
    }
}

fn some_live_commit(id: TxnId, sent: &[Message<'_>], heard: &[Hearing<'_>]) -> bool
    ensures { IsTrue result ↔ SomeCommit id sent.now (λ c. WasCommitRefused heard.now c → ⊥) }
{
    sent.iter()
        .any(|message| is_live_commit(id, heard, message.request))
}

fn is_doubtful(id: TxnId, sent: &[Message<'_>], heard: &[Hearing<'_>]) -> bool
    ensures { IsTrue result ↔ (SomeStage id sent.now (λ s. IsDead heard.now s → ⊥) ⊎ SomeCommit id sent.now (λ c. WasCommitRefused heard.now c → ⊥)) }
{
    some_live_stage(id, sent, heard) || some_live_commit(id, sent, heard)
}

/// Whether the transaction may have committed: a stage was sent that is not dead, or a commit that was not refused.
fn may_have_committed(known: &Knowledge<'_>, id: TxnId) -> bool
    ensures { (k : Known) → KeepsKnowledge k known.now → IsTrue result ↔ MayHaveCommitted k id }
{
    is_doubtful(id, known.deciding(id), known.replies(id))
}

fn is_lost_in_doubt(known: &Knowledge<'_>, id: TxnId) -> bool
    ensures { (k : Known) → KeepsKnowledge k known.now → IsTrue result ↔ (WasLost k 1 × MayHaveCommitted k id) }
{
    was_lost(known, 1) && may_have_committed(known, id)
}

fn is_unknown(known: &Knowledge<'_>, call: &Open<'_>, t: &OwnTxn<'_>, id: TxnId) -> bool
    ensures { (k : Known) → KeepsKnowledge k known.now → IsTrue result ↔ (((call.now.call ≡ Call.Commit) × (id ≡ t.now.id)) × (WasLost k 1 × MayHaveCommitted k id)) }
{
    is_commit_of(call, t, id) && is_lost_in_doubt(known, id)
}

/// Whether the call may be told that it is not known whether the transaction committed.
pub(crate) fn may_tell_unknown(known: &Knowledge<'_>, call: &Open<'_>, id: TxnId) -> bool
    ensures { (k : Known) → KeepsKnowledge k known.now → IsTrue result ↔ MayTellUnknown k call.now id }
{
    match known.open_txn() {
        None => false,
        Some(t) => is_unknown(known, call, t, id),
    }
}
