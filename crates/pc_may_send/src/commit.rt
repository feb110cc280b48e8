//! Commit: by a commit whose writes are all proved at or below its timestamp and whose reads are good there; after the transaction was
//! told committed; or where it was heard that it is.

ghost use Rattle.std.specs.Prelude.{◌≡◌, ◌≢◌, ◌↔◌, ◌⊎◌, All, Contains, IsTrue, Some};
ghost use Rattle.pc_knowledge.specs.Keeping.{KeepsKnowledge};
ghost use Rattle.pc_world.specs.Known.{Known, call_of, open_txn};
ghost use Rattle.pc_world.specs.Known.Transactions.{IsGood, IsMetaOf, Txn};
ghost use Rattle.pc_world.specs.Known.Writes.{IsProvedBy};
ghost use Rattle.pc_world.specs.Views.{WasCommitted};
ghost use Rattle.pc_may_send.specs.Deciding.{IsCommitBy, IsReadyToCommit};
ghost use Rattle.pc_world.specs.Send.Commit.{MayDecide, MaySendCommit};
ghost use Rattle.pc_world.specs.StageFate.{EachCommit, EachStage, IsLate, OnCommit, OnStage, WasCommitRefused};

use crate::call::asks_commit;
use pc_base::{Timestamp, TxnId};
use pc_knowledge::{Knowledge, are_proved_by, is_good, was_committed};
use pc_known::fate::{Commit, Stage};
use pc_known::{Hearing, Message, number};
use pc_own::{OwnTxn, Writes};
use pc_proto::{Call, Request};

/// Whether the request is no stage of the transaction at another timestamp, unless that is late.
fn is_late_elsewhere(id: TxnId, heard: &[Hearing<'_>], ts: Timestamp, request: &Request) -> bool
    ensures { IsTrue result ↔ OnStage id (λ s. s.ts ≢ ts → IsLate heard.now s) request.now }
{
    match request {
        Request::Stage {
            meta,
            ts: at,
            now,
            writes,
            locks,
        } => {
            let stage = Stage {
                meta,
                ts: *at,
                reading: *now,
                writes,
                locks,
            };
            meta.id != id || *at == ts || stage.is_late(heard)
        }
        _ => true,
    }
}

fn are_late_elsewhere(id: TxnId, sent: &[Message<'_>], heard: &[Hearing<'_>], ts: Timestamp) -> bool
    ensures { IsTrue result ↔ EachStage id sent.now (λ s. s.ts ≢ ts → IsLate heard.now s) }
{
    sent.iter().all(|message| is_late_elsewhere(id, heard, ts, message.request))
}

/// Whether the request is no commit of the transaction at another timestamp, unless that was refused.
fn is_refused_elsewhere(id: TxnId, heard: &[Hearing<'_>], ts: Timestamp, request: &Request) -> bool
    ensures { IsTrue result ↔ OnCommit id (λ c. c.ts ≢ ts → WasCommitRefused heard.now c) request.now }
{
    match request {
        Request::Commit {
            meta,
            ts: at,
            locks,
        } => {
            let commit = Commit {
                meta,
                ts: *at,
                locks,
            };
            meta.id != id || *at == ts || commit.is_refused(heard)
        }
        _ => true,
    }
}

fn are_refused_elsewhere(
    id: TxnId,
    sent: &[Message<'_>],
    heard: &[Hearing<'_>],
    ts: Timestamp,
) -> bool
    ensures { IsTrue result ↔ EachCommit id sent.now (λ c. c.ts ≢ ts → WasCommitRefused heard.now c) }
{
    sent.iter().all(|message| is_refused_elsewhere(id, heard, ts, message.request))
}

/// Whether this is the id of the open transaction.
fn is_open(known: &Knowledge<'_>, id: TxnId) -> bool
    ensures { (k : Known) → KeepsKnowledge k known.now → IsTrue result ↔ ((t : Txn) × (open_txn k ≡ Some t) × (t.id ≡ id)) }
{
    match known.open_txn() {
        Some(t) => t.id() == id,
        None => false,
    }
}

/// Whether the actor's own transaction is open, in a commit.
fn is_in_commit(known: &Knowledge<'_>, id: TxnId) -> bool
    ensures { (k : Known) → KeepsKnowledge k known.now → IsTrue result ↔ (((t : Txn) × (open_txn k ≡ Some t) × (t.id ≡ id)) × (call_of k ≡ Some Call.Commit)) }
{
    is_open(known, id) && is_commit(known)
}

fn is_commit(known: &Knowledge<'_>) -> bool
    ensures { (k : Known) → KeepsKnowledge k known.now → IsTrue result ↔ (call_of k ≡ Some Call.Commit) }
{
    asks_commit(known.call())
}

/// Whether it was told that it committed at this timestamp.
fn was_told(t: &OwnTxn<'_>, ts: Timestamp) -> bool
    ensures { IsTrue result ↔ (t.now.committed ≡ Some ts) }
{
    t.committed() == Some(ts)
}

/// Whether the actor's own transaction is in a commit, or was told that it committed at this timestamp.
fn may_commit(known: &Knowledge<'_>, t: &OwnTxn<'_>, ts: Timestamp) -> bool
    ensures { (k : Known) → KeepsKnowledge k known.now → IsTrue result ↔ ((((u : Txn) × (open_txn k ≡ Some u) × (u.id ≡ t.now.id)) × (call_of k ≡ Some Call.Commit)) ⊎ (t.now.committed ≡ Some ts)) }
{
    is_in_commit(known, t.id()) || was_told(t, ts)
}

/// Whether the transaction's write timestamp is this one, and its reads are good there.
fn is_good_there<'a>(known: &Knowledge<'a>, t: &OwnTxn<'a>, ts: Timestamp) -> bool
    ensures { (k : Known) → KeepsKnowledge k known.now → IsTrue result ↔ ((ts ≡ t.now.write_ts) × IsGood k.heard t.now ts) }
{
    is_write_ts(t, ts) && is_good(known, t, ts)
}

fn is_write_ts(t: &OwnTxn<'_>, ts: Timestamp) -> bool
    ensures { IsTrue result ↔ (ts ≡ t.now.write_ts) }
{
    number(ts) == t.write_ts()
}

fn are_writes_proved_by(writes: &Writes<'_>, ts: Timestamp) -> bool
    ensures { IsTrue result ↔ All (IsProvedBy ts) writes.now }
{
    are_proved_by(writes.as_slice(), ts)
}

/// Whether its reads are good and its writes are proved at this timestamp, at which it writes.
fn is_done_there<'a>(known: &Knowledge<'a>, t: &OwnTxn<'a>, ts: Timestamp) -> bool
    ensures { (k : Known) → KeepsKnowledge k known.now → IsTrue result ↔ (((ts ≡ t.now.write_ts) × IsGood k.heard t.now ts) × All (IsProvedBy ts) t.now.writes) }
{
    is_good_there(known, t, ts) && are_writes_proved_by(t.writes(), ts)
}

/// Whether each stage and each commit of the transaction at another timestamp is known to have come to nothing.
fn is_nothing_elsewhere(
    id: TxnId,
    sent: &[Message<'_>],
    heard: &[Hearing<'_>],
    ts: Timestamp,
) -> bool
    ensures { IsTrue result ↔ (EachStage id sent.now (λ s. s.ts ≢ ts → IsLate heard.now s) × EachCommit id sent.now (λ c. c.ts ≢ ts → WasCommitRefused heard.now c)) }
{
    are_late_elsewhere(id, sent, heard, ts) && are_refused_elsewhere(id, sent, heard, ts)
}

fn is_nothing_elsewhere_now(known: &Knowledge<'_>, id: TxnId, ts: Timestamp) -> bool
    ensures { (k : Known) → KeepsKnowledge k known.now → IsTrue result ↔ (EachStage id k.sent (λ s. s.ts ≢ ts → IsLate k.heard s) × EachCommit id k.sent (λ c. c.ts ≢ ts → WasCommitRefused k.heard c)) }
{
    is_nothing_elsewhere(id, known.deciding(id), known.replies(id), ts)
}

/// Whether, apart from what it was asked and told, the session knows by itself that its transaction may commit at this timestamp.
fn is_decided<'a>(known: &Knowledge<'a>, t: &OwnTxn<'a>, ts: Timestamp) -> bool
    ensures { (k : Known) → KeepsKnowledge k known.now → IsTrue result ↔ IsReadyToCommit k.sent k.heard ts t.now }
{
    is_done_there(known, t, ts) && is_nothing_elsewhere_now(known, t.id(), ts)
}

/// Whether the session knows by itself that its own transaction may commit at this timestamp.
fn may_decide<'a>(known: &Knowledge<'a>, t: &OwnTxn<'a>, ts: Timestamp) -> bool
    ensures { (k : Known) → KeepsKnowledge k known.now → Contains k.txns t.now → IsTrue result ↔ MayDecide k t.now ts }
{
    may_commit(known, t, ts) && is_decided(known, t, ts)
}

fn was_committed_so(known: &Knowledge<'_>, t: &OwnTxn<'_>, ts: Timestamp) -> bool
    ensures { (k : Known) → KeepsKnowledge k known.now → IsTrue result ↔ WasCommitted k.heard t.now.id ts }
{
    was_committed(known.replies(t.id()), t.id(), ts)
}

fn may_commit_at<'a>(known: &Knowledge<'a>, t: &OwnTxn<'a>, ts: Timestamp) -> bool
    ensures { (k : Known) → KeepsKnowledge k known.now → Contains k.txns t.now → IsTrue result ↔ (MayDecide k t.now ts ⊎ WasCommitted k.heard t.now.id ts) }
{
    may_decide(known, t, ts) || was_committed_so(known, t, ts)
}

fn may_commit_by<'a>(known: &Knowledge<'a>, t: &OwnTxn<'a>, commit: &Commit<'_>) -> bool
    ensures { (k : Known) → KeepsKnowledge k known.now → Contains k.txns t.now → IsTrue result ↔ (MayDecide k t.now commit.now.ts ⊎ WasCommitted k.heard t.now.id commit.now.ts) }
{
    may_commit_at(known, t, commit.ts)
}

fn is_commit_of(t: &OwnTxn<'_>, commit: &Commit<'_>) -> bool
    ensures { IsTrue result ↔ (IsMetaOf t.now commit.now.meta × (commit.now.locks ≡ t.now.locks)) }
{
    t.is_meta(commit.meta) && t.locks().are(commit.locks)
}

fn may_send_own<'a>(known: &Knowledge<'a>, t: &OwnTxn<'a>, commit: &Commit<'_>) -> bool
    ensures { (k : Known) → KeepsKnowledge k known.now → Contains k.txns t.now → IsTrue result ↔ IsCommitBy k commit.now t.now }
{
    is_commit_of(t, commit) && may_commit_by(known, t, commit)
}

/// Whether a transaction of the session may send this commit.
pub fn may_send_commit(known: &Knowledge<'_>, commit: &Commit<'_>) -> bool
    ensures { (k : Known) → KeepsKnowledge k known.now → IsTrue result ↔ MaySendCommit k commit.now }
{
    match known.own_txn(commit.meta.id) {
        None => false,
        Some(t) => may_send_own(known, t, commit),
    }
}
