//! Committed, RolledBack, Aborted and Restart: how a transaction ends, or begins anew.

ghost use Rattle.std.specs.Prelude.{◌≡◌, ◌↔◌, ◌⊎◌, None, All, Any, IsTrue};
ghost use Rattle.pc_knowledge.specs.Keeping.{KeepsKnowledge};
ghost use Rattle.pc_proto.specs.declared.why.Why.{Why as cause};
ghost use Rattle.pc_proto.specs.Views.{AbortsWith};
ghost use Rattle.pc_world.specs.Known.{Known};
ghost use Rattle.pc_may_tell.specs.Ending.{HasCommitted, IsCauseHeard};
ghost use Rattle.pc_world.specs.Known.Transactions.{IsGood};
ghost use Rattle.pc_world.specs.Known.Writes.{IsProvedBy};
ghost use Rattle.pc_world.specs.Send.Abort.{own_cause};
ghost use Rattle.pc_world.specs.Tell.End.{IsUnrefreshed, MayTellAborted, MayTellCommitted, MayTellRestart, MayTellRolledBack, shows_staging};
ghost use Rattle.pc_world.specs.Views.{ShowsAborted, WasAborted, WasCommitted};

use pc_base::{Key, Timestamp, TxnId};
use pc_knowledge::{
    Knowledge, are_proved_by, is_good, is_own_cause, view_in, was_aborted, was_committed,
};
use pc_known::{Hearing, Open, is_about, is_key};
use pc_own::{OwnTxn, Writes};
use pc_proto::{Call, Reply, View, Why};

fn shows_own_staging(t: &OwnTxn<'_>, ts: Timestamp, hearing: &Hearing<'_>) -> bool
    ensures { result ≡ shows_staging t.now.id t.now.epoch ts hearing.now }
{
    match view_in(hearing.reply) {
        Some(View::Staging { epoch, ts: at, .. }) => {
            is_about(t.id(), hearing.request) && (t.is_epoch(*epoch) && *at == ts)
        }
        _ => false,
    }
}

fn was_own_staging(t: &OwnTxn<'_>, ts: Timestamp, heard: &[Hearing<'_>]) -> bool
    ensures { IsTrue result ↔ Any (λ h. IsTrue (shows_staging t.now.id t.now.epoch ts h)) heard.now }
{
    heard
        .iter()
        .any(|hearing| shows_own_staging(t, ts, hearing))
}

/// Whether the transaction has no writes, and its reads are good where it began.
fn is_unwritten<'a>(known: &Knowledge<'a>, t: &OwnTxn<'a>, ts: Timestamp) -> bool
    ensures { (k : Known) → KeepsKnowledge k known.now → IsTrue result ↔ (((t.now.anchor ≡ None) × (ts ≡ t.now.begin)) × IsGood k.heard t.now ts) }
{
    is_without_put(t, ts) && is_good(known, t, ts)
}

fn is_without_put(t: &OwnTxn<'_>, ts: Timestamp) -> bool
    ensures { IsTrue result ↔ ((t.now.anchor ≡ None) × (ts ≡ t.now.begin)) }
{
    t.anchor().is_none() && ts == t.begin()
}

fn are_writes_proved_by(writes: &Writes<'_>, ts: Timestamp) -> bool
    ensures { IsTrue result ↔ All (IsProvedBy ts) writes.now }
{
    are_proved_by(writes.as_slice(), ts)
}

/// Whether the record stages at this timestamp, and every write of the epoch is proved at or below it.
fn is_implicit(heard: &[Hearing<'_>], t: &OwnTxn<'_>, ts: Timestamp) -> bool
    ensures { IsTrue result ↔ (Any (λ h. IsTrue (shows_staging t.now.id t.now.epoch ts h)) heard.now × All (IsProvedBy ts) t.now.writes) }
{
    was_own_staging(t, ts, heard) && are_writes_proved_by(t.writes(), ts)
}

fn was_own_committed(heard: &[Hearing<'_>], t: &OwnTxn<'_>, ts: Timestamp) -> bool
    ensures { IsTrue result ↔ WasCommitted heard.now t.now.id ts }
{
    was_committed(heard, t.id(), ts)
}

fn was_heard_to_commit(heard: &[Hearing<'_>], t: &OwnTxn<'_>, ts: Timestamp) -> bool
    ensures { IsTrue result ↔ (WasCommitted heard.now t.now.id ts ⊎ (Any (λ h. IsTrue (shows_staging t.now.id t.now.epoch ts h)) heard.now × All (IsProvedBy ts) t.now.writes)) }
{
    was_own_committed(heard, t, ts) || is_implicit(heard, t, ts)
}

fn was_heard_so(known: &Knowledge<'_>, t: &OwnTxn<'_>, ts: Timestamp) -> bool
    ensures { (k : Known) → KeepsKnowledge k known.now → IsTrue result ↔ (WasCommitted k.heard t.now.id ts ⊎ (Any (λ h. IsTrue (shows_staging t.now.id t.now.epoch ts h)) k.heard × All (IsProvedBy ts) t.now.writes)) }
{
    was_heard_to_commit(known.replies(t.id()), t, ts)
}

/// Whether the transaction is known to have committed at this timestamp.
fn has_committed<'a>(known: &Knowledge<'a>, t: &OwnTxn<'a>, ts: Timestamp) -> bool
    ensures { (k : Known) → KeepsKnowledge k known.now → IsTrue result ↔ HasCommitted k.heard t.now ts }
{
    is_unwritten(known, t, ts) || was_heard_so(known, t, ts)
}

pub(crate) fn is_commit_of(call: &Open<'_>, t: &OwnTxn<'_>, id: TxnId) -> bool
    ensures { IsTrue result ↔ ((call.now.call ≡ Call.Commit) × (id ≡ t.now.id)) }
{
    matches!(call.call, Call::Commit) && id == t.id()
}

fn is_committed<'a>(
    known: &Knowledge<'a>,
    call: &Open<'_>,
    t: &OwnTxn<'a>,
    id: TxnId,
    ts: Timestamp,
) -> bool
    ensures { (k : Known) → KeepsKnowledge k known.now → IsTrue result ↔ (((call.now.call ≡ Call.Commit) × (id ≡ t.now.id)) × HasCommitted k.heard t.now ts) }
{
    is_commit_of(call, t, id) && has_committed(known, t, ts)
}

/// Whether the call may be told that the transaction committed at this timestamp.
pub(crate) fn may_tell_committed(
    known: &Knowledge<'_>,
    call: &Open<'_>,
    id: TxnId,
    ts: Timestamp,
) -> bool
    ensures { (k : Known) → KeepsKnowledge k known.now → IsTrue result ↔ MayTellCommitted k call.now id ts }
{
    match known.open_txn() {
        None => false,
        Some(t) => is_committed(known, call, t, id, ts),
    }
}

fn is_abort_view(view: &View) -> bool
    ensures { IsTrue result ↔ ((why : cause) × AbortsWith why view.now) }
{
    matches!(view, View::Aborted { .. })
}

fn shows_some_abort(id: TxnId, hearing: &Hearing<'_>) -> bool
    ensures { IsTrue result ↔ ((why : cause) × ShowsAborted id why hearing.now) }
{
    match view_in(hearing.reply) {
        Some(view) => is_about(id, hearing.request) && is_abort_view(view),
        None => false,
    }
}

fn was_aborted_somehow(id: TxnId, heard: &[Hearing<'_>]) -> bool
    ensures { IsTrue result ↔ Any (λ h. (why : cause) × ShowsAborted id why h) heard.now }
{
    heard.iter().any(|hearing| shows_some_abort(id, hearing))
}

/// Whether no ABORTED view of the transaction was heard, and this is its own cause.
fn is_own_cause_told(heard_now: &[Hearing<'_>], t: &OwnTxn<'_>, why: &Why) -> bool
    ensures { IsTrue result ↔ (((other : cause) → WasAborted heard_now.now t.now.id other → ⊥) × (why.now ≡ own_cause t.now.restart)) }
{
    was_not_aborted(t.id(), heard_now) && is_own_cause(why, t.restart())
}

fn was_not_aborted(id: TxnId, heard_now: &[Hearing<'_>]) -> bool
    ensures { IsTrue result ↔ ((other : cause) → WasAborted heard_now.now id other → ⊥) }
{
    !was_aborted_somehow(id, heard_now)
}

/// Whether a rollback is told this cause: that of an ABORTED view heard in it, else its own.
fn is_cause_told(heard_now: &[Hearing<'_>], t: &OwnTxn<'_>, why: &Why) -> bool
    ensures { IsTrue result ↔ IsCauseHeard heard_now.now t.now why.now }
{
    was_own_aborted(heard_now, t, why) || is_own_cause_told(heard_now, t, why)
}

fn was_own_aborted(heard: &[Hearing<'_>], t: &OwnTxn<'_>, why: &Why) -> bool
    ensures { IsTrue result ↔ WasAborted heard.now t.now.id why.now }
{
    was_aborted(heard, t.id(), why)
}

fn is_rollback_of(call: &Open<'_>, t: &OwnTxn<'_>, id: TxnId) -> bool
    ensures { IsTrue result ↔ ((call.now.call ≡ Call.Rollback) × (id ≡ t.now.id)) }
{
    matches!(call.call, Call::Rollback) && id == t.id()
}

fn is_rolled_back(
    call: &Open<'_>,
    t: &OwnTxn<'_>,
    heard_now: &[Hearing<'_>],
    id: TxnId,
    why: &Why,
) -> bool
    ensures { IsTrue result ↔ (((call.now.call ≡ Call.Rollback) × (id ≡ t.now.id)) × IsCauseHeard heard_now.now t.now why.now) }
{
    is_rollback_of(call, t, id) && is_cause_told(heard_now, t, why)
}

/// Whether the call may be told that the transaction was rolled back for this cause.
pub(crate) fn may_tell_rolled_back(
    known: &Knowledge<'_>,
    call: &Open<'_>,
    id: TxnId,
    why: &Why,
) -> bool
    ensures { (k : Known) → KeepsKnowledge k known.now → IsTrue result ↔ MayTellRolledBack k call.now id why.now }
{
    match known.open_txn() {
        None => false,
        Some(t) => is_rolled_back(call, t, known.heard_now(), id, why),
    }
}

/// Whether a view of the transaction was heard by which it was aborted for this cause.
fn was_aborted_ever(known: &Knowledge<'_>, t: &OwnTxn<'_>, why: &Why) -> bool
    ensures { (k : Known) → KeepsKnowledge k known.now → IsTrue result ↔ WasAborted k.heard t.now.id why.now }
{
    was_own_aborted(known.replies(t.id()), t, why)
}

/// Whether the call may be told that its transaction was aborted for this cause.
pub(crate) fn may_tell_aborted(known: &Knowledge<'_>, why: &Why) -> bool
    ensures { (k : Known) → KeepsKnowledge k known.now → IsTrue result ↔ MayTellAborted k why.now }
{
    match known.open_txn() {
        None => false,
        Some(t) => was_aborted_ever(known, t, why),
    }
}

fn is_unrefreshed(key: &Key, ts: Timestamp, reply: &Reply) -> bool
    ensures { IsTrue result ↔ IsUnrefreshed key.now ts reply.now }
{
    match reply {
        Reply::Unrefreshed { key: place, ts: at } => is_key(place, key) && *at == ts,
        _ => false,
    }
}

fn some_unrefreshed(key: &Key, ts: Timestamp, heard: &[Hearing<'_>]) -> bool
    ensures { IsTrue result ↔ Any (λ h. IsUnrefreshed key.now ts h.reply) heard.now }
{
    heard
        .iter()
        .any(|hearing| is_unrefreshed(key, ts, hearing.reply))
}

/// Whether the call may be told that this write makes its transaction restart.
pub(crate) fn may_tell_restart(
    known: &Knowledge<'_>,
    call: &Open<'_>,
    key: &Key,
    ts: Timestamp,
) -> bool
    ensures { (k : Known) → KeepsKnowledge k known.now → IsTrue result ↔ MayTellRestart k call.now key.now ts }
{
    match known.open_txn() {
        None => false,
        Some(t) => {
            matches!(call.call, Call::Commit)
                && some_unrefreshed(key, ts, known.heard_now())
                && known.is_uncommitted(t.id())
        }
    }
}
