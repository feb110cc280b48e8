//! Resolve and Remove: an intent may be settled as its transaction's record was heard to be, and a final record removed once each of its
//! locks was settled.

ghost use Rattle.std.specs.Prelude.{◌≡◌, ◌↔◌, ℕ, Any, IsTrue, List, Some};
ghost use Rattle.pc_knowledge.specs.Keeping.{KeepsKnowledge};
ghost use Rattle.pc_may_send.specs.Settled.{IsFinalAbout, IsSettledBy, IsSettledFor};
ghost use Rattle.pc_proto.specs.Views.{HasLocks, IsFateOf};
ghost use Rattle.pc_world.specs.Known.{Known};
ghost use Rattle.pc_world.specs.Send.Settling.{AllResolved, MaySendRemove, MaySendResolve, ShowsFate, WasResolved};
ghost use Rattle.pc_world.specs.Views.{anchor_heard};

use pc_base::{Key, Timestamp, TxnId};
use pc_knowledge::{Knowledge, anchor_heard, view_in};
use pc_known::{Hearing, is_about, is_key};
use pc_own::{Lock, Locks};
use pc_proto::{Fate, Keys, Reply, Request, View};

/// Whether the fate is what the view says.
fn is_fate_of(view: &View, fate: Fate) -> bool
    ensures { IsTrue result ↔ IsFateOf view.now fate }
{
    match fate {
        Fate::Committed { epoch, ts } => is_committed(view, epoch, ts),
        Fate::Aborted => is_aborted(view),
        Fate::Pending { ts } => reaches(view, ts),
    }
}

fn is_committed(view: &View, epoch: u32, ts: Timestamp) -> bool
    ensures { IsTrue result ↔ IsFateOf view.now (Fate.Committed epoch ts) }
{
    match view {
        View::Committed {
            epoch: at_epoch,
            ts: at,
            ..
        } => epoch == *at_epoch && ts == *at,
        _ => false,
    }
}

fn is_aborted(view: &View) -> bool
    ensures { IsTrue result ↔ IsFateOf view.now Fate.Aborted }
{
    matches!(view, View::Aborted { .. })
}

/// Whether the view is of a transaction that is not settled, at this timestamp or above.
fn reaches(view: &View, ts: Timestamp) -> bool
    ensures { IsTrue result ↔ IsFateOf view.now (Fate.Pending ts) }
{
    match view {
        View::Pending { ts: at, .. } | View::Staging { ts: at, .. } => ts <= *at,
        _ => false,
    }
}

fn shows_fate(id: TxnId, fate: Fate, hearing: &Hearing<'_>) -> bool
    ensures { IsTrue result ↔ ShowsFate id fate hearing.now }
{
    match view_in(hearing.reply) {
        Some(view) => is_about(id, hearing.request) && is_fate_of(view, fate),
        None => false,
    }
}

fn some_shows_fate(id: TxnId, fate: Fate, heard: &[Hearing<'_>]) -> bool
    ensures { IsTrue result ↔ Any (ShowsFate id fate) heard.now }
{
    heard.iter().any(|hearing| shows_fate(id, fate, hearing))
}

/// Whether the actor may settle the transaction's intents with this fate.
pub fn may_send_resolve(known: &Knowledge<'_>, id: TxnId, fate: Fate) -> bool
    ensures { (k : Known) → KeepsKnowledge k known.now → IsTrue result ↔ MaySendResolve k id fate }
{
    some_shows_fate(id, fate, known.views(id))
}

/// Whether the intent at the key was settled for this transaction.
fn was_resolved<'a>(known: &Knowledge<'a>, id: TxnId, key: &'a Key) -> bool
    ensures { (k : Known) → KeepsKnowledge k known.now → IsTrue result ↔ Any (WasResolved id key.now) k.heard }
{
    known.is_settled(id, key)
}

/// Whether the intent at each of these keys was settled for this transaction.
fn all_resolved<'a>(known: &Knowledge<'a>, id: TxnId, keys: &'a [Key]) -> bool
    ensures { (k : Known) → KeepsKnowledge k known.now → IsTrue result ↔ AllResolved k.heard id keys.now }
{
    for key in keys {
        if !was_resolved(known, id, key) {
            return false;
        }
    }
    true
}

fn is_lock_resolved<'a>(known: &Knowledge<'a>, id: TxnId, lock: &Lock<'a>) -> bool
    ensures { (k : Known) → KeepsKnowledge k known.now → IsTrue result ↔ Any (WasResolved id lock.now) k.heard }
{
    was_resolved(known, id, lock.key)
}

/// The same of the keys that the transaction itself wrote.
fn are_own_resolved<'a>(known: &Knowledge<'a>, id: TxnId, locks: &Locks<'a>) -> bool
    ensures { (k : Known) → KeepsKnowledge k known.now → IsTrue result ↔ AllResolved k.heard id locks.now }
{
    for lock in locks.iter() {
        if !is_lock_resolved(known, id, lock) {
            return false;
        }
    }
    true
}

/// Whether the view is final, so has locks.
fn has_locks(view: &View) -> bool
    ensures { IsTrue result ↔ ((shown : List (List ℕ)) × HasLocks view.now shown) }
{
    matches!(view, View::Committed { .. } | View::Aborted { .. })
}

fn shows_final(id: TxnId, hearing: &Hearing<'_>) -> bool
    ensures { IsTrue result ↔ IsFinalAbout id hearing.now }
{
    match view_in(hearing.reply) {
        Some(view) => is_about(id, hearing.request) && has_locks(view),
        None => false,
    }
}

/// Whether a final view of the transaction was heard.
fn was_final(id: TxnId, heard: &[Hearing<'_>]) -> bool
    ensures { IsTrue result ↔ Any (IsFinalAbout id) heard.now }
{
    heard.iter().any(|hearing| shows_final(id, hearing))
}

fn are_keys_resolved<'a>(known: &Knowledge<'a>, id: TxnId, keys: &'a Keys) -> bool
    ensures { (k : Known) → KeepsKnowledge k known.now → IsTrue result ↔ AllResolved k.heard id keys.now }
{
    all_resolved(known, id, keys.as_slice())
}

/// Whether the view is final, and each of its locks was settled.
fn are_locks_resolved<'a>(known: &Knowledge<'a>, id: TxnId, view: &'a View) -> bool
    ensures { (k : Known) → KeepsKnowledge k known.now → IsTrue result ↔ ((shown : List (List ℕ)) × HasLocks view.now shown × AllResolved k.heard id shown) }
{
    match view {
        View::Committed { locks, .. } => are_keys_resolved(known, id, locks),
        View::Aborted { locks, .. } => are_keys_resolved(known, id, locks),
        View::Nothing | View::Pending { .. } | View::Staging { .. } => false,
    }
}

fn is_settled_by<'a>(known: &Knowledge<'a>, id: TxnId, hearing: &Hearing<'a>) -> bool
    ensures { (k : Known) → KeepsKnowledge k known.now → IsTrue result ↔ IsSettledBy k.heard id hearing.now }
{
    match view_in(hearing.reply) {
        Some(view) => is_about(id, hearing.request) && are_locks_resolved(known, id, view),
        None => false,
    }
}

/// Whether one of these replies shows a final view of the transaction all of whose locks were settled.
fn is_some_settled_by<'a>(known: &Knowledge<'a>, id: TxnId, replies: &[Hearing<'a>]) -> bool
    ensures { (k : Known) → KeepsKnowledge k known.now → IsTrue result ↔ Any (IsSettledBy k.heard id) replies.now }
{
    for hearing in replies {
        if is_settled_by(known, id, hearing) {
            return true;
        }
    }
    false
}

fn is_anchor(id: TxnId, anchor: &Key, heard: &[Hearing<'_>]) -> bool
    ensures { IsTrue result ↔ (anchor_heard id heard.now ≡ Some anchor.now) }
{
    match anchor_heard(id, heard) {
        Some(first) => is_key(first, anchor),
        None => false,
    }
}

/// Whether this is the transaction's anchor, as it was heard.
pub(crate) fn is_own_anchor(known: &Knowledge<'_>, id: TxnId, anchor: &Key) -> bool
    ensures { (k : Known) → KeepsKnowledge k known.now → IsTrue result ↔ (anchor_heard id k.heard ≡ Some anchor.now) }
{
    is_anchor(id, anchor, known.views(id))
}

/// Whether the actor may send this removal of the transaction's record.
pub fn may_send_remove(known: &Knowledge<'_>, id: TxnId, anchor: &Key) -> bool
    ensures { (k : Known) → KeepsKnowledge k known.now → IsTrue result ↔ MaySendRemove k id anchor.now }
{
    is_own_anchor(known, id, anchor) && is_settled(known, id)
}

/// Whether a final view of the transaction was heard.
fn was_final_heard(known: &Knowledge<'_>, id: TxnId) -> bool
    ensures { (k : Known) → KeepsKnowledge k known.now → IsTrue result ↔ Any (IsFinalAbout id) k.heard }
{
    was_final(id, known.views(id))
}

/// Whether a final view of the actor's own transaction was heard, and each of its locks was settled.
fn is_own_settled<'a>(known: &Knowledge<'a>, id: TxnId, locks: &Locks<'a>) -> bool
    ensures { (k : Known) → KeepsKnowledge k known.now → IsTrue result ↔ (Any (IsFinalAbout id) k.heard × AllResolved k.heard id locks.now) }
{
    was_final_heard(known, id) && are_own_resolved(known, id, locks)
}

/// Whether a final view of the transaction was heard all of whose locks were settled.
fn is_other_settled(known: &Knowledge<'_>, id: TxnId) -> bool
    ensures { (k : Known) → KeepsKnowledge k known.now → IsTrue result ↔ Any (IsSettledBy k.heard id) k.heard }
{
    is_some_settled_by(known, id, known.views(id))
}

/// Whether the transaction's record is final and its locks are settled: its own in its session, else those of a final view.
fn is_settled(known: &Knowledge<'_>, id: TxnId) -> bool
    ensures { (k : Known) → KeepsKnowledge k known.now → IsTrue result ↔ IsSettledFor k id }
{
    match known.own_txn(id) {
        Some(t) => is_own_settled(known, id, t.locks()),
        None => is_other_settled(known, id),
    }
}
