//! Query and Recover: after a push met a STAGING record, for the writes that it lists; and a query also for a write of the transaction's
//! own stage that another stands in the way of.

ghost use Rattle.std.specs.Prelude.{◌≡◌, ◌↔◌, ℕ, All, Any, IsTrue, List, Some, count_by};
ghost use Rattle.std.specs.Option.{option_copied};
ghost use Rattle.pc_base.specs.declared.transaction.TxnId.{TxnId as txn_id};
ghost use Rattle.pc_knowledge.specs.Keeping.{KeepsKnowledge};
ghost use Rattle.pc_may_send.specs.Listed.{HasFoundAll, HasListed, HasMissed, IsRefusedHere};
ghost use Rattle.pc_proto.specs.Replies.{is_conflict_with};
ghost use Rattle.pc_world.specs.Known.{Known, open_txn};
ghost use Rattle.pc_world.specs.Known.Transactions.{Txn, has_staged};
ghost use Rattle.pc_world.specs.Send.Recovery.{IsBlockedWrite, IsOwnName, IsRefusedAfter, MayFind, MaySendQuery, MaySendRecover, MetStaging, QueryOfListed, QueryOfOwn, WasFound, WasMissed, WasStaging, put_met, was_refused};

use crate::settling::is_own_anchor;
use pc_base::limits::MOST_CONFLICTS;
use pc_base::{ActorId, Key, Timestamp, TxnId, Who};
use pc_knowledge::{Knowledge, is_push_of, is_put_of, same_who, some_refused};
use pc_known::{Hearing, is_key, lists_write};
use pc_own::has_staged;
use pc_proto::{Finding, Reply, Request, View, Writes};

/// Whether the actor pushes and queries under this name: a session under that of its open transaction.
fn is_own_name(actor: ActorId, known: &Knowledge<'_>, by: Who) -> bool
    ensures { (k : Known) → KeepsKnowledge k known.now → IsTrue result ↔ IsOwnName actor k by }
{
    match actor {
        ActorId::Session(_) => is_open_name(known, by),
        ActorId::Recoverer(number) => same_who(by, Who::Recoverer(number)),
        ActorId::Range(_) => false,
    }
}

fn is_open_name(known: &Knowledge<'_>, by: Who) -> bool
    ensures { (k : Known) → KeepsKnowledge k known.now → IsTrue result ↔ ((t : Txn) × (open_txn k ≡ Some t) × (by ≡ Who.Txn t.id)) }
{
    match known.open_txn() {
        Some(t) => same_who(by, Who::Txn(t.id())),
        None => false,
    }
}

/// The writes of the STAGING record of this epoch and timestamp that a push of the transaction met.
fn staging_met<'a>(
    id: TxnId,
    epoch: u32,
    ts: Timestamp,
    hearing: &Hearing<'a>,
) -> Option<&'a Writes>
    ensures { (writes : List (List ℕ × ℕ)) → (option_copied result ≡ Some writes) ↔ MetStaging id epoch ts writes hearing.now }
{
    match hearing.reply {
        Reply::Unsure(
            View::Staging {
                epoch: at_epoch,
                ts: at,
                writes,
            },
        ) if is_push_of(id, hearing.request) && *at_epoch == epoch && *at == ts => Some(writes),
        _ => None,
    }
}

fn has_listed(
    id: TxnId,
    epoch: u32,
    seq: u32,
    ts: Timestamp,
    key: &Key,
    hearing: &Hearing<'_>,
) -> bool
    ensures { IsTrue result ↔ HasListed id epoch seq ts key.now hearing.now }
{
    match staging_met(id, epoch, ts, hearing) {
        Some(writes) => lists_write(writes, key, seq),
        None => false,
    }
}

fn some_has_listed(
    id: TxnId,
    epoch: u32,
    seq: u32,
    ts: Timestamp,
    key: &Key,
    heard: &[Hearing<'_>],
) -> bool
    ensures { IsTrue result ↔ Any (HasListed id epoch seq ts key.now) heard.now }
{
    heard
        .iter()
        .any(|hearing| has_listed(id, epoch, seq, ts, key, hearing))
}

fn is_query_of_listed(
    known: &Knowledge<'_>,
    id: TxnId,
    epoch: u32,
    seq: u32,
    ts: Timestamp,
    key: &Key,
) -> bool
    ensures { (k : Known) → KeepsKnowledge k known.now → IsTrue result ↔ QueryOfListed k id epoch seq ts key.now }
{
    some_has_listed(id, epoch, seq, ts, key, known.replies(id))
}

/// Whether a put of this write met an intent.
fn put_met(id: TxnId, epoch: u32, seq: u32, hearing: &Hearing<'_>) -> bool
    ensures { result ≡ put_met id epoch seq hearing.now }
{
    is_put_of(id, epoch, seq, hearing.request) && matches!(hearing.reply, Reply::Conflict { .. })
}

/// Whether the reply is a conflict, and a push of its holder was refused later.
fn is_holder_refused(reply: &Reply, later: &[Hearing<'_>]) -> bool
    ensures { IsTrue result ↔ ((holder : txn_id) × IsTrue (is_conflict_with holder reply.now) × Any (λ h. IsTrue (was_refused holder h)) later.now) }
{
    match reply {
        Reply::Conflict { holder, .. } => some_refused(holder.id, later),
        _ => false,
    }
}

/// Whether a put of this write met an intent, and after that a push of its holder was refused.
fn is_refused_after(id: TxnId, epoch: u32, seq: u32, heard: &[Hearing<'_>]) -> bool
    ensures { IsTrue result ↔ IsRefusedAfter id epoch seq heard.now }
{
    for (place, hearing) in heard.iter().enumerate() {
        let (_, later) = heard.split_at(place + 1);
        if is_refused_here(id, epoch, seq, hearing, later) {
            return true;
        }
    }
    false
}

/// Whether the put met an intent at this reply, and a push of its holder was refused later.
fn is_refused_here(
    id: TxnId,
    epoch: u32,
    seq: u32,
    hearing: &Hearing<'_>,
    later: &[Hearing<'_>],
) -> bool
    ensures { IsTrue result ↔ IsRefusedHere id epoch seq hearing.now later.now }
{
    is_put_of(id, epoch, seq, hearing.request) && is_holder_refused(hearing.reply, later)
}

fn count_met(id: TxnId, epoch: u32, seq: u32, heard_now: &[Hearing<'_>]) -> usize
    ensures { result ≡ count_by (put_met id epoch seq) heard_now.now }
{
    heard_now
        .iter()
        .filter(|hearing| put_met(id, epoch, seq, hearing))
        .count()
}

/// Whether the write is blocked: a put of it met an intent, and then a push of its holder was refused; or its puts met intents eight
/// times.
fn is_blocked_write(heard_now: &[Hearing<'_>], id: TxnId, epoch: u32, seq: u32) -> bool
    ensures { IsTrue result ↔ IsBlockedWrite heard_now.now id epoch seq }
{
    is_refused_after(id, epoch, seq, heard_now)
        || count_met(id, epoch, seq, heard_now) >= MOST_CONFLICTS as usize
}

/// Whether the transaction staged this write at this timestamp.
fn was_staged(
    known: &Knowledge<'_>,
    id: TxnId,
    epoch: u32,
    seq: u32,
    ts: Timestamp,
    key: &Key,
) -> bool
    ensures { (k : Known) → KeepsKnowledge k known.now → result ≡ has_staged k.sent id epoch ts key.now seq }
{
    has_staged(known.deciding(id), id, epoch, ts, key, seq)
}

/// Whether, in an open call, the write is one of the open transaction's own stage, and is blocked.
fn is_query_of_own(
    known: &Knowledge<'_>,
    id: TxnId,
    epoch: u32,
    seq: u32,
    ts: Timestamp,
    key: &Key,
) -> bool
    ensures { (k : Known) → KeepsKnowledge k known.now → IsTrue result ↔ QueryOfOwn k id epoch seq ts key.now }
{
    match (known.statement(), known.open_txn()) {
        (Some(_), Some(t)) => {
            id == t.id()
                && was_staged(known, id, epoch, seq, ts, key)
                && is_blocked_write(known.heard_now(), id, epoch, seq)
        }
        _ => false,
    }
}

/// Whether the actor may send this query.
pub fn may_send_query(
    actor: ActorId,
    known: &Knowledge<'_>,
    id: TxnId,
    epoch: u32,
    seq: u32,
    ts: Timestamp,
    key: &Key,
    by: Who,
) -> bool
    ensures { (k : Known) → KeepsKnowledge k known.now → IsTrue result ↔ MaySendQuery actor k id epoch seq ts key.now by }
{
    is_own_name(actor, known, by)
        && (is_query_of_listed(known, id, epoch, seq, ts, key)
            || is_query_of_own(known, id, epoch, seq, ts, key))
}

fn was_found(
    id: TxnId,
    epoch: u32,
    ts: Timestamp,
    write: &(Key, u32),
    hearing: &Hearing<'_>,
) -> bool
    ensures { IsTrue result ↔ WasFound id epoch ts write.now hearing.now }
{
    match (hearing.request, hearing.reply) {
        (
            Request::Query {
                id: other,
                epoch: at_epoch,
                seq,
                ts: at,
                key,
                ..
            },
            Reply::Found,
        ) => {
            *other == id
                && *at_epoch == epoch
                && *seq == write.1
                && *at == ts
                && is_key(key, &write.0)
        }
        _ => false,
    }
}

fn some_found(
    id: TxnId,
    epoch: u32,
    ts: Timestamp,
    write: &(Key, u32),
    heard: &[Hearing<'_>],
) -> bool
    ensures { IsTrue result ↔ Any (WasFound id epoch ts write.now) heard.now }
{
    heard
        .iter()
        .any(|hearing| was_found(id, epoch, ts, write, hearing))
}

fn all_found(
    id: TxnId,
    epoch: u32,
    ts: Timestamp,
    writes: &[(Key, u32)],
    heard: &[Hearing<'_>],
) -> bool
    ensures { IsTrue result ↔ All (λ w. Any (WasFound id epoch ts w) heard.now) writes.now }
{
    for write in writes {
        if !some_found(id, epoch, ts, write, heard) {
            return false;
        }
    }
    true
}

fn was_missed(
    id: TxnId,
    epoch: u32,
    ts: Timestamp,
    writes: &Writes,
    key: &Key,
    by: Who,
    hearing: &Hearing<'_>,
) -> bool
    ensures { IsTrue result ↔ WasMissed id epoch ts writes.now key.now by hearing.now }
{
    match (hearing.request, hearing.reply) {
        (
            Request::Query {
                id: other,
                epoch: at_epoch,
                seq,
                ts: at,
                key: place,
                by: asker,
            },
            Reply::Missing,
        ) => {
            *other == id
                && *at_epoch == epoch
                && *at == ts
                && is_key(place, key)
                && same_who(*asker, by)
                && lists_write(writes, key, *seq)
        }
        _ => false,
    }
}

fn some_missed(
    id: TxnId,
    epoch: u32,
    ts: Timestamp,
    writes: &Writes,
    key: &Key,
    by: Who,
    heard: &[Hearing<'_>],
) -> bool
    ensures { IsTrue result ↔ Any (WasMissed id epoch ts writes.now key.now by) heard.now }
{
    heard.iter().any(|hearing| was_missed(id, epoch, ts, writes, key, by, hearing))
}

fn has_found_all<'b>(
    id: TxnId,
    epoch: u32,
    ts: Timestamp,
    heard: &[Hearing<'b>],
    hearing: &Hearing<'b>,
) -> bool
    ensures { IsTrue result ↔ HasFoundAll heard.now id epoch ts hearing.now }
{
    match staging_met(id, epoch, ts, hearing) {
        Some(writes) => all_found(id, epoch, ts, writes.as_slice(), heard),
        None => false,
    }
}

fn some_has_found_all<'b>(
    id: TxnId,
    epoch: u32,
    ts: Timestamp,
    replies: &[Hearing<'b>],
    heard: &[Hearing<'b>],
) -> bool
    ensures { IsTrue result ↔ Any (HasFoundAll heard.now id epoch ts) replies.now }
{
    replies
        .iter()
        .any(|hearing| has_found_all(id, epoch, ts, heard, hearing))
}

fn has_missed<'b>(
    id: TxnId,
    epoch: u32,
    ts: Timestamp,
    key: &Key,
    by: Who,
    heard: &[Hearing<'b>],
    hearing: &Hearing<'b>,
) -> bool
    ensures { IsTrue result ↔ HasMissed heard.now id epoch ts key.now by hearing.now }
{
    match staging_met(id, epoch, ts, hearing) {
        Some(writes) => some_missed(id, epoch, ts, writes, key, by, heard),
        None => false,
    }
}

fn some_has_missed<'b>(
    id: TxnId,
    epoch: u32,
    ts: Timestamp,
    key: &Key,
    by: Who,
    replies: &[Hearing<'b>],
    heard: &[Hearing<'b>],
) -> bool
    ensures { IsTrue result ↔ Any (HasMissed heard.now id epoch ts key.now by) replies.now }
{
    replies.iter().any(|hearing| has_missed(id, epoch, ts, key, by, heard, hearing))
}

/// Whether each write of a STAGING record that was met was found.
fn were_all_found<'b>(id: TxnId, epoch: u32, ts: Timestamp, heard: &[Hearing<'b>]) -> bool
    ensures { IsTrue result ↔ Any (HasFoundAll heard.now id epoch ts) heard.now }
{
    some_has_found_all(id, epoch, ts, heard, heard)
}

/// Whether a write of this key of a STAGING record that was met was missed by a query of this name.
fn was_some_missed<'b>(
    id: TxnId,
    epoch: u32,
    ts: Timestamp,
    key: &Key,
    by: Who,
    heard: &[Hearing<'b>],
) -> bool
    ensures { IsTrue result ↔ Any (HasMissed heard.now id epoch ts key.now by) heard.now }
{
    some_has_missed(id, epoch, ts, key, by, heard, heard)
}

/// Whether this may be said of a write that was missed: the name is the actor's own.
fn may_miss(
    actor: ActorId,
    known: &Knowledge<'_>,
    id: TxnId,
    epoch: u32,
    ts: Timestamp,
    key: &Key,
    by: Who,
) -> bool
    ensures { (k : Known) → KeepsKnowledge k known.now → IsTrue result ↔ (IsOwnName actor k by × Any (HasMissed k.heard id epoch ts key.now by) k.heard) }
{
    is_own_name(actor, known, by) && was_some_missed(id, epoch, ts, key, by, known.replies(id))
}

/// Whether the actor may have found this of the writes of a STAGING record that it met.
fn may_find(
    actor: ActorId,
    known: &Knowledge<'_>,
    id: TxnId,
    epoch: u32,
    ts: Timestamp,
    finding: &Finding,
) -> bool
    ensures { (k : Known) → KeepsKnowledge k known.now → IsTrue result ↔ ((writes : List (List ℕ × ℕ)) × WasStaging k.heard id epoch ts writes × MayFind actor k id epoch ts writes finding.now) }
{
    match finding {
        Finding::All => were_all_found(id, epoch, ts, known.replies(id)),
        Finding::Missing { key, by } => may_miss(actor, known, id, epoch, ts, key, *by),
    }
}

/// Whether the actor may send this recovery.
pub fn may_send_recover(
    actor: ActorId,
    known: &Knowledge<'_>,
    id: TxnId,
    epoch: u32,
    ts: Timestamp,
    anchor: &Key,
    finding: &Finding,
) -> bool
    ensures { (k : Known) → KeepsKnowledge k known.now → IsTrue result ↔ MaySendRecover actor k id epoch ts anchor.now finding.now }
{
    is_own_anchor(known, id, anchor) && may_find(actor, known, id, epoch, ts, finding)
}
