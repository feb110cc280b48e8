//! Blocked and Moved: why a call gives up.

ghost use Rattle.std.specs.Prelude.{◌≡◌, ◌↔◌, ◌-◌, ◌⊎◌, if◌then◌else◌, Any, IsTrue, Some};
ghost use Rattle.pc_base.specs.declared.limits.TheConstants.{MOST_CONFLICTS, MOST_REFUSALS};
ghost use Rattle.pc_knowledge.specs.Keeping.{KeepsKnowledge};
ghost use Rattle.pc_may_tell.specs.Moving.{IsMovedNow, MetEightOf};
ghost use Rattle.pc_proto.specs.Replies.{is_conflict_with, status_ts};
ghost use Rattle.pc_world.specs.Counting.{AtLeast, LastIs};
ghost use Rattle.pc_world.specs.Known.{Known, open_txn};
ghost use Rattle.pc_world.specs.Known.Transactions.{Txn};
ghost use Rattle.pc_world.specs.Send.Recovery.{was_refused};
ghost use Rattle.pc_world.specs.StageFate.{IsUncommitted};
ghost use Rattle.pc_world.specs.Tell.Refusal.{IsConflictOf, IsUncommittedIn, MayBlock, MayTellBlocked, MayTellMoved, MetEight, WasMoved, is_moved};

use crate::same::is_same_request;
use pc_base::limits::{MOST_CONFLICTS, MOST_REFUSALS};
use pc_base::{Timestamp, TxnId};
use pc_knowledge::{Knowledge, some_refused};
use pc_known::{Hearing, Open, Sends, is_undecided, number};
use pc_own::status_ts;
use pc_proto::{Call, Reply, Request};

/// Whether, if the call is a commit, the open transaction's stages are dead and its commits refused.
pub(crate) fn is_uncommitted_in(known: &Knowledge<'_>, call: &Call) -> bool
    ensures { (k : Known) → KeepsKnowledge k known.now → IsTrue result ↔ IsUncommittedIn k call.now }
{
    match (call, known.open_txn()) {
        (Call::Commit, Some(t)) => known.is_uncommitted(t.id()),
        (Call::Commit, None) => false,
        _ => true,
    }
}

fn may_block(call: &Call) -> bool
    ensures { IsTrue result ↔ MayBlock call.now }
{
    match call {
        Call::Get(_) | Call::Scan(_) | Call::Put(_, _) | Call::Delete(_) | Call::Commit => true,
        Call::Begin(_) | Call::Rollback | Call::Learn(_) | Call::Round => false,
    }
}

fn is_conflict_with(holder: TxnId, reply: &Reply) -> bool
    ensures { result ≡ is_conflict_with holder reply.now }
{
    match reply {
        Reply::Conflict { holder: other, .. } => other.id == holder,
        _ => false,
    }
}

fn is_conflict_of(request: &Request, hearing: &Hearing<'_>) -> bool
    ensures { IsTrue result ↔ IsConflictOf request.now hearing.now }
{
    matches!(hearing.reply, Reply::Conflict { .. }) && is_same_request(request, hearing.request)
}

/// How many are left to count after one that counts or not.
pub(crate) fn left_after(left: u32, met: bool) -> u32
    ensures { result ≡ (if met then left - 1 else left) }
{
    if met { left.saturating_sub(1) } else { left }
}

/// What is so of the last one that counts, after one that counts or not.
fn last_after(last: bool, met: bool, this: bool) -> bool
    ensures { result ≡ (if met then this else last) }
{
    if met { this } else { last }
}

/// Whether the reply shows a record that is not final at this timestamp.
fn is_status_at(ts: Timestamp, hearing: &Hearing<'_>) -> bool
    ensures { IsTrue result ↔ (status_ts hearing.now.reply ≡ ts) }
{
    status_ts(hearing.reply) == number(ts)
}

/// Whether the reply is a conflict with this holder.
fn is_of_holder(holder: TxnId, hearing: &Hearing<'_>) -> bool
    ensures { IsTrue result ↔ IsTrue (is_conflict_with holder hearing.now.reply) }
{
    is_conflict_with(holder, hearing.reply)
}

/// Whether the request met intents eight times.
fn met_eight(request: &Request, heard_now: &[Hearing<'_>]) -> bool
    ensures { IsTrue result ↔ AtLeast (IsConflictOf request.now) MOST_CONFLICTS heard_now.now }
{
    let mut left = MOST_CONFLICTS;
    for hearing in heard_now {
        left = left_after(left, is_conflict_of(request, hearing));
    }
    left == 0
}

/// Whether the last intent that the request met was of this holder.
fn met_last(request: &Request, holder: TxnId, heard_now: &[Hearing<'_>]) -> bool
    ensures { IsTrue result ↔ LastIs (IsConflictOf request.now) (λ h. IsTrue (is_conflict_with holder h.reply)) heard_now.now }
{
    let mut last = false;
    for hearing in heard_now {
        let met = is_conflict_of(request, hearing);
        last = last_after(last, met, is_of_holder(holder, hearing));
    }
    last
}

fn met_eight_of(request: &Request, holder: TxnId, heard_now: &[Hearing<'_>]) -> bool
    ensures { IsTrue result ↔ MetEightOf holder heard_now.now request.now }
{
    met_last(request, holder, heard_now) && met_eight(request, heard_now)
}

/// Whether one of these requests met intents eight times, the last time of this holder.
fn some_met_eight<'b>(replies: &[Hearing<'b>], holder: TxnId, heard_now: &[Hearing<'b>]) -> bool
    ensures { IsTrue result ↔ Any (λ h. MetEightOf holder heard_now.now h.request) replies.now }
{
    for hearing in replies {
        if has_met_eight(hearing, holder, heard_now) {
            return true;
        }
    }
    false
}

fn has_met_eight<'b>(hearing: &Hearing<'b>, holder: TxnId, heard_now: &[Hearing<'b>]) -> bool
    ensures { IsTrue result ↔ MetEightOf holder heard_now.now hearing.now.request }
{
    met_eight_of(hearing.request, holder, heard_now)
}

/// Whether a request met intents eight times, the last time of this holder.
fn met_eight_with<'b>(holder: TxnId, heard_now: &[Hearing<'b>]) -> bool
    ensures { IsTrue result ↔ MetEight holder heard_now.now }
{
    some_met_eight(heard_now, holder, heard_now)
}

/// Whether the holder did not yield: a push of it was refused, or a request met its intents to the end.
fn is_unyielding(holder: TxnId, heard_now: &[Hearing<'_>]) -> bool
    ensures { IsTrue result ↔ (Any (λ h. IsTrue (was_refused holder h)) heard_now.now ⊎ MetEight holder heard_now.now) }
{
    some_refused(holder, heard_now) || met_eight_with(holder, heard_now)
}

fn is_blocked(call: &Open<'_>, holder: TxnId, heard_now: &[Hearing<'_>]) -> bool
    ensures { IsTrue result ↔ (MayBlock call.now.call × (Any (λ h. IsTrue (was_refused holder h)) heard_now.now ⊎ MetEight holder heard_now.now)) }
{
    may_be_blocked(call) && is_unyielding(holder, heard_now)
}

fn may_be_blocked(call: &Open<'_>) -> bool
    ensures { IsTrue result ↔ MayBlock call.now.call }
{
    may_block(call.call)
}

fn is_blocked_now(known: &Knowledge<'_>, call: &Open<'_>, holder: TxnId) -> bool
    ensures { (k : Known) → KeepsKnowledge k known.now → IsTrue result ↔ (MayBlock call.now.call × (Any (λ h. IsTrue (was_refused holder h)) k.heard_now ⊎ MetEight holder k.heard_now)) }
{
    is_blocked(call, holder, known.heard_now())
}

pub(crate) fn is_uncommitted_by(known: &Knowledge<'_>, call: &Open<'_>) -> bool
    ensures { (k : Known) → KeepsKnowledge k known.now → IsTrue result ↔ IsUncommittedIn k call.now.call }
{
    is_uncommitted_in(known, call.call)
}

/// Whether the call may be told that this holder blocks it.
pub(crate) fn may_tell_blocked(known: &Knowledge<'_>, call: &Open<'_>, holder: TxnId) -> bool
    ensures { (k : Known) → KeepsKnowledge k known.now → IsTrue result ↔ MayTellBlocked k call.now holder }
{
    is_blocked_now(known, call, holder) && is_uncommitted_by(known, call)
}

/// Whether a stage or commit met a record that is not final and has a greater timestamp.
fn is_moved(request: &Request, reply: &Reply) -> bool
    ensures { result ≡ is_moved request.now reply.now }
{
    match request {
        Request::Stage { ts, .. } | Request::Commit { ts, .. } => {
            is_undecided(reply) && number(*ts) < status_ts(reply)
        }
        _ => false,
    }
}

fn is_moved_now(sends: &Sends<'_>, hearing: &Hearing<'_>) -> bool
    ensures { IsTrue result ↔ IsMovedNow sends.now hearing.now }
{
    sends.was_sent_now(hearing.number) && is_moved(hearing.request, hearing.reply)
}

/// Whether stages and commits of the open call were moved eight times.
fn moved_eight(sends: &Sends<'_>, heard_now: &[Hearing<'_>]) -> bool
    ensures { IsTrue result ↔ AtLeast (IsMovedNow sends.now) MOST_REFUSALS heard_now.now }
{
    let mut left = MOST_REFUSALS;
    for hearing in heard_now {
        left = left_after(left, is_moved_now(sends, hearing));
    }
    left == 0
}

/// Whether the last of them was moved to this timestamp.
fn moved_last(sends: &Sends<'_>, ts: Timestamp, heard_now: &[Hearing<'_>]) -> bool
    ensures { IsTrue result ↔ LastIs (IsMovedNow sends.now) (λ h. status_ts h.reply ≡ ts) heard_now.now }
{
    let mut last = false;
    for hearing in heard_now {
        let met = is_moved_now(sends, hearing);
        last = last_after(last, met, is_status_at(ts, hearing));
    }
    last
}

/// Whether stages and commits of the open call were moved eight times, the last time to this timestamp.
fn was_moved(sends: &Sends<'_>, ts: Timestamp, heard_now: &[Hearing<'_>]) -> bool
    ensures { IsTrue result ↔ (AtLeast (IsMovedNow sends.now) MOST_REFUSALS heard_now.now × LastIs (IsMovedNow sends.now) (λ h. status_ts h.reply ≡ ts) heard_now.now) }
{
    moved_eight(sends, heard_now) && moved_last(sends, ts, heard_now)
}

fn was_moved_now(known: &Knowledge<'_>, ts: Timestamp) -> bool
    ensures { (k : Known) → KeepsKnowledge k known.now → IsTrue result ↔ (AtLeast (WasMoved k) MOST_REFUSALS k.heard_now × LastIs (WasMoved k) (λ h. status_ts h.reply ≡ ts) k.heard_now) }
{
    was_moved(known.sends(), ts, known.heard_now())
}

fn is_commit(call: &Open<'_>) -> bool
    ensures { IsTrue result ↔ (call.now.call ≡ Call.Commit) }
{
    matches!(call.call, Call::Commit)
}

fn is_moved_commit(known: &Knowledge<'_>, call: &Open<'_>, ts: Timestamp) -> bool
    ensures { (k : Known) → KeepsKnowledge k known.now → IsTrue result ↔ ((call.now.call ≡ Call.Commit) × (AtLeast (WasMoved k) MOST_REFUSALS k.heard_now × LastIs (WasMoved k) (λ h. status_ts h.reply ≡ ts) k.heard_now)) }
{
    is_commit(call) && was_moved_now(known, ts)
}

/// Whether there is an open transaction, whose stages are dead and whose commits were refused.
fn is_open_uncommitted(known: &Knowledge<'_>) -> bool
    ensures { (k : Known) → KeepsKnowledge k known.now → IsTrue result ↔ ((t : Txn) × (open_txn k ≡ Some t) × IsUncommitted t.id k.sent k.heard) }
{
    match known.open_txn() {
        None => false,
        Some(t) => known.is_uncommitted(t.id()),
    }
}

/// Whether the call may be told that its transaction was moved to this timestamp, after it was moved time and again.
pub(crate) fn may_tell_moved(known: &Knowledge<'_>, call: &Open<'_>, ts: Timestamp) -> bool
    ensures { (k : Known) → KeepsKnowledge k known.now → IsTrue result ↔ MayTellMoved k call.now ts }
{
    is_moved_commit(known, call, ts) && is_open_uncommitted(known)
}
