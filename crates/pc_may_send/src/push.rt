//! Push: by a session against the holder of an intent that stood in the way in the open call; by a recoverer against a transaction
//! that was listed in the open round.

ghost use Rattle.std.specs.Prelude.{◌≡◌, ◌↔◌, ◌+◌, Any, IsTrue};
ghost use Rattle.pc_knowledge.specs.Keeping.{KeepsKnowledge};
ghost use Rattle.pc_proto.specs.Replies.{ConflictsWith};
ghost use Rattle.pc_world.specs.Known.{Known};
ghost use Rattle.pc_world.specs.Send.Push.{ListsRecord, MaySendPush, RecovererPush, SessionPush, StoodInTheWay, goal_for};

use crate::call::asks_round;
use pc_base::{ActorId, Priority, Timestamp, Who};
use pc_knowledge::{Knowledge, same_who};
use pc_known::{Hearing, number, same_meta};
use pc_proto::{Goal, Reply, Request, TxnMeta};

/// Whether a push that wants this is for the request: a read moves the holder past it, a write aborts the holder.
fn is_goal_for(goal: Goal, request: &Request) -> bool
    ensures { IsTrue result ↔ (goal ≡ goal_for request.now) }
{
    match request {
        Request::Get { ts, .. } | Request::Scan { ts, .. } => is_move_past(goal, *ts),
        _ => goal == Goal::Abort,
    }
}

fn is_move_past(goal: Goal, ts: Timestamp) -> bool
    ensures { IsTrue result ↔ (goal ≡ Goal.Move (ts + 1)) }
{
    match goal {
        Goal::Move(to) => number(to) == number(ts) + 1,
        Goal::Abort => false,
    }
}

fn conflicts_with(holder: &TxnMeta, reply: &Reply) -> bool
    ensures { IsTrue result ↔ ConflictsWith holder.now reply.now }
{
    match reply {
        Reply::Conflict { holder: other, .. } => same_meta(other, holder),
        _ => false,
    }
}

fn stood_in_the_way(holder: &TxnMeta, goal: Goal, hearing: &Hearing<'_>) -> bool
    ensures { IsTrue result ↔ StoodInTheWay holder.now goal hearing.now }
{
    conflicts_with(holder, hearing.reply) && is_goal_for(goal, hearing.request)
}

fn some_stood_in_the_way(holder: &TxnMeta, goal: Goal, heard_now: &[Hearing<'_>]) -> bool
    ensures { IsTrue result ↔ Any (StoodInTheWay holder.now goal) heard_now.now }
{
    heard_now
        .iter()
        .any(|hearing| stood_in_the_way(holder, goal, hearing))
}

fn may_session_push(
    known: &Knowledge<'_>,
    holder: &TxnMeta,
    by: Who,
    level: Priority,
    now: u64,
    goal: Goal,
) -> bool
    ensures { (k : Known) → KeepsKnowledge k known.now → IsTrue result ↔ SessionPush k holder.now by level now goal }
{
    match known.open_txn() {
        None => false,
        Some(t) => {
            some_stood_in_the_way(holder, goal, known.heard_now())
                && same_who(by, Who::Txn(t.id()))
                && level == t.priority()
                && known.reading() == Some(now)
        }
    }
}

fn has_meta(metas: &[TxnMeta], holder: &TxnMeta) -> bool
    ensures { IsTrue result ↔ Any (λ m. m ≡ holder.now) metas.now }
{
    metas.iter().any(|meta| same_meta(meta, holder))
}

fn lists_record(holder: &TxnMeta, reply: &Reply) -> bool
    ensures { IsTrue result ↔ ListsRecord holder.now reply.now }
{
    match reply {
        Reply::Listed(metas) => has_meta(metas.as_slice(), holder),
        _ => false,
    }
}

fn was_listed(holder: &TxnMeta, heard_now: &[Hearing<'_>]) -> bool
    ensures { IsTrue result ↔ Any (λ h. ListsRecord holder.now h.reply) heard_now.now }
{
    heard_now
        .iter()
        .any(|hearing| lists_record(holder, hearing.reply))
}

fn may_recoverer_push(
    number: u32,
    known: &Knowledge<'_>,
    holder: &TxnMeta,
    by: Who,
    now: u64,
    goal: Goal,
) -> bool
    ensures { (k : Known) → KeepsKnowledge k known.now → IsTrue result ↔ RecovererPush number k holder.now by now goal }
{
    asks_round(known.call())
        && was_listed(holder, known.heard_now())
        && same_who(by, Who::Recoverer(number))
        && goal == Goal::Abort
        && known.reading() == Some(now)
}

/// Whether the actor may send this push.
pub fn may_send_push(
    actor: ActorId,
    known: &Knowledge<'_>,
    holder: &TxnMeta,
    by: Who,
    level: Priority,
    now: u64,
    goal: Goal,
) -> bool
    ensures { (k : Known) → KeepsKnowledge k known.now → IsTrue result ↔ MaySendPush actor k holder.now by level now goal }
{
    match actor {
        ActorId::Session(_) => may_session_push(known, holder, by, level, now, goal),
        ActorId::Recoverer(number) => may_recoverer_push(number, known, holder, by, now, goal),
        ActorId::Range(_) => false,
    }
}
