ghost use Rattle.std.specs.Prelude.{◌≡◌, ◌↔◌, ◌+◌, ◌<◌, ◌^◌, IfOk, IsSome, IsTrue, None, false, length};
ghost use Rattle.pc_proto.specs.Requests.{is_scan, round_of, subject};
ghost use Rattle.pc_knowledge.specs.Keeping.{KeepsKnowledge};
ghost use Rattle.pc_world.specs.Known.{Known};
ghost use Rattle.pc_world.specs.MaySend.{MaySend, MaySendRecords, MaySendRow};

use crate::beat::{may_send_abort, may_send_beat};
use crate::call::asks_round;
use crate::commit::may_send_commit;
use crate::push::may_send_push;
use crate::put::{Put, may_send_put};
use crate::reading::{may_send_get, may_send_scan};
use crate::recovery::{may_send_query, may_send_recover};
use crate::refresh::may_send_refresh;
use crate::settling::{may_send_remove, may_send_resolve};
use crate::stage::may_send_stage;
use pc_base::{ActorId, NoMemory};
use pc_knowledge::Knowledge;
use pc_known::fate::{Commit, Stage};
use pc_known::is_in_order;
use pc_proto::{Keys, Request};

/// Whether the actor may send this message next: its number, its range and its timestamps are in order, and the rule of its request
/// allows it.
pub fn may_send<'a>(
    splits: &Keys,
    actor: ActorId,
    known: &Knowledge<'a>,
    number: u64,
    range: u32,
    request: &'a Request,
) -> Result<bool, NoMemory>
    requires { length splits.now + 1 < 2 ^ 32 }
    ensures { (k : Known) → KeepsKnowledge k known.now → IfOk result (λ may. IsTrue may ↔ MaySend splits.now actor k number range request.now) }
{
    let in_order = is_in_order(
        known.alloc(),
        splits,
        known.calls(),
        known.sends(),
        number,
        range,
        request,
    )?;
    if !in_order {
        return Ok(false);
    }
    may_send_row(splits, actor, known, request)
}

/// Whether the rule of the request allows it.
fn may_send_row<'a>(
    splits: &Keys,
    actor: ActorId,
    known: &Knowledge<'a>,
    request: &'a Request,
) -> Result<bool, NoMemory>
    requires { length splits.now + 1 < 2 ^ 32 }
    ensures { (k : Known) → KeepsKnowledge k known.now → IfOk result (λ may. IsTrue may ↔ MaySendRow splits.now actor k request.now) }
{
    match request {
        Request::Scan {
            id,
            epoch,
            seq,
            ts,
            span,
        } => may_send_scan(splits, known, *id, *epoch, *seq, *ts, span),
        _ => Ok(may_send_row_of(splits, actor, known, request)),
    }
}

/// The same of a request other than a scan.
fn may_send_row_of<'a>(
    splits: &Keys,
    actor: ActorId,
    known: &Knowledge<'a>,
    request: &'a Request,
) -> bool
    requires { is_scan request.now ≡ false }
    ensures { (k : Known) → KeepsKnowledge k known.now → IsTrue result ↔ MaySendRow splits.now actor k request.now }
{
    match request {
        Request::Get {
            id,
            epoch,
            seq,
            ts,
            key,
        } => may_send_get(known, *id, *epoch, *seq, *ts, key),
        Request::Put {
            meta,
            seq,
            ts,
            key,
            value,
        } => {
            let put = Put {
                meta,
                seq: *seq,
                ts: *ts,
                key,
                value: value.as_ref(),
            };
            may_send_put(known, &put)
        }
        Request::Refresh { id, from, to, span } => may_send_refresh(known, *id, *from, *to, span),
        Request::Push { .. }
        | Request::Query { .. }
        | Request::Recover { .. }
        | Request::Resolve { .. } => may_send_in_round(splits, actor, known, request),
        Request::Beat { .. }
        | Request::Stage { .. }
        | Request::Commit { .. }
        | Request::Abort { .. }
        | Request::Remove { .. } => may_send_to_record(splits, actor, known, request),
        Request::Scan { .. } => false,
        Request::Records => may_send_records(actor, known),
    }
}

/// The same of a message of a conflict's round.
fn may_send_in_round(
    splits: &Keys,
    actor: ActorId,
    known: &Knowledge<'_>,
    request: &Request,
) -> bool
    requires { IsSome (round_of request.now) }
    ensures { (k : Known) → KeepsKnowledge k known.now → IsTrue result ↔ MaySendRow splits.now actor k request.now }
{
    match request {
        Request::Push {
            holder,
            by,
            level,
            now,
            goal,
        } => may_send_push(actor, known, holder, *by, *level, *now, *goal),
        Request::Query {
            id,
            epoch,
            seq,
            ts,
            key,
            by,
        } => may_send_query(actor, known, *id, *epoch, *seq, *ts, key, *by),
        Request::Recover {
            id,
            epoch,
            ts,
            anchor,
            finding,
        } => may_send_recover(actor, known, *id, *epoch, *ts, anchor, finding),
        Request::Resolve { id, fate, .. } => may_send_resolve(known, *id, *fate),
        _ => unreachable!(),
    }
}

/// The same of a request that speaks of a record and is of no round.
fn may_send_to_record(
    splits: &Keys,
    actor: ActorId,
    known: &Knowledge<'_>,
    request: &Request,
) -> bool
    requires about { IsSome (subject request.now) }
    requires of_no_round { round_of request.now ≡ None }
    ensures { (k : Known) → KeepsKnowledge k known.now → IsTrue result ↔ MaySendRow splits.now actor k request.now }
{
    match request {
        Request::Beat { meta, ts, now } => may_send_beat(known, meta, *ts, *now),
        Request::Stage {
            meta,
            ts,
            now,
            writes,
            locks,
        } => {
            let stage = Stage {
                meta,
                ts: *ts,
                reading: *now,
                writes,
                locks,
            };
            may_send_stage(known, &stage)
        }
        Request::Commit { meta, ts, locks } => {
            let commit = Commit {
                meta,
                ts: *ts,
                locks,
            };
            may_send_commit(known, &commit)
        }
        Request::Abort { meta, why, locks } => may_send_abort(known, meta, why, locks),
        Request::Remove { id, anchor } => may_send_remove(known, *id, anchor),
        _ => unreachable!(),
    }
}

/// Whether a recoverer may send a listing of records: in a round.
fn may_send_records(actor: ActorId, known: &Knowledge<'_>) -> bool
    ensures { (k : Known) → KeepsKnowledge k known.now → IsTrue result ↔ MaySendRecords actor k }
{
    match actor {
        ActorId::Recoverer(_) => asks_round(known.call()),
        ActorId::Session(_) | ActorId::Range(_) => false,
    }
}
