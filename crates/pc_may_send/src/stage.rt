//! Stage and Commit: a commit with writes in flight stages them all; one whose writes are all proved commits.

ghost use Rattle.std.specs.Prelude.{◌≡◌, ◌↔◌, ℕ, All, Any, IsTrue, List, Some};
ghost use Rattle.std.specs.Option.{option_copied};
ghost use Rattle.pc_may_send.specs.Staging.{IsNewStage, IsStageAgain, StagesAll, listed_first};
ghost use Rattle.pc_knowledge.specs.Keeping.{KeepsKnowledge};
ghost use Rattle.pc_world.specs.Known.{Known, call_of, reading_of};
ghost use Rattle.pc_world.specs.Known.Transactions.{IsGood};
ghost use Rattle.pc_world.specs.Known.Writes.{IsProvedBy, is_proved, listed_as, unproved};
ghost use Rattle.pc_world.specs.Send.Stage.{IsPassed, MaySendNewStage, MaySendStage, MaySendStageAgain};
ghost use Rattle.pc_world.specs.StageFate.{EachCommit, EachStage, OnCommit, OnStage, WasCommitRefused, stage_request};

use crate::call::asks_commit;
use pc_base::{Key, Timestamp, TxnId};
use pc_knowledge::{Knowledge, is_good};
use pc_known::fate::{Commit, Stage};
use pc_known::{Hearing, Message, is_key, number};
use pc_own::{OwnTxn, OwnWrite};
use pc_proto::{Call, Request};

/// Whether the write is in flight as the stage lists it.
fn is_listed_as(listed: &(Key, u32), write: &OwnWrite<'_>) -> bool
    ensures { IsTrue result ↔ (listed.now ≡ (write.now.key, write.now.seq)) }
{
    is_key(&listed.0, write.key) && listed.1 == write.seq
}

/// What is listed after the write: a proved one is not listed, another stands first.
fn after_write<'a>(listed: &'a [(Key, u32)], write: &OwnWrite<'_>) -> Option<&'a [(Key, u32)]>
    ensures { (later : List (List ℕ × ℕ)) → (option_copied result ≡ Some later) ↔ (listed.now ≡ listed_first write.now later) }
{
    if write.is_proved() {
        return Some(listed);
    }
    match listed.split_first() {
        Some((first, later)) if is_listed_as(first, write) => Some(later),
        _ => None,
    }
}

/// Whether the writes that are listed are those that are not proved yet.
fn are_in_flight(listed: &[(Key, u32)], writes: &[OwnWrite<'_>]) -> bool
    ensures { IsTrue result ↔ (listed.now ≡ listed_as (unproved writes.now)) }
{
    let mut rest = listed;
    for write in writes {
        match after_write(rest, write) {
            Some(later) => rest = later,
            None => return false,
        }
    }
    rest.is_empty()
}

fn is_proved_by_if_proved(write: &OwnWrite<'_>, ts: Timestamp) -> bool
    ensures { IsTrue result ↔ (IsTrue (is_proved write.now) → IsProvedBy ts write.now) }
{
    !write.is_proved() || write.is_proved_by(ts)
}

fn are_proved_by_if_proved(writes: &[OwnWrite<'_>], ts: Timestamp) -> bool
    ensures { IsTrue result ↔ All (λ w. IsTrue (is_proved w) → IsProvedBy ts w) writes.now }
{
    writes.iter().all(|write| is_proved_by_if_proved(write, ts))
}

/// Whether an earlier stage does not stand in the way of one at this timestamp.
fn is_passed(stage: &Stage<'_>, heard: &[Hearing<'_>], ts: Timestamp) -> bool
    ensures { IsTrue result ↔ IsPassed heard.now ts stage.now }
{
    (stage.is_late(heard) && stage.ts < ts) || stage.is_late_by_record(heard)
}

fn is_passed_stage(id: TxnId, heard: &[Hearing<'_>], ts: Timestamp, request: &Request) -> bool
    ensures { IsTrue result ↔ OnStage id (IsPassed heard.now ts) request.now }
{
    match request {
        Request::Stage {
            meta,
            ts: at,
            now,
            writes,
            locks,
        } => {
            let stage = Stage {
                meta,
                ts: *at,
                reading: *now,
                writes,
                locks,
            };
            meta.id != id || is_passed(&stage, heard, ts)
        }
        _ => true,
    }
}

fn are_stages_passed(id: TxnId, sent: &[Message<'_>], heard: &[Hearing<'_>], ts: Timestamp) -> bool
    ensures { IsTrue result ↔ EachStage id sent.now (IsPassed heard.now ts) }
{
    sent.iter()
        .all(|message| is_passed_stage(id, heard, ts, message.request))
}

fn is_refused_commit(id: TxnId, heard: &[Hearing<'_>], request: &Request) -> bool
    ensures { IsTrue result ↔ OnCommit id (WasCommitRefused heard.now) request.now }
{
    match request {
        Request::Commit { meta, ts, locks } => {
            let commit = Commit {
                meta,
                ts: *ts,
                locks,
            };
            meta.id != id || commit.is_refused(heard)
        }
        _ => true,
    }
}

fn are_commits_refused(id: TxnId, sent: &[Message<'_>], heard: &[Hearing<'_>]) -> bool
    ensures { IsTrue result ↔ EachCommit id sent.now (WasCommitRefused heard.now) }
{
    sent.iter()
        .all(|message| is_refused_commit(id, heard, message.request))
}

/// Whether the stage says of the transaction what it must, and the reads are good at its timestamp.
fn is_whole<'a>(known: &Knowledge<'a>, t: &OwnTxn<'a>, stage: &Stage<'_>) -> bool
    ensures { (k : Known) → KeepsKnowledge k known.now → IsTrue result ↔ (StagesAll t.now stage.now × IsGood k.heard t.now stage.now.ts) }
{
    stages_all(t, stage) && is_good_at(known, t, stage)
}

fn is_good_at<'a>(known: &Knowledge<'a>, t: &OwnTxn<'a>, stage: &Stage<'_>) -> bool
    ensures { (k : Known) → KeepsKnowledge k known.now → IsTrue result ↔ IsGood k.heard t.now stage.now.ts }
{
    is_good(known, t, stage.ts)
}

/// Whether the earlier stages and commits of the transaction do not stand in the way of a stage at this timestamp.
fn is_way_free(id: TxnId, sent: &[Message<'_>], heard: &[Hearing<'_>], ts: Timestamp) -> bool
    ensures { IsTrue result ↔ (EachStage id sent.now (IsPassed heard.now ts) × EachCommit id sent.now (WasCommitRefused heard.now)) }
{
    are_stages_passed(id, sent, heard, ts) && are_commits_refused(id, sent, heard)
}

fn is_way_free_now(known: &Knowledge<'_>, id: TxnId, ts: Timestamp) -> bool
    ensures { (k : Known) → KeepsKnowledge k known.now → IsTrue result ↔ (EachStage id k.sent (IsPassed k.heard ts) × EachCommit id k.sent (WasCommitRefused k.heard)) }
{
    is_way_free(id, known.deciding(id), known.replies(id), ts)
}

fn is_own_way_free(known: &Knowledge<'_>, t: &OwnTxn<'_>, stage: &Stage<'_>) -> bool
    ensures { (k : Known) → KeepsKnowledge k known.now → IsTrue result ↔ (EachStage t.now.id k.sent (IsPassed k.heard stage.now.ts) × EachCommit t.now.id k.sent (WasCommitRefused k.heard)) }
{
    is_way_free_now(known, t.id(), stage.ts)
}

/// Whether the transaction may stage so, whatever was asked.
fn is_new_stage<'a>(known: &Knowledge<'a>, t: &OwnTxn<'a>, stage: &Stage<'_>) -> bool
    ensures { (k : Known) → KeepsKnowledge k known.now → IsTrue result ↔ IsNewStage k.sent k.heard t.now stage.now }
{
    is_whole(known, t, stage) && is_own_way_free(known, t, stage)
}

/// Whether the open call is a commit at the stage's reading.
fn is_commit_at(known: &Knowledge<'_>, stage: &Stage<'_>) -> bool
    ensures { (k : Known) → KeepsKnowledge k known.now → IsTrue result ↔ ((call_of k ≡ Some Call.Commit) × (reading_of k ≡ Some stage.now.now)) }
{
    asks_commit(known.call()) && known.reading() == Some(stage.reading)
}

fn is_new_stage_in<'a>(known: &Knowledge<'a>, t: &OwnTxn<'a>, stage: &Stage<'_>) -> bool
    ensures { (k : Known) → KeepsKnowledge k known.now → IsTrue result ↔ (((call_of k ≡ Some Call.Commit) × (reading_of k ≡ Some stage.now.now)) × IsNewStage k.sent k.heard t.now stage.now) }
{
    is_commit_at(known, stage) && is_new_stage(known, t, stage)
}

/// Whether the open transaction, in a commit, may send this stage for the first time.
fn may_send_new_stage(known: &Knowledge<'_>, stage: &Stage<'_>) -> bool
    ensures { (k : Known) → KeepsKnowledge k known.now → IsTrue result ↔ MaySendNewStage k stage.now }
{
    match known.open_txn() {
        None => false,
        Some(t) => is_new_stage_in(known, t, stage),
    }
}

/// Whether the stage has the transaction's meta, timestamp and locks, and all of its writes that are in flight.
fn stages_all(t: &OwnTxn<'_>, stage: &Stage<'_>) -> bool
    ensures { IsTrue result ↔ StagesAll t.now stage.now }
{
    t.is_meta(stage.meta)
        && number(stage.ts) == t.write_ts()
        && t.locks().are(stage.locks)
        && !stage.writes.is_empty()
        && are_in_flight(stage.writes.as_slice(), t.writes().as_slice())
        && are_proved_by_if_proved(t.writes().as_slice(), stage.ts)
}

fn was_stage_sent(stage: &Stage<'_>, sent: &[Message<'_>]) -> bool
    ensures { IsTrue result ↔ Any (λ m. m.request ≡ stage_request stage.now) sent.now }
{
    sent.iter().any(|message| stage.is(message.request))
}

/// Whether the stage is of the transaction's epoch, was sent before and is not late.
fn is_stage_again(
    t: &OwnTxn<'_>,
    stage: &Stage<'_>,
    sent: &[Message<'_>],
    heard: &[Hearing<'_>],
) -> bool
    ensures { IsTrue result ↔ IsStageAgain sent.now heard.now t.now stage.now }
{
    t.is_epoch(stage.meta.epoch) && was_stage_sent(stage, sent) && !stage.is_late(heard)
}

/// Whether a transaction of the session may send this stage again.
fn may_send_stage_again(known: &Knowledge<'_>, stage: &Stage<'_>) -> bool
    ensures { (k : Known) → KeepsKnowledge k known.now → IsTrue result ↔ MaySendStageAgain k stage.now }
{
    match known.own_txn(stage.meta.id) {
        None => false,
        Some(t) => {
            let id = stage.meta.id;
            is_stage_again(t, stage, known.deciding(id), known.replies(id))
        },
    }
}

/// Whether the session may send this stage, for the first time or again.
pub fn may_send_stage(known: &Knowledge<'_>, stage: &Stage<'_>) -> bool
    ensures { (k : Known) → KeepsKnowledge k known.now → IsTrue result ↔ MaySendStage k stage.now }
{
    may_send_new_stage(known, stage) || may_send_stage_again(known, stage)
}
