//! What has become of a stage or commit of a transaction, by the replies that its session heard.

ghost use Rattle.std.specs.Prelude.{◌≡◌, ◌↔◌, false, not, Any, IsTrue};
ghost use Rattle.std.specs.Option.{option_map_or};
ghost use Rattle.pc_proto.specs.Replies.{is_undecided_status, view_in};
ghost use Rattle.pc_proto.specs.Requests.{is_about};
ghost use Rattle.pc_proto.specs.Views.{is_final_view};
ghost use Rattle.pc_world.specs.Known.Transactions.{lists_write};
ghost use Rattle.pc_world.specs.StageFate.{EachCommit, EachStage, IsDead, IsDeadByWrite, IsLate, IsLateByRecord, IsUncommitted, IsUnsettledAfter, OnCommit, OnStage, Refuses, RefutesRecord, RefutesWrite, WasCommitRefused, commit_request, is_past_stage, is_write_refuted, shows_past, stage_request};
ghost use Rattle.pc_world.specs.Views.{shows_undecided};

use crate::same::{same_keys, same_meta, same_writes};
use crate::traffic::{Hearing, Message};
use pc_base::{Key, Timestamp, TxnId};
use pc_proto::{Keys, Reply, Request, TxnMeta, View, Writes};
use std::marker::Model;

/// A stage that was sent.
#[derive(Drop)]
pub struct Stage<'a> {
    pub meta: &'a TxnMeta,
    pub ts: Timestamp,
    pub reading: u64,
    pub writes: &'a Writes,
    pub locks: &'a Keys,
}

impl<'a> Model for Stage<'a> {
    ghost use Rattle.pc_world.specs.StageFate.{SentStage};

    ghost Value = { SentStage };

    ghost view = { λ s. record { meta = s.meta.now; ts = s.ts; now = s.reading; writes = s.writes.now; locks = s.locks.now } };
}

/// A commit that was sent.
#[derive(Drop)]
pub struct Commit<'a> {
    pub meta: &'a TxnMeta,
    pub ts: Timestamp,
    pub locks: &'a Keys,
}

impl<'a> Model for Commit<'a> {
    ghost use Rattle.pc_world.specs.StageFate.{SentCommit};

    ghost Value = { SentCommit };

    ghost view = { λ c. record { meta = c.meta.now; ts = c.ts; locks = c.locks.now } };
}

/// Whether the view is final.
pub fn is_final(view: &View) -> bool
    ensures { result ≡ is_final_view view.now }
{
    match view {
        View::Committed { .. } | View::Aborted { .. } => true,
        View::Nothing | View::Pending { .. } | View::Staging { .. } => false,
    }
}

/// Whether the reply shows a record that is not final.
pub fn is_undecided(reply: &Reply) -> bool
    ensures { result ≡ is_undecided_status reply.now }
{
    match reply {
        Reply::Status(view) => !is_final(view),
        _ => false,
    }
}

/// Whether the request speaks of the record of this transaction.
pub fn is_about(id: TxnId, request: &Request) -> bool
    ensures { result ≡ is_about id request.now }
{
    match request {
        Request::Beat { meta, .. }
        | Request::Stage { meta, .. }
        | Request::Commit { meta, .. }
        | Request::Abort { meta, .. } => meta.id == id,
        Request::Push { holder, .. } => holder.id == id,
        Request::Recover { id: other, .. } | Request::Remove { id: other, .. } => *other == id,
        _ => false,
    }
}

/// Whether a view of the transaction that is not final was heard.
fn shows_undecided(id: TxnId, hearing: &Hearing<'_>) -> bool
    ensures { result ≡ shows_undecided id hearing.now.request hearing.now.reply }
{
    is_about(id, hearing.request) && has_undecided_view(hearing.reply)
}

fn has_undecided_view(reply: &Reply) -> bool
    ensures { result ≡ option_map_or (λ view. not (is_final_view view)) (view_in reply.now) false }
{
    match reply {
        Reply::Status(view) | Reply::Refused(view) | Reply::Unsure(view) => !is_final(view),
        _ => false,
    }
}

/// Whether the list has the write of this key and sequence.
pub fn lists_write(writes: &Writes, key: &Key, seq: u32) -> bool
    ensures { result ≡ lists_write key.now seq writes.now }
{
    writes
        .as_slice()
        .iter()
        .any(|write| write.0 == *key && write.1 == seq)
}

impl<'a> Stage<'a> {
    /// Whether the request is this stage.
    pub fn is(&self, request: &Request) -> bool
        ensures { IsTrue result ↔ (request.now ≡ stage_request self.now) }
    {
        match request {
            Request::Stage {
                meta,
                ts,
                now,
                writes,
                locks,
            } => {
                same_meta(meta, self.meta)
                    && *ts == self.ts
                    && *now == self.reading
                    && same_writes(writes, self.writes)
                    && same_keys(locks, self.locks)
            }
            _ => false,
        }
    }

    /// Whether the reply says that one of its writes stands above it or is missing.
    fn is_write_refuted(&self, request: &Request, reply: &Reply) -> bool
        ensures { result ≡ is_write_refuted self.now request.now reply.now }
    {
        match (request, reply) {
            (Request::Put { meta, seq, key, .. }, Reply::Written { ts }) => {
                meta.id == self.meta.id
                    && meta.epoch == self.meta.epoch
                    && (lists_write(self.writes, key, *seq) && self.ts < *ts)
            }
            (
                Request::Query {
                    id,
                    epoch,
                    seq,
                    ts,
                    key,
                    ..
                },
                Reply::Missing,
            ) => {
                *id == self.meta.id
                    && *epoch == self.meta.epoch
                    && (*ts == self.ts && lists_write(self.writes, key, *seq))
            }
            _ => false,
        }
    }

    /// Whether the reply shows that the record went another way.
    fn shows_past(&self, reply: &Reply) -> bool
        ensures { result ≡ shows_past self.now reply.now }
    {
        match reply {
            Reply::Status(view) => self.is_past(view),
            _ => false,
        }
    }

    fn is_past(&self, view: &View) -> bool
        ensures { result ≡ is_past_stage self.now view.now }
    {
        match view {
            View::Staging { epoch, ts, .. } => !(*epoch == self.meta.epoch && *ts == self.ts),
            View::Pending { .. } | View::Nothing => true,
            View::Committed { .. } | View::Aborted { .. } => false,
        }
    }

    fn refutes_write(&self, hearing: &Hearing<'_>) -> bool
        ensures { IsTrue result ↔ RefutesWrite self.now hearing.now }
    {
        self.is_write_refuted(hearing.request, hearing.reply)
    }

    fn refutes_record(&self, hearing: &Hearing<'_>) -> bool
        ensures { IsTrue result ↔ RefutesRecord self.now hearing.now }
    {
        self.is(hearing.request) && self.shows_past(hearing.reply)
    }

    /// Whether it was told, in some reply to itself, that the record went another way.
    pub fn is_late_by_record(&self, heard: &[Hearing<'_>]) -> bool
        ensures { IsTrue result ↔ IsLateByRecord heard.now self.now }
    {
        heard.iter().any(|hearing| self.refutes_record(hearing))
    }

    /// Whether it will not commit by itself.
    pub fn is_late(&self, heard: &[Hearing<'_>]) -> bool
        ensures { IsTrue result ↔ IsLate heard.now self.now }
    {
        heard.iter().any(|hearing| self.refutes_write(hearing) || self.refutes_record(hearing))
    }

    fn is_unsettled_after(&self, hearing: &Hearing<'_>, later: &Hearing<'_>) -> bool
        ensures { IsTrue result ↔ IsUnsettledAfter self.now hearing.now later.now }
    {
        hearing.step < later.step && shows_undecided(self.meta.id, later)
    }

    fn is_undecided_after(&self, heard: &[Hearing<'_>], hearing: &Hearing<'_>) -> bool
        ensures { IsTrue result ↔ Any (IsUnsettledAfter self.now hearing.now) heard.now }
    {
        heard
            .iter()
            .any(|later| self.is_unsettled_after(hearing, later))
    }

    fn is_dead_by_write(&self, heard: &[Hearing<'_>], hearing: &Hearing<'_>) -> bool
        ensures { IsTrue result ↔ IsDeadByWrite heard.now self.now hearing.now }
    {
        self.refutes_write(hearing) && self.is_undecided_after(heard, hearing)
    }

    /// Whether it commits nothing any more.
    pub fn is_dead(&self, heard: &[Hearing<'_>]) -> bool
        ensures { IsTrue result ↔ IsDead heard.now self.now }
    {
        self.is_late_by_record(heard) || self.is_some_dead_by_write(heard, heard)
    }

    /// Whether one of these replies says that the stage is dead, by what was heard.
    fn is_some_dead_by_write<'b>(&self, replies: &[Hearing<'b>], heard: &[Hearing<'b>]) -> bool
        ensures { IsTrue result ↔ Any (IsDeadByWrite heard.now self.now) replies.now }
    {
        replies
            .iter()
            .any(|hearing| self.is_dead_by_write(heard, hearing))
    }
}

impl<'a> Commit<'a> {
    /// Whether the request is this commit.
    pub fn is(&self, request: &Request) -> bool
        ensures { IsTrue result ↔ (request.now ≡ commit_request self.now) }
    {
        match request {
            Request::Commit { meta, ts, locks } => {
                same_meta(meta, self.meta) && *ts == self.ts && same_keys(locks, self.locks)
            }
            _ => false,
        }
    }

    fn is_refused_by(&self, hearing: &Hearing<'_>) -> bool
        ensures { IsTrue result ↔ Refuses self.now hearing.now }
    {
        self.is(hearing.request) && is_undecided(hearing.reply)
    }

    /// Whether it was told that the record is not final.
    pub fn is_refused(&self, heard: &[Hearing<'_>]) -> bool
        ensures { IsTrue result ↔ WasCommitRefused heard.now self.now }
    {
        heard.iter().any(|hearing| self.is_refused_by(hearing))
    }
}

fn is_dead_stage(id: TxnId, heard: &[Hearing<'_>], request: &Request) -> bool
    ensures { IsTrue result ↔ OnStage id (IsDead heard.now) request.now }
{
    match request {
        Request::Stage {
            meta,
            ts,
            now,
            writes,
            locks,
        } => {
            let stage = Stage {
                meta,
                ts: *ts,
                reading: *now,
                writes,
                locks,
            };
            meta.id != id || stage.is_dead(heard)
        }
        _ => true,
    }
}

fn is_refused_commit(id: TxnId, heard: &[Hearing<'_>], request: &Request) -> bool
    ensures { IsTrue result ↔ OnCommit id (WasCommitRefused heard.now) request.now }
{
    match request {
        Request::Commit { meta, ts, locks } => {
            let commit = Commit {
                meta,
                ts: *ts,
                locks,
            };
            meta.id != id || commit.is_refused(heard)
        }
        _ => true,
    }
}

fn are_stages_dead(id: TxnId, sent: &[Message<'_>], heard: &[Hearing<'_>]) -> bool
    ensures { IsTrue result ↔ EachStage id sent.now (IsDead heard.now) }
{
    sent.iter()
        .all(|message| is_dead_stage(id, heard, message.request))
}

fn are_commits_refused(id: TxnId, sent: &[Message<'_>], heard: &[Hearing<'_>]) -> bool
    ensures { IsTrue result ↔ EachCommit id sent.now (WasCommitRefused heard.now) }
{
    sent.iter()
        .all(|message| is_refused_commit(id, heard, message.request))
}

/// Whether every stage of the transaction is dead, and every commit refused.
pub fn is_uncommitted(id: TxnId, sent: &[Message<'_>], heard: &[Hearing<'_>]) -> bool
    ensures { IsTrue result ↔ IsUncommitted id sent.now heard.now }
{
    are_stages_dead(id, sent, heard) && are_commits_refused(id, sent, heard)
}
