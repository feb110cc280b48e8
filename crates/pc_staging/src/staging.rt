ghost use Rattle.std.specs.Prelude.{◌≡◌, ◌↔◌, ◌++◌, ◌∷◌, [], ℕ, true, false, Contains, IsTrue, List, map, None, OnErr, OnOk, Option, Some};
ghost use Rattle.std.specs.List.{list_all};
ghost use Rattle.pc_flight.specs.InFlight.{FlightStands};
ghost use Rattle.pc_proto.specs.declared.view.View.{View};
ghost use Rattle.pc_proto.specs.Views.{is_final_view, is_staging_at};
ghost use Rattle.pc_staging.specs.Hearing.{HasSentNothing, HearsBeat, HearsCommit, HearsMissing, HearsStage, HearsWritten, SendsCommit, SendsStage};
ghost use Rattle.pc_staging.specs.Kept.{Evidence, after_commit, after_stage, after_view, is_dead_by, is_just, is_live_at, is_over, is_passed_by, is_refuted, is_staged_and_proved, later_step, nothing_kept, refuted_above, refuted_at, seen_undecided, with_stages, without_stages, without_stage};
ghost use Rattle.pc_staging.specs.Standing.{IsPassedAll, StagingStands, commit_after, stages_after};
ghost use Rattle.pc_world.specs.Known.{Known};
ghost use Rattle.pc_world.specs.Known.Traffic.{Heard};
ghost use Rattle.pc_world.specs.Known.Transactions.{Txn, txn_heard, txn_sent};
ghost use Rattle.pc_world.specs.StageFate.{IsLate, IsUncommitted, SentCommit, SentStage, commit_request, stage_request};
ghost use Rattle.pc_world.specs.Tell.End.{IsImplicit};
ghost use Rattle.pc_world.specs.Tell.Refusal.{MayHaveCommitted};

use crate::stage_out::StageOut;
use pc_base::{NoMemory, Timestamp};
use pc_flight::Flight;
use pc_proto::View;
use std::alloc::Global;
use std::marker::Model;

/// What became of the stages and commits that the open transaction sent, by what its session heard.
///
/// Steps are those of the history at which replies were evaluated. A stage that was told that its record went another way is dead, and is
/// not kept any longer.
#[derive(Debug, Drop)]
pub struct Staging {
    stages: Vec<StageOut>,
    /// Where a stage of this epoch was last heard to be staged.
    staged: Option<Timestamp>,
    /// The last step at which the record was seen that is not final.
    undecided: Option<u64>,
    /// The commit that was sent and not refused.
    commit: Option<Timestamp>,
}

impl Model for Staging {
    ghost use Rattle.pc_staging.specs.Kept.{Evidence};

    ghost Value = { Evidence };

    ghost view = { λ s. record { stages = s.stages.items; staged = s.staged; undecided = s.undecided; commit = s.commit } };
}

impl Staging {
    /// A transaction begins: it has staged and committed nothing.
    pub fn new(alloc: Global) -> Staging
        ensures made { result ≡ nothing_kept }
        ensures stands { (k : Known) (t : Txn) → HasSentNothing k t → StagingStands k [] None t result }
    {
        Staging {
            stages: Vec::new(alloc),
            staged: None,
            undecided: None,
            commit: None,
        }
    }

    /// Whether a stage or commit may be sent at the write timestamp: each earlier stage is late, and each earlier commit refused.
    pub fn is_passed(&self) -> bool
        ensures made { result ≡ is_passed_by self.now }
        ensures exactly { (k : Known) (stages : List SentStage) (commit : Option SentCommit) (t : Txn) → StagingStands k stages commit t self.now → IsTrue result ↔ IsPassedAll k t }
    {
        self.commit.is_none() && self.are_late()
    }

    fn are_late(&self) -> bool
        ensures { result ≡ list_all is_refuted self.now.stages }
    {
        self.stages.iter().all(|stage| stage.is_late())
    }

    /// Whether nothing of the transaction can have committed: each stage is dead, and each commit refused.
    pub fn is_uncommitted(&self) -> bool
        ensures made { result ≡ is_over self.now }
        ensures exactly { (k : Known) (stages : List SentStage) (commit : Option SentCommit) (t : Txn) → StagingStands k stages commit t self.now → IsTrue result ↔ IsUncommitted t.id k.sent k.heard }
        ensures doubt { (k : Known) (stages : List SentStage) (commit : Option SentCommit) (t : Txn) → StagingStands k stages commit t self.now → result ≡ false → MayHaveCommitted k t.id }
    {
        self.commit.is_none() && self.are_dead(self.undecided)
    }

    fn are_dead(&self, undecided: Option<u64>) -> bool
        ensures { result ≡ list_all (is_dead_by undecided) self.now.stages }
    {
        self.stages.iter().all(|stage| stage.is_dead(undecided))
    }

    /// Whether the stage at this timestamp may be sent again: it is not late.
    pub fn is_live(&self, ts: Timestamp) -> bool
        ensures made { result ≡ is_live_at ts self.now }
        ensures exactly { (k : Known) (stages : List SentStage) (commit : Option SentCommit) (t : Txn) (s : SentStage) → StagingStands k stages commit t self.now → Contains stages s → s.ts ≡ ts → IsTrue result ↔ (IsLate k.heard s → ⊥) }
    {
        self.has_live(ts)
    }

    fn has_live(&self, ts: Timestamp) -> bool
        ensures { result ≡ is_live_at ts self.now }
    {
        self.stages
            .iter()
            .any(|stage| stage.ts == ts && !stage.is_late())
    }

    /// Whether the stage at this timestamp is where the record was last heard to stage.
    pub fn is_staged_at(&self, ts: Timestamp) -> bool
        ensures { result ≡ is_just ts self.now.staged }
    {
        self.staged.is_some_and(|staged| staged == ts)
    }

    /// Whether the transaction is committed by its stage: no write is in flight any more, and it was heard to be staged at its write
    /// timestamp.
    pub fn is_committed(&self, flight: &Flight, write_ts: Timestamp) -> bool
        ensures made { result ≡ is_staged_and_proved flight.now write_ts self.now }
        ensures implicit { (k : Known) (stages : List SentStage) (commit : Option SentCommit) (t : Txn) → StagingStands k stages commit t self.now → FlightStands flight.now t → write_ts ≡ t.write_ts → IsTrue result → IsImplicit k t write_ts }
    {
        flight.is_empty() && self.staged.is_some_and(|ts| ts == write_ts)
    }

    /// A stage was sent at this timestamp, for the first time: the transaction's write timestamp, where `is_passed` says that it may.
    pub fn sent_stage(&mut self, ts: Timestamp) -> Result<(), NoMemory>
        ensures made { OnOk result (self.new ≡ with_stages (self.old.stages ++ record { ts = ts; refuted = None } ∷ []) self.old) }
        ensures refused { OnErr result (self.new ≡ self.old) }
        ensures stands { (k now : Known) (stages : List SentStage) (commit : Option SentCommit) (t : Txn) (s : SentStage) → StagingStands k stages commit t self.old → is_passed_by self.old ≡ true → SendsStage k now t s → s.ts ≡ ts → OnOk result (StagingStands now (stages ++ s ∷ []) commit (txn_sent (stage_request s) t) self.new) }
    {
        self.stages.push(StageOut { ts, refuted: None })?;
        Ok(())
    }

    /// A commit was sent at this timestamp, for the first time, where `is_passed` says that it may.
    pub fn sent_commit(&mut self, ts: Timestamp)
        ensures made { self.new ≡ record self.old { commit = Some ts } }
        ensures stands { (k now : Known) (stages : List SentStage) (commit : Option SentCommit) (t : Txn) (c : SentCommit) → StagingStands k stages commit t self.old → is_passed_by self.old ≡ true → SendsCommit k now t c → c.ts ≡ ts → StagingStands now stages (Some c) (txn_sent (commit_request c) t) self.new }
    {
        self.commit = Some(ts);
    }

    /// The stage at this timestamp, of the present epoch, was told this of its record, by a reply that was evaluated at this step.
    pub fn heard_stage(&mut self, epoch: u32, ts: Timestamp, step: u64, view: &View)
        ensures made { self.new ≡ after_stage epoch ts step view.now self.old }
        ensures stands { (k now : Known) (stages : List SentStage) (commit : Option SentCommit) (t : Txn) (s : SentStage) (h : Heard) → StagingStands k stages commit t self.old → Contains stages s → HearsStage k now s view.now h → s.ts ≡ ts → t.epoch ≡ epoch → h.step ≡ step → StagingStands now (stages_after epoch ts view.now stages) commit (txn_heard k.sent (Some h) t) self.new }
    {
        if is_final(view) {
            return;
        }
        self.see(step);
        if is_staging(view, epoch, ts) {
            self.staged = Some(ts);
        } else {
            self.leave(ts);
        }
    }

    /// The commit that was sent was told this of its record, by a reply that was evaluated at this step.
    pub fn heard_commit(&mut self, step: u64, view: &View)
        ensures made { self.new ≡ after_commit step view.now self.old }
        ensures stands { (k now : Known) (stages : List SentStage) (t : Txn) (c : SentCommit) (h : Heard) → StagingStands k stages (Some c) t self.old → HearsCommit k now c view.now h → h.step ≡ step → StagingStands now stages (commit_after view.now c) (txn_heard k.sent (Some h) t) self.new }
    {
        if !is_final(view) {
            self.commit_refused(step);
        }
    }

    /// The commit that was sent was refused: its record is not final, by a reply that was evaluated at this step.
    pub fn commit_refused(&mut self, step: u64)
        ensures made { self.new ≡ record (seen_undecided step self.old) { commit = None } }
        ensures stands { (k now : Known) (stages : List SentStage) (t : Txn) (c : SentCommit) (view : View) (h : Heard) → StagingStands k stages (Some c) t self.old → HearsCommit k now c view h → is_final_view view ≡ false → h.step ≡ step → StagingStands now stages None (txn_heard k.sent (Some h) t) self.new }
    {
        self.see(step);
        self.commit = None;
    }

    /// A heartbeat was told this of the record, by a reply that was evaluated at this step.
    pub fn heard_beat(&mut self, step: u64, view: &View)
        ensures made { self.new ≡ after_view step view.now self.old }
        ensures stands { (k now : Known) (stages : List SentStage) (commit : Option SentCommit) (t : Txn) (h : Heard) → StagingStands k stages commit t self.old → HearsBeat k now t view.now h → h.step ≡ step → StagingStands now stages commit (txn_heard k.sent (Some h) t) self.new }
    {
        if !is_final(view) {
            self.see(step);
        }
    }

    /// A write in flight was written at this timestamp, by a reply that was evaluated at this step.
    pub fn heard_written(&mut self, ts: Timestamp, step: u64)
        ensures made { self.new ≡ with_stages (map (refuted_above ts step) self.old.stages) self.old }
        ensures stands { (k now : Known) (stages : List SentStage) (commit : Option SentCommit) (t : Txn) (h : Heard) → StagingStands k stages commit t self.old → HearsWritten k now t ts h → h.step ≡ step → StagingStands now stages commit (txn_heard k.sent (Some h) t) self.new }
    {
        self.refute_below(ts, step);
    }

    /// A query of a write in flight missed it at this timestamp, at which a stage lists it, by a reply that was evaluated at this step.
    pub fn heard_missing(&mut self, ts: Timestamp, step: u64)
        ensures made { self.new ≡ with_stages (map (refuted_at ts step) self.old.stages) self.old }
        ensures stands { (k now : Known) (stages : List SentStage) (commit : Option SentCommit) (t : Txn) (h : Heard) → StagingStands k stages commit t self.old → HearsMissing k now t ts h → h.step ≡ step → StagingStands now stages commit (txn_heard k.sent (Some h) t) self.new }
    {
        self.refute_at(ts, step);
    }

    /// The stages are dead, so that the transaction may write again, or begins its next epoch.
    pub fn forget(&mut self)
        ensures made { self.new ≡ without_stages self.old }
        ensures stands { (k : Known) (stages : List SentStage) (commit : Option SentCommit) (t : Txn) → StagingStands k stages commit t self.old → is_over self.old ≡ true → StagingStands k [] None t self.new }
    {
        self.stages.clear();
        self.staged = None;
    }

    fn refute_below(&mut self, ts: Timestamp, step: u64)
        ensures { self.new ≡ with_stages (map (refuted_above ts step) self.old.stages) self.old }
    {
        for stage in self.stages.iter_mut() {
            stage.refute_below(ts, step);
        }
    }

    fn refute_at(&mut self, ts: Timestamp, step: u64)
        ensures { self.new ≡ with_stages (map (refuted_at ts step) self.old.stages) self.old }
    {
        for stage in self.stages.iter_mut() {
            stage.refute_at(ts, step);
        }
    }

    /// The record was seen that is not final, by a reply that was evaluated at this step.
    pub fn undecided(&mut self, step: u64)
        ensures { self.new ≡ seen_undecided step self.old }
    {
        self.see(step);
    }

    fn see(&mut self, step: u64)
        ensures { self.new ≡ seen_undecided step self.old }
    {
        self.undecided = Some(last_of(self.undecided, step));
    }

    fn leave(&mut self, ts: Timestamp)
        ensures { self.new ≡ without_stage ts self.old }
    {
        self.stages.retain(|stage| stage.ts != ts);
        self.staged = None;
    }
}

fn last_of(last: Option<u64>, step: u64) -> u64
    ensures { result ≡ later_step last step }
{
    match last {
        Some(last) => last.max(step),
        None => step,
    }
}

fn is_final(view: &View) -> bool
    ensures { result ≡ is_final_view view.now }
{
    matches!(view, View::Committed { .. } | View::Aborted { .. })
}

fn is_staging(view: &View, epoch: u32, ts: Timestamp) -> bool
    ensures { result ≡ is_staging_at epoch ts view.now }
{
    match view {
        View::Staging {
            epoch: staged,
            ts: at,
            ..
        } => *staged == epoch && *at == ts,
        _ => false,
    }
}
