ghost use Rattle.std.specs.Prelude.{Bool, ◌≡◌, ℕ, ◌<◌, true, List, [], ◌∷◌, None, Some, IfOk};
ghost use Rattle.pc_call.specs.declared.later.LaterPut.{LaterPut};
ghost use Rattle.pc_call.specs.Setting.{Setting};
ghost use Rattle.pc_call.specs.Suiting.{SuitsFlightIn};
ghost use Rattle.pc_base.specs.declared.limits.TheConstants.{MOST_REFUSALS};
ghost use Rattle.pc_call.specs.Committing.{AreRefusals, IsRefusalOf};
ghost use Rattle.pc_call.specs.declared.purpose.Purpose.TheVariants as purposes;
ghost use Rattle.pc_call.specs.Finished.{MayTellOver, left_at};
ghost use Rattle.pc_call.specs.Fresh.{IsFresh};
ghost use Rattle.pc_call.specs.Learned.{known_heard};
ghost use Rattle.pc_call.specs.Serving.{InCall};
ghost use Rattle.pc_proto.specs.declared.answer.Answer.TheVariants as answers;
ghost use Rattle.pc_proto.specs.declared.call.Call.TheVariants as calls;
ghost use Rattle.pc_proto.specs.declared.fate.Fate.TheVariants as fates;
ghost use Rattle.pc_proto.specs.declared.reply.Reply.{Reply};
ghost use Rattle.pc_proto.specs.declared.reply.Reply.TheVariants as replies;
ghost use Rattle.pc_proto.specs.declared.view.View.TheVariants as views;
ghost use Rattle.pc_proto.specs.declared.why.Why.{Why};
ghost use Rattle.pc_refusals.specs.Moves.{CountsMoves, ShowsRecord};
ghost use Rattle.pc_txn.specs.Counted.{IsCounted};
ghost use Rattle.pc_txn.specs.Opened.{refused_at};
ghost use Rattle.pc_wave.specs.Messages.{wave_awaits};
ghost use Rattle.pc_wave.specs.Standing.{HasMore, IsHeardTo};
ghost use Rattle.pc_world.specs.Known.{Known};
ghost use Rattle.pc_world.specs.Known.Statements.{Statement};
ghost use Rattle.pc_world.specs.Known.Transactions.{Txn};
ghost use Rattle.pc_world.specs.Known.Traffic.{Heard};
ghost use Rattle.pc_call.specs.Behind.{MayFindAborted, MayFindCommitted, left_behind};
ghost use Rattle.pc_call.specs.Outbox.{AreToSendOrOnWay, MayWait};
ghost use Rattle.pc_call.specs.Stages.{CommitsBy, CommitsOnFrom, DecidesNow, HasOutbox, IsUndecidedAt, KeepsOutbox};

use crate::call::OpenCall;
use crate::later::Later;
use crate::over::{Over, left_after, left_of};
use crate::purpose::Purpose;
use pc_base::{Key, NoMemory, Timestamp};
use pc_proto::{Answer, Fate, Why};
use pc_refusals::Refusals;
use pc_txn::OpenTxn;
use pc_wave::Wave;
use std::alloc::Global;

impl OpenCall {
    /// The open transaction, which wrote, goes on to commit in the call that was asked at this reading, after its commit was moved so often: what it
    /// read is refreshed first, where it writes above where it reads. These are the puts of its last stage, if there was one. Refused for want of memory alone.
    pub fn commits(
        alloc: Global,
        txn: &OpenTxn,
        later: &mut Later,
        reading: u64,
        refusals: Refusals,
        puts: Wave,
    ) -> Result<OpenCall, NoMemory>
        ensures takes { IfOk result (λ made. CommitsBy later.old later.new made) }
        ensures unsent { IfOk result (λ made. AreToSendOrOnWay made.wave) }
        ensures outbox { (loses : Bool) (k : Known) → HasOutbox loses k txn.now later.old → IfOk result (λ made. KeepsOutbox loses k txn.now later.new made.wave) }
        ensures goes_on { (set : Setting) (k : Known) (t : Txn) (s : Statement) → CommitsOnFrom set.course.loses t.read_ts refusals k t txn.now s puts → HasOutbox set.course.loses k txn.now later.old → MayWait set.course.pipelines later.old → s.reading ≡ reading → SuitsFlightIn set.course.pipelines calls.Commit txn.now.in_flight → IfOk result (λ call. InCall set k txn.now call.purpose call.wave) }
        ensures begins { (set : Setting) (k : Known) (s : Statement) (why : Why) (anchor : List ℕ) → IsFresh set.course.loses k txn.now s why → SuitsFlightIn set.course.pipelines s.call txn.now.in_flight → s.call ≡ calls.Commit → s.reading ≡ reading → refusals ≡ 0 → puts ≡ [] → txn.now.anchor ≡ Some anchor → HasOutbox set.course.loses k txn.now later.old → MayWait set.course.pipelines later.old → IfOk result (λ call. InCall set k txn.now call.purpose call.wave) }
    {
        if txn.reads.is_to_refresh(txn.write_ts) {
            return OpenCall::refresh(alloc, txn, refusals, puts);
        }
        OpenCall::decides(alloc, txn, later, reading, refusals, &puts)
    }

    /// The open transaction, which wrote, and whose reads are good at its write timestamp, stages its writes in flight, or commits where there are none.
    pub(crate) fn decides(
        alloc: Global,
        txn: &OpenTxn,
        later: &mut Later,
        reading: u64,
        refusals: Refusals,
        puts: &Wave,
    ) -> Result<OpenCall, NoMemory>
        ensures takes { IfOk result (λ made. CommitsBy later.old later.new made) }
        ensures unsent { IfOk result (λ made. AreToSendOrOnWay made.wave) }
        ensures outbox { (loses : Bool) (k : Known) → HasOutbox loses k txn.now later.old → IfOk result (λ made. KeepsOutbox loses k txn.now later.new made.wave) }
        ensures stands { (set : Setting) (k : Known) (s : Statement) → DecidesNow set.course.loses refusals k txn.now s puts.now → HasOutbox set.course.loses k txn.now later.old → MayWait set.course.pipelines later.old → s.reading ≡ reading → SuitsFlightIn set.course.pipelines calls.Commit txn.now.in_flight → IfOk result (λ call. InCall set k txn.now call.purpose call.wave) }
    {
        match &txn.anchor {
            Some(anchor) => {
                OpenCall::decides_at(alloc, txn, later, anchor, reading, refusals, puts)
            }
            None => Err(NoMemory),
        }
    }

    /// So it does where this is its anchor.
    fn decides_at(
        alloc: Global,
        txn: &OpenTxn,
        later: &mut Later,
        anchor: &Key,
        reading: u64,
        refusals: Refusals,
        puts: &Wave,
    ) -> Result<OpenCall, NoMemory>
        ensures takes { IfOk result (λ made. CommitsBy later.old later.new made) }
        ensures unsent { IfOk result (λ made. AreToSendOrOnWay made.wave) }
        ensures outbox { (loses : Bool) (k : Known) → HasOutbox loses k txn.now later.old → IfOk result (λ made. KeepsOutbox loses k txn.now later.new made.wave) }
        ensures stands { (set : Setting) (k : Known) (s : Statement) → txn.now.anchor ≡ Some anchor.now → DecidesNow set.course.loses refusals k txn.now s puts.now → HasOutbox set.course.loses k txn.now later.old → MayWait set.course.pipelines later.old → s.reading ≡ reading → SuitsFlightIn set.course.pipelines calls.Commit txn.now.in_flight → IfOk result (λ call. InCall set k txn.now call.purpose call.wave) }
    {
        if txn.in_flight.is_empty() {
            return OpenCall::commit(alloc, txn, anchor, refusals);
        }
        OpenCall::stage(alloc, txn, later, anchor, reading, refusals, puts)
    }

    /// Its commit was heard to be committed at this timestamp: its transaction is over.
    pub fn committed(self, txn: OpenTxn, epoch: u32, ts: Timestamp) -> Over
        ensures made { result ≡ record { answer = answers.Committed txn.id ts; left = left_at txn.anchor (fates.Committed epoch ts) txn } }
        ensures over { (session clock begun number n : ℕ) (set : Setting) (k : Known) (locks : List (List ℕ)) (h : Heard) → IsCounted session clock begun k → InCall set k txn self.purpose self.wave → self.purpose ≡ purposes.Commit n → wave_awaits number self.wave ≡ true → IsHeardTo k number (replies.Status (views.Committed epoch ts locks)) h → MayTellOver set session (known_heard h k) result }
    {
        over_committed(txn, None, epoch, ts)
    }

    /// Its record was heard to be committed at this timestamp otherwise than by its commit: its transaction is over, and its commit is to be sent first.
    pub fn found_committed(self, txn: OpenTxn, epoch: u32, ts: Timestamp) -> Over
        ensures made { result ≡ record { answer = answers.Committed txn.id ts; left = left_behind txn.anchor (Some ts) (fates.Committed epoch ts) txn } }
        ensures over { (session clock begun number : ℕ) (set : Setting) (k : Known) (locks : List (List ℕ)) (h : Heard) → IsCounted session clock begun k → InCall set k txn self.purpose self.wave → MayFindCommitted self.purpose → wave_awaits number self.wave ≡ true → IsHeardTo k number (replies.Status (views.Committed epoch ts locks)) h → MayTellOver set session (known_heard h k) result }
    {
        over_committed(txn, Some(ts), epoch, ts)
    }

    /// Its record was heard to be aborted for this cause: its transaction is over.
    pub fn aborted(self, txn: OpenTxn, why: Why) -> Over
        ensures made { result ≡ record { answer = answers.Aborted why; left = left_at txn.anchor fates.Aborted txn } }
        ensures over { (session clock begun number epoch : ℕ) (set : Setting) (k : Known) (locks : List (List ℕ)) (h : Heard) → IsCounted session clock begun k → InCall set k txn self.purpose self.wave → MayFindAborted self.purpose → wave_awaits number self.wave ≡ true → IsHeardTo k number (replies.Status (views.Aborted epoch why locks)) h → MayTellOver set session (known_heard h k) result }
    {
        Over {
            answer: Answer::Aborted { why },
            left: left_of(txn, Fate::Aborted),
        }
    }

    /// Its commit was heard to be refused: its record is not final, and stands at this timestamp, by a reply that was evaluated at this step. The
    /// refusals so far, with which its commit goes on; or none, where its commit was moved as often as it may be, and its call is told so.
    pub fn refused(self, txn: &mut OpenTxn, recorded: Timestamp, step: u64) -> Option<Refusals>
        ensures risen { txn.new ≡ refused_at recorded step txn.old }
        ensures refused { (session clock begun number n : ℕ) (set : Setting) (k : Known) (later : List LaterPut) (reply : Reply) (h : Heard) → IsCounted session clock begun k → InCall set k txn.old self.purpose self.wave → KeepsOutbox set.course.loses k txn.old later self.wave → self.purpose ≡ purposes.Commit n → wave_awaits number self.wave ≡ true → IsHeardTo k number reply h → IsUndecidedAt reply recorded → h.step ≡ step → IsRefusalOf set session (known_heard h k) recorded txn.new result }
    {
        let ts = txn.write_ts;
        txn.refused(recorded, step);
        match &self.purpose {
            Purpose::Commit { refusals } => with_refusal(refusals.copied(), ts, recorded),
            _ => None,
        }
    }

    /// The open transaction, which wrote nothing, is committed where it began, without a message.
    pub fn commit_unwritten(txn: OpenTxn) -> Over
        ensures made { result ≡ record { answer = answers.Committed txn.id txn.begin; left = None } }
        ensures over { (session : ℕ) (set : Setting) (k : Known) (s : Statement) (why : Why) → IsFresh set.course.loses k txn s why → s.call ≡ calls.Commit → txn.anchor ≡ None → MayTellOver set session k result }
    {
        Over {
            answer: Answer::Committed {
                id: txn.id,
                ts: txn.begin,
            },
            left: None,
        }
    }
}

/// The transaction is over, committed in this epoch at this timestamp; its record is to be committed first where a timestamp is given.
pub(crate) fn over_committed(
    txn: OpenTxn,
    staged: Option<Timestamp>,
    epoch: u32,
    ts: Timestamp,
) -> Over
    ensures { result ≡ record { answer = answers.Committed txn.id ts; left = left_behind txn.anchor staged (fates.Committed epoch ts) txn } }
{
    Over {
        answer: Answer::Committed { id: txn.id, ts },
        left: left_after(txn, staged, Fate::Committed { epoch, ts }),
    }
}

/// The refusals with that of a commit at this timestamp, whose record stands there; none where they are used up.
fn with_refusal(refusals: Refusals, ts: Timestamp, recorded: Timestamp) -> Option<Refusals>
    ensures { (k now : Known) (h : Heard) → CountsMoves k refusals → refusals < MOST_REFUSALS → ShowsRecord k ts recorded h → HasMore k now [] (h ∷ []) → AreRefusals now recorded result }
{
    let mut refusals = refusals;
    refusals.hear(ts, recorded);
    if refusals.are_used_up() {
        None
    } else {
        Some(refusals)
    }
}
