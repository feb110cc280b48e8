ghost use Rattle.std.specs.Prelude.{◌≡◌, ℕ, true, List, [], ◌∷◌, Some, IfOk};
ghost use Rattle.pc_call.specs.declared.later.LaterPut.{LaterPut};
ghost use Rattle.pc_call.specs.Stages.{HasOutbox, IsUndecidedAt};
ghost use Rattle.pc_call.specs.Setting.{Setting};
ghost use Rattle.pc_call.specs.Alive.{GoesOnAlive, call_kept};
ghost use Rattle.pc_call.specs.declared.purpose.Purpose.TheVariants as purposes;
ghost use Rattle.pc_call.specs.Finished.{MayTellOver, left_at};
ghost use Rattle.pc_call.specs.Fresh.{IsJustAsked};
ghost use Rattle.pc_call.specs.Learned.{known_heard};
ghost use Rattle.pc_call.specs.Serving.{InCall};
ghost use Rattle.pc_call.specs.Suiting.{SuitsFlightIn};
ghost use Rattle.pc_proto.specs.declared.answer.Answer.TheVariants as answers;
ghost use Rattle.pc_proto.specs.declared.call.Call.{Call};
ghost use Rattle.pc_proto.specs.declared.fate.Fate.TheVariants as fates;
ghost use Rattle.pc_proto.specs.declared.reply.Reply.{Reply};
ghost use Rattle.pc_proto.specs.declared.reply.Reply.TheVariants as replies;
ghost use Rattle.pc_proto.specs.declared.view.View.TheVariants as views;
ghost use Rattle.pc_proto.specs.declared.why.Why.{Why};
ghost use Rattle.pc_txn.specs.Counted.{IsCounted};
ghost use Rattle.pc_txn.specs.Silence.{is_silent, own_beat, raised_at};
ghost use Rattle.pc_wave.specs.Messages.{message_to_send, wave_awaits};
ghost use Rattle.pc_wave.specs.Standing.{IsHeardTo};
ghost use Rattle.pc_world.specs.Known.{Known};
ghost use Rattle.pc_world.specs.Known.Traffic.{Heard};
ghost use Rattle.pc_world.specs.Tell.Refusal.{MayBlock};

use crate::call::OpenCall;
use crate::opening::wave_of;
use crate::over::{Over, left_of};
use crate::purpose::Purpose;
use pc_base::{Key, NoMemory, Timestamp};
use pc_proto::{Answer, Call, Fate, Why};
use pc_txn::OpenTxn;
use std::alloc::Global;

impl OpenCall {
    /// The open transaction, which has been silent for a second, shows first that it is alive, in the call that was asked at this reading.
    pub fn beat(
        alloc: Global,
        txn: &OpenTxn,
        anchor: &Key,
        call: Call,
        reading: u64,
    ) -> Result<OpenCall, NoMemory>
        ensures made { IfOk result (λ made. made.wave ≡ message_to_send (own_beat txn.now reading anchor.now) ∷ []) }
        ensures stands { (set : Setting) (k : Known) (later : List LaterPut) (why : Why) → HasOutbox set.course.loses k txn.now later → IsJustAsked k txn.now (record { call = call; reading = reading }) why → MayBlock call → SuitsFlightIn set.course.pipelines call txn.now.in_flight → is_silent reading txn.now ≡ true → txn.now.anchor ≡ Some anchor.now → IfOk result (λ made. InCall set k txn.now made.purpose made.wave) }
    {
        let wave = wave_of(alloc, txn.beat(anchor, reading)?)?;
        Ok(OpenCall {
            purpose: Purpose::Beat { call, reading },
            wave,
        })
    }

    /// Its heartbeat was heard, by a reply that was evaluated at this step: the record of its transaction is not final, and stands at this
    /// timestamp. The call that goes on.
    pub fn alive(self, txn: &mut OpenTxn, recorded: Timestamp, step: u64) -> Option<Call>
        ensures risen { txn.new ≡ raised_at recorded step txn.old }
        ensures kept { result ≡ call_kept self.purpose }
        ensures goes_on { (session clock begun number reading : ℕ) (set : Setting) (k : Known) (call : Call) (reply : Reply) (h : Heard) → IsCounted session clock begun k → InCall set k txn.old self.purpose self.wave → self.purpose ≡ purposes.Beat call reading → wave_awaits number self.wave ≡ true → IsHeardTo k number reply h → IsUndecidedAt reply recorded → h.step ≡ step → GoesOnAlive set.course (known_heard h k) txn.new (record { call = call; reading = reading }) }
    {
        txn.raise(recorded, step);
        let OpenCall { purpose, .. } = self;
        match purpose {
            Purpose::Beat { call, .. } => Some(call),
            _ => None,
        }
    }

    /// Its heartbeat was heard to find the transaction aborted, for this cause: its transaction is over.
    pub fn found_aborted(self, txn: OpenTxn, why: Why) -> Over
        ensures made { result ≡ record { answer = answers.Aborted why; left = left_at txn.anchor fates.Aborted txn } }
        ensures over { (session clock begun number epoch reading : ℕ) (set : Setting) (k : Known) (call : Call) (locks : List (List ℕ)) (h : Heard) → IsCounted session clock begun k → InCall set k txn self.purpose self.wave → self.purpose ≡ purposes.Beat call reading → wave_awaits number self.wave ≡ true → IsHeardTo k number (replies.Status (views.Aborted epoch why locks)) h → MayTellOver set session (known_heard h k) result }
    {
        Over {
            answer: Answer::Aborted { why },
            left: left_of(txn, Fate::Aborted),
        }
    }
}
