ghost use Rattle.std.specs.Prelude.{◌≡◌, [], ◌∷◌, ℕ, true, false, All, Some, IfOk, IfSome, is_some};
ghost use Rattle.pc_call.specs.Setting.{Setting};
ghost use Rattle.pc_proto.specs.declared.call.Call.TheVariants as calls;
ghost use Rattle.pc_call.specs.Suiting.{SuitsFlightIn};
ghost use Rattle.pc_call.specs.declared.purpose.Purpose.TheVariants as purposes;
ghost use Rattle.pc_call.specs.GivenUp.{GivesUpBy};
ghost use Rattle.pc_call.specs.GivingUp.{IsAfterAllHeard};
ghost use Rattle.pc_call.specs.Learned.{known_heard};
ghost use Rattle.pc_call.specs.Serving.{InCall};
ghost use Rattle.pc_call.specs.Stages.{IsUndecidedAt};
ghost use Rattle.pc_proto.specs.declared.answer.Answer.{Answer};
ghost use Rattle.pc_proto.specs.declared.reply.Reply.{Reply};
ghost use Rattle.pc_staging.specs.Kept.{is_over};
ghost use Rattle.pc_txn.specs.Counted.{IsCounted};
ghost use Rattle.pc_txn.specs.Silence.{own_beat, raised_at};
ghost use Rattle.pc_wave.specs.Messages.{is_to_send, message_to_send, wave_awaits};
ghost use Rattle.pc_wave.specs.Standing.{IsHeardTo};
ghost use Rattle.pc_world.specs.Known.{Known};
ghost use Rattle.pc_world.specs.Known.Statements.{Statement};
ghost use Rattle.pc_world.specs.Known.Traffic.{Heard};

use crate::call::OpenCall;
use crate::opening::wave_of;
use crate::purpose::Purpose;
use pc_base::{Key, NoMemory, Timestamp};
use pc_proto::Answer;
use pc_txn::OpenTxn;
use std::alloc::Global;

impl OpenCall {
    /// The open commit would give up by this answer while a recovery may have committed its transaction: a heartbeat of this reading shows first that none has.
    pub fn last_beat(
        alloc: Global,
        txn: &OpenTxn,
        anchor: &Key,
        reading: u64,
        then: Answer,
    ) -> Result<OpenCall, NoMemory>
        ensures made { IfOk result (λ made. made.wave ≡ message_to_send (own_beat txn.now reading anchor.now) ∷ []) }
        ensures unsent { IfOk result (λ made. All (λ m. is_to_send m ≡ true) made.wave) }
        ensures stands { (set : Setting) (k : Known) (s : Statement) → GivesUpBy set.course.loses k txn.now then → k.statement ≡ Some s → s.reading ≡ reading → txn.now.anchor ≡ Some anchor.now → is_over txn.now.staging ≡ false → SuitsFlightIn set.course.pipelines calls.Commit txn.now.in_flight → IfOk result (λ made. InCall set k txn.now made.purpose made.wave) }
    {
        let wave = wave_of(alloc, txn.beat(anchor, reading)?)?;
        Ok(OpenCall {
            purpose: Purpose::LastBeat { then, reading },
            wave,
        })
    }

    /// Its heartbeat was heard, by a reply that was evaluated at this step: the record of its transaction is not final, and stands at this timestamp. The
    /// answer by which it gives up.
    pub fn gives_up(self, txn: &mut OpenTxn, recorded: Timestamp, step: u64) -> Option<Answer>
        ensures some { (then : Answer) (reading : ℕ) → self.purpose ≡ purposes.LastBeat then reading → is_some result ≡ true }
        ensures risen { txn.new ≡ raised_at recorded step txn.old }
        ensures given { (session clock begun number reading : ℕ) (set : Setting) (k : Known) (then : Answer) (reply : Reply) (h : Heard) → IsCounted session clock begun k → InCall set k txn.old self.purpose self.wave → self.purpose ≡ purposes.LastBeat then reading → wave_awaits number self.wave ≡ true → IsHeardTo k number reply h → IsUndecidedAt reply recorded → IsAfterAllHeard k.heard h → h.step ≡ step → IfSome result (λ answer. (answer ≡ then) × GivesUpBy set.course.loses (known_heard h k) txn.new answer × (is_over txn.new.staging ≡ true)) }
    {
        txn.raise(recorded, step);
        let OpenCall { purpose, .. } = self;
        match purpose {
            Purpose::LastBeat { then, .. } => Some(then),
            _ => None,
        }
    }
}
