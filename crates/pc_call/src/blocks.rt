ghost use Rattle.std.specs.Prelude.{◌≡◌, ℕ, false, true, IfSome};
ghost use Rattle.pc_call.specs.Giving.{is_for_stage};
ghost use Rattle.std.specs.Option.{option_map};
ghost use Rattle.pc_call.specs.Setting.{Setting};
ghost use Rattle.pc_call.specs.Rounding.{GoesOnBeside, RefusesRound};
ghost use Rattle.pc_call.specs.Serving.{InCall};
ghost use Rattle.pc_call.specs.Telling.{MayTellOpen};
ghost use Rattle.pc_proto.specs.declared.answer.Answer.TheVariants as answers;
ghost use Rattle.pc_proto.specs.declared.reply.Reply.{Reply};
ghost use Rattle.pc_proto.specs.Replies.{holder_in};
ghost use Rattle.pc_staging.specs.Kept.{is_over, without_stages};
ghost use Rattle.pc_txn.specs.Counted.{IsCounted};
ghost use Rattle.pc_txn.specs.declared.txn.OpenTxn.{OpenTxn};
ghost use Rattle.pc_wave.specs.declared.step.Step.TheVariants as steps;
ghost use Rattle.pc_wave.specs.Messages.{step_of};
ghost use Rattle.pc_world.specs.Known.{Known};
ghost use Rattle.pc_world.specs.Tell.Refusal.{WasLost};
ghost use Rattle.pc_call.specs.Unanswered.{MayGiveUpLost};

use crate::call::OpenCall;
use pc_proto::{Answer, Reply};

impl OpenCall {
    /// In the round of this conflict, which one of its messages met, the push was refused: its call is told whose intent blocks it, and its transaction
    /// stays open. A write stays in flight.
    pub fn round_refused(self, conflict: &Reply) -> Option<Answer>
        ensures blocked { result ≡ option_map answers.Blocked (holder_in conflict.now) }
        ensures told { (session clock begun number : ℕ) (set : Setting) (start k : Known) (x : OpenTxn) → IsCounted session clock begun start → InCall set start x self.purpose self.wave → step_of self.wave ≡ steps.Round number conflict.now → RefusesRound start k x.id conflict.now → is_for_stage self.purpose ≡ false → IfSome result (λ answer. MayTellOpen set session k answer x) }
    {
        match conflict.holder() {
            Some(holder) => Some(Answer::Blocked { holder }),
            None => None,
        }
    }

    /// A message of it, or of the round of a conflict that it met, was lost so often, and nothing of its transaction can be committed: its call is told so, and its
    /// transaction, whose stages are forgotten, stays open.
    pub fn unavailable(self, faults: u32) -> Answer
        ensures made { result ≡ answers.Unavailable faults }
        ensures told { (session : ℕ) (set : Setting) (start k : Known) (x : OpenTxn) → set.course.loses ≡ true → MayGiveUpLost set start x → GoesOnBeside start k x.id → is_over x.staging ≡ true → WasLost k faults → MayTellOpen set session k result (record x { staging = without_stages x.staging }) }
    {
        Answer::Unavailable { faults }
    }
}
