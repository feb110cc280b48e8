ghost use Rattle.pc_call.specs.Setting.{Setting};
ghost use Rattle.pc_call.specs.Finished.{MayTellOver};
ghost use Rattle.pc_call.specs.Rounding.{GoesOnBeside};
ghost use Rattle.pc_call.specs.Losses.{stages_late, is_lost_after, rolled_back_unheard, wave_lost};
ghost use Rattle.pc_call.specs.Serving.{InCall};
ghost use Rattle.pc_proto.specs.declared.answer.Answer.TheVariants as answers;
ghost use Rattle.pc_staging.specs.Kept.{is_over};
ghost use Rattle.pc_world.specs.Known.{Known};
ghost use Rattle.pc_world.specs.Tell.Refusal.{WasLost};
ghost use Rattle.std.specs.Prelude.{◌≡◌, ◌≤◌, ℕ, ◌&&◌, true, false, IfOk, IfSome, None, position};
ghost use Rattle.pc_wave.specs.Messages.{awaits_at, wave_awaits};
ghost use Rattle.pc_call.specs.Unanswered.{MayGiveUpLost};

use crate::call::OpenCall;
use crate::over::Over;
use crate::purpose::Purpose;
use pc_base::{NoMemory, TryCopy};
use pc_proto::{Answer, Request};
use pc_txn::OpenTxn;
use pc_wave::Message;

impl OpenCall {
    /// Nothing is heard of the message of this number: it is to be sent again, until its tries are used up. A stage that is late leaves the wave.
    pub fn lost(&mut self, txn: &OpenTxn, number: u64, tries: u32)
        ensures made { self.new ≡ record self.old { wave = wave_lost number tries txn.now self.old.wave } }
        ensures stands { (set : Setting) (k : Known) → set.course.loses ≡ true → 1 ≤ tries → InCall set k txn.now self.old.purpose self.old.wave → wave_awaits number self.old.wave ≡ true → InCall set k txn.now self.new.purpose self.new.wave }
    {
        match place_of_late(self.wave.messages(), txn, number) {
            Some(place) => self.wave.leave(place),
            None => self.wave.lost(number, tries),
        }
    }

    /// Whether the tries of one of its messages are used up, where no reply is waited for.
    pub fn is_lost(&self, tries: u32) -> bool
        ensures { result ≡ is_lost_after tries self.now.wave }
    {
        !self.wave.is_any_out() && self.wave.used_up(tries)
    }

    /// The tries of one of its messages are used up, and it is not known what became of its commit: its transaction is over.
    pub fn unknown(self, txn: &OpenTxn) -> Over
        ensures made { result ≡ record { answer = answers.Unknown txn.now.id; left = None } }
        ensures over { (session faults : ℕ) (set : Setting) (start k : Known) → set.course.loses ≡ true → MayGiveUpLost set start txn.now → GoesOnBeside start k txn.now.id → WasLost k faults → is_over txn.now.staging ≡ false → MayTellOver set session k result }
    {
        Over {
            answer: Answer::Unknown { id: txn.id },
            left: None,
        }
    }

    /// The tries of its abort are used up: its transaction is over all the same, for the abort's cause. None where it does not abort.
    pub fn rolled_back_unheard(&self, txn: &OpenTxn) -> Result<Option<Over>, NoMemory>
        ensures made { IfOk result (λ over. over ≡ rolled_back_unheard self.now.purpose txn.now) }
        ensures over { (session : ℕ) (set : Setting) (k : Known) → set.course.loses ≡ true → InCall set k txn.now self.now.purpose self.now.wave → IfOk result (λ over. IfSome over (MayTellOver set session k)) }
    {
        match &self.purpose {
            Purpose::Abort { why } => {
                let why = why.copy()?;
                Ok(Some(Over {
                    answer: Answer::RolledBack { id: txn.id, why },
                    left: None,
                }))
            }
            _ => Ok(None),
        }
    }
}

/// The place of the message of this number, if it is a stage that is late.
fn place_of_late(messages: &[Message], txn: &OpenTxn, number: u64) -> Option<usize>
    ensures { result ≡ position (λ m. awaits_at number m && stages_late txn.now m.request) messages.now }
{
    messages.iter().position(|message| message.awaits_at(number) && is_late(&message.request, txn))
}

/// Whether the request is a stage that is late.
fn is_late(request: &Request, txn: &OpenTxn) -> bool
    ensures { result ≡ stages_late txn.now request.now }
{
    match request {
        Request::Stage { ts, .. } => !txn.staging.is_live(*ts),
        _ => false,
    }
}
