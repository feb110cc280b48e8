ghost use Rattle.std.specs.Prelude.{◌≡◌, ℕ, true, None, IfOk};
ghost use Rattle.pc_call.specs.Setting.{Setting};
ghost use Rattle.pc_call.specs.declared.purpose.Purpose.TheVariants as purposes;
ghost use Rattle.pc_call.specs.Finished.{MayTellOver, ends_rolled_back};
ghost use Rattle.pc_call.specs.Fresh.{IsFresh};
ghost use Rattle.pc_call.specs.Learned.{known_heard};
ghost use Rattle.pc_call.specs.Serving.{InCall};
ghost use Rattle.pc_proto.specs.declared.answer.Answer.TheVariants as answers;
ghost use Rattle.pc_proto.specs.declared.call.Call.TheVariants as calls;
ghost use Rattle.pc_proto.specs.declared.reply.Reply.TheVariants as replies;
ghost use Rattle.pc_proto.specs.declared.why.Why.{Why};
ghost use Rattle.pc_txn.specs.Counted.{IsCounted};
ghost use Rattle.pc_wave.specs.Messages.{wave_awaits};
ghost use Rattle.pc_wave.specs.Standing.{IsHeardTo};
ghost use Rattle.pc_world.specs.Known.{Known};
ghost use Rattle.pc_world.specs.Known.Statements.{Statement};
ghost use Rattle.pc_world.specs.Known.Traffic.{Heard};

use crate::call::OpenCall;
use crate::over::{Over, left_of};
use crate::purpose::Purpose;
use pc_base::{NoMemory, TryCopy};
use pc_proto::{Answer, Fate, View, Why};
use pc_txn::OpenTxn;

impl OpenCall {
    /// Its abort was told this view of the record: its transaction is over, and rolled back. Refused for want of memory alone.
    pub fn rolled_back(self, txn: OpenTxn, view: &View) -> Result<Over, NoMemory>
        ensures made { (why : Why) → self.purpose ≡ purposes.Abort why → IfOk result (λ over. over ≡ ends_rolled_back view.now why txn) }
        ensures over { (session clock begun number : ℕ) (set : Setting) (k : Known) (why : Why) (h : Heard) → IsCounted session clock begun k → InCall set k txn self.purpose self.wave → self.purpose ≡ purposes.Abort why → wave_awaits number self.wave ≡ true → IsHeardTo k number (replies.Status view.now) h → IfOk result (MayTellOver set session (known_heard h k)) }
    {
        match &self.purpose {
            Purpose::Abort { why } => rolled_back_by(view, why.copy()?, txn),
            _ => rolled_back_by(view, Why::Client, txn),
        }
    }

    /// The open transaction, which wrote nothing, is rolled back for this cause, without a message.
    pub fn roll_back_unwritten(txn: OpenTxn, why: Why) -> Over
        ensures made { result ≡ record { answer = answers.RolledBack txn.id why; left = None } }
        ensures over { (session : ℕ) (set : Setting) (k : Known) (s : Statement) → IsFresh set.course.loses k txn s why → s.call ≡ calls.Rollback → txn.anchor ≡ None → MayTellOver set session k result }
    {
        Over {
            answer: Answer::RolledBack { id: txn.id, why },
            left: None,
        }
    }
}

fn rolled_back_by(view: &View, why: Why, txn: OpenTxn) -> Result<Over, NoMemory>
    ensures { IfOk result (λ over. over ≡ ends_rolled_back view.now why txn) }
{
    let id = txn.id;
    match view {
        View::Committed { epoch, ts, .. } => Ok(Over {
            answer: Answer::RolledBack { id, why },
            left: left_of(
                txn,
                Fate::Committed {
                    epoch: *epoch,
                    ts: *ts,
                },
            ),
        }),
        View::Aborted { why: cause, .. } => {
            let why = cause.copy()?;
            Ok(Over {
                answer: Answer::RolledBack { id, why },
                left: left_of(txn, Fate::Aborted),
            })
        }
        _ => Ok(Over {
            answer: Answer::RolledBack { id, why },
            left: None,
        }),
    }
}
