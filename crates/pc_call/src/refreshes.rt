ghost use Rattle.pc_call.specs.Setting.{Setting};
ghost use Rattle.pc_call.specs.Suiting.{SuitsFlightIn};
ghost use Rattle.pc_proto.specs.declared.call.Call.TheVariants as calls;
ghost use Rattle.pc_call.specs.declared.purpose.Purpose.TheVariants as purposes;
ghost use Rattle.pc_call.specs.Serving.{InCall};
ghost use Rattle.pc_reads.specs.Replies.{first_unrefreshed};
ghost use Rattle.pc_txn.specs.Counted.{IsCounted};
ghost use Rattle.pc_wave.specs.declared.step.Step.TheVariants as steps;
ghost use Rattle.pc_wave.specs.Messages.{step_of};
ghost use Rattle.pc_world.specs.Known.{Known, reading_of};
ghost use Rattle.pc_world.specs.Known.Statements.{Statement};
ghost use Rattle.std.specs.Prelude.{Bool, ◌≡◌, ℕ, List, IfOk, Some};
ghost use Rattle.pc_call.specs.Outbox.{MayWait};
ghost use Rattle.pc_call.specs.Stages.{DecidesNow, GoesOnOrGivesUp, HasMessagesOrRestarts, HasOutbox, KeepsOutboxOn, TakesRefreshed};
ghost use Rattle.pc_wave.specs.declared.message.Message.{Message};

use crate::call::OpenCall;
use crate::later::Later;
use crate::purpose::Purpose;
use pc_base::{Key, NoMemory, Timestamp, TryCopy};
use pc_proto::Answer;
use pc_reads::first_unrefreshed;
use pc_txn::OpenTxn;
use pc_wave::Wave;
use std::alloc::Global;

/// What follows the refreshes of a commit.
#[derive(Drop)]
pub enum Refreshed {
    /// All held: the commit goes on.
    Commit(OpenCall),
    /// One did not hold: the commit gives up by this answer.
    Restart(Answer),
}

impl OpenCall {
    /// All its refreshes were answered: the commit goes on where all held, in the call that was asked at this reading; else it gives up for the write that
    /// the first of them met, in the order of spans. Refused for want of memory alone.
    pub fn refreshed(
        self,
        alloc: Global,
        txn: &OpenTxn,
        later: &mut Later,
        reading: u64,
    ) -> Result<Refreshed, NoMemory>
        ensures refreshed { (session clock begun n : ℕ) (set : Setting) (k : Known) (puts : List Message) → IsCounted session clock begun k → InCall set k txn.now self.purpose self.wave → self.purpose ≡ purposes.Refresh n puts → step_of self.wave ≡ steps.Answered → HasOutbox set.course.loses k txn.now later.old → MayWait set.course.pipelines later.old → reading_of k ≡ Some reading → IfOk result (GoesOnOrGivesUp set session k txn.now) }
        ensures takes { IfOk result (TakesRefreshed later.old later.new) }
        ensures alone { IfOk result HasMessagesOrRestarts }
        ensures outbox { (loses : Bool) (k : Known) → HasOutbox loses k txn.now later.old → IfOk result (KeepsOutboxOn loses k txn.now later.new) }
    {
        let met = first_met(&self.wave)?;
        match met {
            Some((key, ts)) => Ok(Refreshed::Restart(Answer::Restart { key, ts })),
            None => self.decides_on(alloc, txn, later, reading),
        }
    }

    /// All its refreshes held.
    fn decides_on(
        self,
        alloc: Global,
        txn: &OpenTxn,
        later: &mut Later,
        reading: u64,
    ) -> Result<Refreshed, NoMemory>
        ensures stands { (session n : ℕ) (set : Setting) (k : Known) (s : Statement) (puts : List Message) → DecidesNow set.course.loses n k txn.now s puts → HasOutbox set.course.loses k txn.now later.old → MayWait set.course.pipelines later.old → self.purpose ≡ purposes.Refresh n puts → s.reading ≡ reading → SuitsFlightIn set.course.pipelines calls.Commit txn.now.in_flight → IfOk result (GoesOnOrGivesUp set session k txn.now) }
        ensures takes { IfOk result (TakesRefreshed later.old later.new) }
        ensures alone { IfOk result HasMessagesOrRestarts }
        ensures outbox { (loses : Bool) (k : Known) → HasOutbox loses k txn.now later.old → IfOk result (KeepsOutboxOn loses k txn.now later.new) }
    {
        let OpenCall { purpose, .. } = self;
        match purpose {
            Purpose::Refresh { refusals, puts } => {
                let call = OpenCall::decides(alloc, txn, later, reading, refusals, &puts)?;
                Ok(Refreshed::Commit(call))
            }
            _ => Err(NoMemory),
        }
    }
}

fn first_met(wave: &Wave) -> Result<Option<(Key, Timestamp)>, NoMemory>
    ensures { IfOk result (λ met. met ≡ first_unrefreshed wave.now) }
{
    match first_unrefreshed(wave) {
        Some((key, ts)) => Ok(Some((key.copy()?, ts))),
        None => Ok(None),
    }
}
