ghost use Rattle.std.specs.Prelude.{◌≡◌, ◌↔◌, ◌+◌, ◌<◌, ◌^◌, ℕ, false, IfOk, IsTrue, List, length};
ghost use Rattle.pc_may_tell.specs.Scanned.{is_rows};
ghost use Rattle.pc_knowledge.specs.Keeping.{KeepsKnowledge};
ghost use Rattle.pc_world.specs.Known.{Known};
ghost use Rattle.pc_world.specs.MayTell.{MayTell, MayTellIn, MayTellRow};

use crate::data::{may_tell_value, may_tell_written};
use crate::end::{may_tell_aborted, may_tell_committed, may_tell_restart, may_tell_rolled_back};
use crate::lost::{may_tell_unavailable, may_tell_unknown};
use crate::refusal::{may_tell_blocked, may_tell_moved};
use crate::rows::may_tell_rows;
use pc_base::{ActorId, NoMemory};
use pc_knowledge::Knowledge;
use pc_known::Open;
use pc_proto::{Answer, Keys};

/// Whether there is an open call, and the actor may tell it this.
pub fn may_tell(
    splits: &Keys,
    actor: ActorId,
    known: &Knowledge<'_>,
    answer: &Answer,
) -> Result<bool, NoMemory>
    requires { length splits.now + 1 < 2 ^ 32 }
    ensures { (k : Known) → KeepsKnowledge k known.now → IfOk result (λ may. IsTrue may ↔ MayTell splits.now actor k answer.now) }
{
    match known.statement() {
        None => Ok(false),
        Some(call) => may_tell_in(splits, actor, known, call, answer),
    }
}

fn may_tell_in(
    splits: &Keys,
    actor: ActorId,
    known: &Knowledge<'_>,
    call: &Open<'_>,
    answer: &Answer,
) -> Result<bool, NoMemory>
    requires { length splits.now + 1 < 2 ^ 32 }
    ensures { (k : Known) → KeepsKnowledge k known.now → IfOk result (λ may. IsTrue may ↔ MayTellIn splits.now actor k call.now answer.now) }
{
    if known.calls().finds_none(call) {
        Ok(matches!(answer, Answer::NoTxn))
    } else if call.is_past_range() {
        Ok(call.is_clock(answer))
    } else {
        may_tell_row(splits, actor, known, call, answer)
    }
}

/// Whether the rule of the answer allows it.
fn may_tell_row(
    splits: &Keys,
    actor: ActorId,
    known: &Knowledge<'_>,
    call: &Open<'_>,
    answer: &Answer,
) -> Result<bool, NoMemory>
    requires { length splits.now + 1 < 2 ^ 32 }
    ensures { (k : Known) → KeepsKnowledge k known.now → IfOk result (λ may. IsTrue may ↔ MayTellRow splits.now actor k call.now answer.now) }
{
    match answer {
        Answer::Rows(rows) => may_tell_rows(splits, known, call, rows),
        _ => Ok(may_tell_row_of(actor, known, call, answer)),
    }
}

/// The same of an answer other than rows.
fn may_tell_row_of(actor: ActorId, known: &Knowledge<'_>, call: &Open<'_>, answer: &Answer) -> bool
    requires { is_rows answer.now ≡ false }
    ensures { (splits : List (List ℕ)) (k : Known) → KeepsKnowledge k known.now → IsTrue result ↔ MayTellRow splits actor k call.now answer.now }
{
    match answer {
        Answer::Value(value) => may_tell_value(known, call, value.as_ref()),
        Answer::Rows(_) => false,
        Answer::Written => may_tell_written(known, call),
        Answer::Committed { id, ts } => may_tell_committed(known, call, *id, *ts),
        Answer::RolledBack { id, why } => may_tell_rolled_back(known, call, *id, why),
        Answer::Blocked { holder } => may_tell_blocked(known, call, *holder),
        Answer::Unavailable { faults } => may_tell_unavailable(known, call, *faults),
        Answer::Aborted { why } => may_tell_aborted(known, why),
        Answer::Restart { key, ts } => may_tell_restart(known, call, key, *ts),
        Answer::Unknown { id } => may_tell_unknown(known, call, *id),
        Answer::Moved { ts } => may_tell_moved(known, call, *ts),
        Answer::Begun { .. }
        | Answer::Learnt
        | Answer::NotYet
        | Answer::Done
        | Answer::Clock { .. }
        | Answer::NoTxn => { known.calls().may_tell_row(call, actor, answer) }
    }
}
