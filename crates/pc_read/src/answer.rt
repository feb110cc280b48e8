ghost use Rattle.std.specs.Prelude.{◌≡◌, IfOk, IsSome, Some};
ghost use Rattle.pc_read.specs.Given.{StandsFor};
ghost use Rattle.pc_read.specs.Lines.{own_answer};
ghost use Rattle.pc_proto.specs.declared.answer.Answer.TheVariants as answers;
ghost use Rattle.pc_spelling.specs.Cutting.{◌&◌, list_at, made};
ghost use Rattle.pc_spelling.specs.Reading.{id_at, key_at, maybe_value_at, number32_at, number64_at, told_row_at, ts_at, why_at};
ghost use Rattle.pc_spelling.specs.ReadingLines.{answer_at};

use crate::cut::{cut, is, word_of};
use crate::part::WhyRef;
use crate::{list, name, number, part, text};
use pc_base::{NoMemory, Timestamp, TxnId};
use pc_proto::Answer;
use std::alloc::Global;

/// An answer, its keys, values and rows as they stand in the input.
#[derive(Clone, Copy, Debug)]
pub enum AnswerRef<'a> {
    Begun { id: TxnId, ts: Timestamp },
    Value(Option<&'a [u8]>),
    Rows(&'a [u8]),
    Written,
    Committed { id: TxnId, ts: Timestamp },
    RolledBack { id: TxnId, why: WhyRef<'a> },
    Learnt,
    NotYet,
    Done,
    Blocked { holder: TxnId },
    Unavailable { faults: u32 },
    Aborted { why: WhyRef<'a> },
    Restart { key: &'a [u8], ts: Timestamp },
    Unknown { id: TxnId },
    Moved { ts: Timestamp },
    Clock { reading: u64 },
    NoTxn,
}

#[tactic(auto, unfolding(pc_spelling::specs::ReadingLines::answer_at))]
pub fn answer(bytes: &[u8]) -> Option<AnswerRef<'_>>
    ensures { StandsFor own_answer result (answer_at bytes.now) }
{
    let (word, rest) = word_of(b' ', bytes);
    match rest {
        None if is(word, b"written") => Some(AnswerRef::Written),
        None if is(word, b"learnt") => Some(AnswerRef::Learnt),
        None if is(word, b"notyet") => Some(AnswerRef::NotYet),
        None if is(word, b"done") => Some(AnswerRef::Done),
        None if is(word, b"notxn") => Some(AnswerRef::NoTxn),
        None => None,
        Some(rest) if is(word, b"begun") => begun(rest),
        Some(rest) if is(word, b"value") => value(rest),
        Some(rest) if is(word, b"rows") => rows(rest),
        Some(rest) if is(word, b"committed") => committed(rest),
        Some(rest) if is(word, b"rolledback") => rolled_back(rest),
        Some(rest) if is(word, b"blocked") => blocked(rest),
        Some(rest) if is(word, b"unavailable") => unavailable(rest),
        Some(rest) if is(word, b"aborted") => aborted(rest),
        Some(rest) if is(word, b"restart") => restart(rest),
        Some(rest) if is(word, b"unknown") => unknown(rest),
        Some(rest) if is(word, b"moved") => moved(rest),
        Some(rest) if is(word, b"clock") => clock(rest),
        Some(_) => None,
    }
}

/// That a transaction is open.
fn begun(bytes: &[u8]) -> Option<AnswerRef<'_>>
    ensures { StandsFor own_answer result (made (λ p. answers.Begun p.0 p.1) (id_at & ts_at) bytes.now) }
{
    let (id, rest) = cut(b' ', bytes)?;
    let id = name::id(id)?;
    let ts = number::timestamp(rest)?;
    Some(AnswerRef::Begun { id, ts })
}

/// What a get read.
fn value(bytes: &[u8]) -> Option<AnswerRef<'_>>
    ensures { StandsFor own_answer result (made (λ p. answers.Value p) (maybe_value_at) bytes.now) }
{
    let value = text::maybe_value(bytes)?;
    Some(AnswerRef::Value(value))
}

/// The rows of a scan, without their origins.
fn rows(bytes: &[u8]) -> Option<AnswerRef<'_>>
    ensures { StandsFor own_answer result (made (λ p. answers.Rows p) (list_at told_row_at) bytes.now) }
{
    let rows = list::told_rows(bytes)?;
    Some(AnswerRef::Rows(rows))
}

/// That a transaction is committed.
fn committed(bytes: &[u8]) -> Option<AnswerRef<'_>>
    ensures { StandsFor own_answer result (made (λ p. answers.Committed p.0 p.1) (id_at & ts_at) bytes.now) }
{
    let (id, rest) = cut(b' ', bytes)?;
    let id = name::id(id)?;
    let ts = number::timestamp(rest)?;
    Some(AnswerRef::Committed { id, ts })
}

/// That a transaction never commits.
fn rolled_back(bytes: &[u8]) -> Option<AnswerRef<'_>>
    ensures { StandsFor own_answer result (made (λ p. answers.RolledBack p.0 p.1) (id_at & why_at) bytes.now) }
{
    let (id, rest) = cut(b' ', bytes)?;
    let id = name::id(id)?;
    let Some(why) = part::why(rest) else {
        return None;
    };
    Some(AnswerRef::RolledBack { id, why })
}

/// Which transaction stands in the way.
fn blocked(bytes: &[u8]) -> Option<AnswerRef<'_>>
    ensures { StandsFor own_answer result (made (λ p. answers.Blocked p) (id_at) bytes.now) }
{
    let holder = name::id(bytes)?;
    Some(AnswerRef::Blocked { holder })
}

/// How many sends in a row were lost.
fn unavailable(bytes: &[u8]) -> Option<AnswerRef<'_>>
    ensures { StandsFor own_answer result (made (λ p. answers.Unavailable p) (number32_at) bytes.now) }
{
    let faults = number::number32(bytes)?;
    Some(AnswerRef::Unavailable { faults })
}

/// That another aborted it.
fn aborted(bytes: &[u8]) -> Option<AnswerRef<'_>>
    ensures { StandsFor own_answer result (made (λ p. answers.Aborted p) (why_at) bytes.now) }
{
    let Some(why) = part::why(bytes) else {
        return None;
    };
    Some(AnswerRef::Aborted { why })
}

/// Which write is in the way of a refresh.
fn restart(bytes: &[u8]) -> Option<AnswerRef<'_>>
    ensures { StandsFor own_answer result (made (λ p. answers.Restart p.0 p.1) (key_at & ts_at) bytes.now) }
{
    let (key, rest) = cut(b' ', bytes)?;
    let key = text::key(key)?;
    let ts = number::timestamp(rest)?;
    Some(AnswerRef::Restart { key, ts })
}

/// That it is open whether a transaction is committed.
fn unknown(bytes: &[u8]) -> Option<AnswerRef<'_>>
    ensures { StandsFor own_answer result (made (λ p. answers.Unknown p) (id_at) bytes.now) }
{
    let id = name::id(bytes)?;
    Some(AnswerRef::Unknown { id })
}

/// Where the last commit was moved to.
fn moved(bytes: &[u8]) -> Option<AnswerRef<'_>>
    ensures { StandsFor own_answer result (made (λ p. answers.Moved p) (ts_at) bytes.now) }
{
    let ts = number::timestamp(bytes)?;
    Some(AnswerRef::Moved { ts })
}

/// A reading past the clock's range.
fn clock(bytes: &[u8]) -> Option<AnswerRef<'_>>
    ensures { StandsFor own_answer result (made (λ p. answers.Clock p) (number64_at) bytes.now) }
{
    let reading = number::number64(bytes)?;
    Some(AnswerRef::Clock { reading })
}

impl<'a> AnswerRef<'a> {
    /// The answer in memory of its own.
    pub fn answer(&self, alloc: Global) -> Result<Answer, NoMemory>
        requires { IsSome (own_answer self.now) }
        ensures { IfOk result (λ made. own_answer self.now ≡ Some made) }
    {
        match self {
            AnswerRef::Begun { id, ts } => Ok(Answer::Begun { id: *id, ts: *ts }),
            AnswerRef::Value(value) => Ok(Answer::Value(text::owned_maybe_value(alloc, *value)?)),
            AnswerRef::Rows(rows) => Ok(Answer::Rows(list::owned_told_rows(alloc, rows)?)),
            AnswerRef::Written => Ok(Answer::Written),
            AnswerRef::Committed { id, ts } => Ok(Answer::Committed { id: *id, ts: *ts }),
            AnswerRef::RolledBack { id, why } => Ok(Answer::RolledBack {
                id: *id,
                why: why.why(alloc)?,
            }),
            AnswerRef::Learnt => Ok(Answer::Learnt),
            AnswerRef::NotYet => Ok(Answer::NotYet),
            AnswerRef::Done => Ok(Answer::Done),
            AnswerRef::Blocked { holder } => Ok(Answer::Blocked { holder: *holder }),
            AnswerRef::Unavailable { faults } => Ok(Answer::Unavailable { faults: *faults }),
            AnswerRef::Aborted { why } => Ok(Answer::Aborted {
                why: why.why(alloc)?,
            }),
            AnswerRef::Restart { key, ts } => Ok(Answer::Restart {
                key: text::owned_key(alloc, key)?,
                ts: *ts,
            }),
            AnswerRef::Unknown { id } => Ok(Answer::Unknown { id: *id }),
            AnswerRef::Moved { ts } => Ok(Answer::Moved { ts: *ts }),
            AnswerRef::Clock { reading } => Ok(Answer::Clock { reading: *reading }),
            AnswerRef::NoTxn => Ok(Answer::NoTxn),
        }
    }
}
