ghost use Rattle.std.specs.Prelude.{◌≡◌, IfOk, IsSome, Some};
ghost use Rattle.pc_read.specs.Given.{StandsFor};
ghost use Rattle.pc_read.specs.Lines.{own_call};
ghost use Rattle.pc_proto.specs.declared.call.Call.TheVariants as calls;
ghost use Rattle.pc_spelling.specs.Cutting.{◌&◌, made};
ghost use Rattle.pc_spelling.specs.Reading.{id_at, key_at, priority_at, span_at, value_at};
ghost use Rattle.pc_spelling.specs.ReadingLines.{call_at};

use crate::cut::{cut, is, word_of};
use crate::part::SpanRef;
use crate::{name, part, text};
use pc_base::{NoMemory, Priority, TxnId};
use pc_proto::Call;
use std::alloc::Global;

/// A call, its keys and values as they stand in the input.
#[derive(Clone, Copy, Debug)]
pub enum CallRef<'a> {
    Begin(Priority),
    Get(&'a [u8]),
    Scan(SpanRef<'a>),
    Put(&'a [u8], &'a [u8]),
    Delete(&'a [u8]),
    Commit,
    Rollback,
    Learn(TxnId),
    Round,
}

#[tactic(auto, unfolding(pc_spelling::specs::ReadingLines::call_at))]
pub fn call(bytes: &[u8]) -> Option<CallRef<'_>>
    ensures { StandsFor own_call result (call_at bytes.now) }
{
    let (word, rest) = word_of(b' ', bytes);
    match rest {
        None if is(word, b"commit") => Some(CallRef::Commit),
        None if is(word, b"rollback") => Some(CallRef::Rollback),
        None if is(word, b"round") => Some(CallRef::Round),
        None => None,
        Some(rest) if is(word, b"begin") => begin(rest),
        Some(rest) if is(word, b"get") => get(rest),
        Some(rest) if is(word, b"scan") => scan(rest),
        Some(rest) if is(word, b"put") => put(rest),
        Some(rest) if is(word, b"delete") => delete(rest),
        Some(rest) if is(word, b"learn") => learn(rest),
        Some(_) => None,
    }
}

/// A new transaction.
fn begin(bytes: &[u8]) -> Option<CallRef<'_>>
    ensures { StandsFor own_call result (made (λ p. calls.Begin p) (priority_at) bytes.now) }
{
    let priority = name::priority(bytes)?;
    Some(CallRef::Begin(priority))
}

/// The value of a key.
fn get(bytes: &[u8]) -> Option<CallRef<'_>>
    ensures { StandsFor own_call result (made (λ p. calls.Get p) (key_at) bytes.now) }
{
    let key = text::key(bytes)?;
    Some(CallRef::Get(key))
}

/// The rows of a span.
fn scan(bytes: &[u8]) -> Option<CallRef<'_>>
    ensures { StandsFor own_call result (made (λ p. calls.Scan p) (span_at) bytes.now) }
{
    let span = part::span(bytes)?;
    Some(CallRef::Scan(span))
}

/// A write.
fn put(bytes: &[u8]) -> Option<CallRef<'_>>
    ensures { StandsFor own_call result (made (λ p. calls.Put p.0 p.1) (key_at & value_at) bytes.now) }
{
    let (key, rest) = cut(b' ', bytes)?;
    let key = text::key(key)?;
    let value = text::value(rest)?;
    Some(CallRef::Put(key, value))
}

/// The deletion of a key.
fn delete(bytes: &[u8]) -> Option<CallRef<'_>>
    ensures { StandsFor own_call result (made (λ p. calls.Delete p) (key_at) bytes.now) }
{
    let key = text::key(bytes)?;
    Some(CallRef::Delete(key))
}

/// Whether a transaction is committed.
fn learn(bytes: &[u8]) -> Option<CallRef<'_>>
    ensures { StandsFor own_call result (made (λ p. calls.Learn p) (id_at) bytes.now) }
{
    let id = name::id(bytes)?;
    Some(CallRef::Learn(id))
}

impl<'a> CallRef<'a> {
    /// The call in memory of its own.
    pub fn call(&self, alloc: Global) -> Result<Call, NoMemory>
        requires { IsSome (own_call self.now) }
        ensures { IfOk result (λ made. own_call self.now ≡ Some made) }
    {
        match self {
            CallRef::Begin(priority) => Ok(Call::Begin(*priority)),
            CallRef::Get(key) => Ok(Call::Get(text::owned_key(alloc, key)?)),
            CallRef::Scan(span) => Ok(Call::Scan(span.span(alloc)?)),
            CallRef::Put(key, value) => {
                let key = text::owned_key(alloc, key)?;
                let value = text::owned_value(alloc, value)?;
                Ok(Call::Put(key, value))
            }
            CallRef::Delete(key) => Ok(Call::Delete(text::owned_key(alloc, key)?)),
            CallRef::Commit => Ok(Call::Commit),
            CallRef::Rollback => Ok(Call::Rollback),
            CallRef::Learn(id) => Ok(Call::Learn(*id)),
            CallRef::Round => Ok(Call::Round),
        }
    }
}
