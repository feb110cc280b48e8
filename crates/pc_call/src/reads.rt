ghost use Rattle.std.specs.Prelude.{◌≡◌, ◌++◌, ℕ, List, IfOk, OnOk, map};
ghost use Rattle.std.specs.List.{flat_map};
ghost use Rattle.pc_call.specs.Setting.{Setting};
ghost use Rattle.pc_call.specs.declared.purpose.Purpose.TheVariants as purposes;
ghost use Rattle.pc_call.specs.Reading.{answer_by, answer_read, rows_found, span_read, spans_read, value_answered, with_spans};
ghost use Rattle.pc_call.specs.declared.later.LaterPut.{LaterPut};
ghost use Rattle.pc_call.specs.Serving.{InCall};
ghost use Rattle.pc_call.specs.Stages.{KeepsOutbox};
ghost use Rattle.pc_call.specs.Telling.{MayTellOpen};
ghost use Rattle.pc_txn.specs.Counted.{IsCounted};
ghost use Rattle.pc_wave.specs.declared.step.Step.TheVariants as steps;
ghost use Rattle.pc_wave.specs.Messages.{step_of};
ghost use Rattle.pc_world.specs.Known.{Known};
ghost use Rattle.pc_world.specs.Tell.Data.{told_row};

use crate::call::OpenCall;
use pc_base::{NoMemory, Span, TryCopy, Value};
use pc_proto::{Answer, Origin, Reply, Request, Rows};
use pc_reads::TxnReads;
use pc_txn::OpenTxn;
use pc_wave::{Message, Progress};
use std::alloc::Global;

impl OpenCall {
    /// All its messages, which read, were answered: what its call is told. Their spans are kept with what its transaction has read.
    pub fn read(self, alloc: Global, txn: &mut OpenTxn) -> Result<Answer, NoMemory>
        ensures answer { IfOk result (λ answer. answer ≡ answer_read self.wave) }
        ensures kept { OnOk result (txn.new ≡ record txn.old { reads = record { spans = with_spans txn.old.reads.spans (spans_read self.wave); ts = txn.old.reads.ts } }) }
        ensures told { (session clock begun : ℕ) (set : Setting) (k : Known) (later : List LaterPut) → IsCounted session clock begun k → InCall set k txn.old self.purpose self.wave → KeepsOutbox set.course.loses k txn.old later self.wave → self.purpose ≡ purposes.Read → step_of self.wave ≡ steps.Answered → IfOk result (λ answer. MayTellOpen set session k answer txn.new) }
    {
        keep_spans(self.wave.messages(), &mut txn.reads)?;
        answer_of(alloc, self.wave.messages())
    }
}

fn keep_spans(messages: &[Message], reads: &mut TxnReads) -> Result<(), NoMemory>
    ensures { OnOk result (reads.new ≡ record { spans = with_spans reads.old.spans (spans_read messages.now); ts = reads.old.ts }) }
{
    for message in messages {
        keep_span(&message.request, reads)?;
    }
    Ok(())
}

fn keep_span(request: &Request, reads: &mut TxnReads) -> Result<(), NoMemory>
    ensures { OnOk result (reads.new ≡ record { spans = with_spans reads.old.spans (span_read request.now); ts = reads.old.ts }) }
{
    match request {
        Request::Get { key, .. } => reads.read(Span::One(key.copy()?)),
        Request::Scan { span, .. } => reads.read(span.copy()?),
        _ => Ok(()),
    }
}

fn answer_of(alloc: Global, messages: &[Message]) -> Result<Answer, NoMemory>
    ensures { IfOk result (λ answer. answer ≡ answer_read messages.now) }
{
    match messages {
        [] => Ok(Answer::Rows(Rows::new(alloc))),
        [message, ..] => answer_by(alloc, message, messages),
    }
}

fn answer_by(alloc: Global, first: &Message, messages: &[Message]) -> Result<Answer, NoMemory>
    ensures { IfOk result (λ answer. answer ≡ answer_by first.now.request first.now messages.now) }
{
    match &first.request {
        Request::Get { .. } => Ok(Answer::Value(value_of(first)?)),
        _ => Ok(Answer::Rows(rows_of(alloc, messages)?)),
    }
}

fn value_of(message: &Message) -> Result<Option<Value>, NoMemory>
    ensures { IfOk result (λ value. value ≡ value_answered message.now.progress) }
{
    match &message.progress {
        Progress::Answered {
            reply: Reply::Value { value, .. },
            ..
        } => value.copy(),
        _ => Ok(None),
    }
}

fn rows_of(alloc: Global, messages: &[Message]) -> Result<Rows, NoMemory>
    ensures { IfOk result (λ rows. rows ≡ flat_map rows_found messages.now) }
{
    let mut rows = Rows::new(alloc);
    for message in messages {
        add_found(&mut rows, message)?;
    }
    Ok(rows)
}

fn add_found(rows: &mut Rows, message: &Message) -> Result<(), NoMemory>
    ensures { OnOk result (rows.new ≡ rows.old ++ rows_found message.now) }
{
    match &message.progress {
        Progress::Answered {
            reply: Reply::Rows(found),
            ..
        } => add_told(rows, found),
        _ => Ok(()),
    }
}

/// Puts these rows behind the others, without their origins.
fn add_told(rows: &mut Rows, found: &Rows) -> Result<(), NoMemory>
    ensures { OnOk result (rows.new ≡ rows.old ++ map told_row found.now) }
{
    for row in found.as_slice() {
        let key = row.0.copy()?;
        let value = row.2.copy()?;
        rows.add((key, Origin::Nothing, value))?;
    }
    Ok(())
}
