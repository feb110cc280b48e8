//! Refresh: a commit whose write timestamp has moved asks whether a read is still good there.

ghost use Rattle.std.specs.Prelude.{◌≡◌, ◌↔◌, ◌<◌, Any, IsTrue, Some};
ghost use Rattle.std.specs.Option.{option_copied};
ghost use Rattle.pc_may_send.specs.Refreshing.{IsOfReads, IsRefreshIn};
ghost use Rattle.pc_knowledge.specs.Keeping.{KeepsKnowledge};
ghost use Rattle.pc_world.specs.Known.{Known, call_of, open_txn};
ghost use Rattle.pc_world.specs.Known.Reads.{holds_span};
ghost use Rattle.pc_world.specs.Send.Refresh.{MaySendRefresh};

use crate::call::asks_commit;
use pc_base::{Span, Timestamp, TxnId};
use pc_knowledge::{Knowledge, are_good_up_to};
use pc_known::number;
use pc_own::{OwnRead, OwnTxn, Reads, holds, part_of};
use pc_proto::Call;

fn holds_read(span: &Span, reads: &[OwnRead<'_>]) -> bool
    ensures { IsTrue result ↔ Any (λ r. IsTrue (holds_span span.now r.span)) reads.now }
{
    reads.iter().any(|read| holds(part_of(span), read.span))
}

/// Whether the span holds that of some read.
fn holds_some<'a>(span: &'a Span, reads: &Reads<'a>) -> bool
    ensures { IsTrue result ↔ Any (λ r. IsTrue (holds_span span.now r.span)) reads.now }
{
    reads.has(span) || holds_read(span, reads.as_slice())
}

/// Whether the refresh is from the transaction's read timestamp to its write timestamp, which is later.
fn is_between(t: &OwnTxn<'_>, from: Timestamp, to: Timestamp) -> bool
    ensures { IsTrue result ↔ ((from ≡ t.now.read_ts) × (from < to) × (to ≡ t.now.write_ts)) }
{
    number(from) == t.read_ts() && from < to && number(to) == t.write_ts()
}

fn holds_own<'a>(span: &'a Span, t: &OwnTxn<'a>) -> bool
    ensures { IsTrue result ↔ Any (λ r. IsTrue (holds_span span.now r.span)) t.now.reads }
{
    holds_some(span, t.reads())
}

/// Whether the span holds that of some read of the open transaction, and each read is good up to `from` at least.
fn is_of_reads<'a>(known: &Knowledge<'a>, t: &OwnTxn<'a>, from: Timestamp, span: &'a Span) -> bool
    ensures { (k : Known) → KeepsKnowledge k known.now → open_txn k ≡ Some t.now → IsTrue result ↔ IsOfReads t.now.id k.heard from span.now t.now.reads }
{
    holds_own(span, t) && are_good_up_to(known, t, from)
}

/// Whether the refresh is the open transaction's.
fn is_refresh_of<'a>(
    known: &Knowledge<'a>,
    t: &OwnTxn<'a>,
    from: Timestamp,
    to: Timestamp,
    span: &'a Span,
) -> bool
    ensures { (k : Known) → KeepsKnowledge k known.now → open_txn k ≡ Some t.now → IsTrue result ↔ (((from ≡ t.now.read_ts) × (from < to) × (to ≡ t.now.write_ts)) × IsOfReads t.now.id k.heard from span.now t.now.reads) }
{
    is_between(t, from, to) && is_of_reads(known, t, from, span)
}

/// Whether, in a commit, this is the id of the open transaction.
fn is_committing(call: Option<&Call>, t: &OwnTxn<'_>, id: TxnId) -> bool
    ensures { IsTrue result ↔ ((option_copied call.entry ≡ Some Call.Commit) × (id ≡ t.now.id)) }
{
    asks_commit(call) && id == t.id()
}

fn is_refresh_in<'a>(
    known: &Knowledge<'a>,
    t: &OwnTxn<'a>,
    id: TxnId,
    from: Timestamp,
    to: Timestamp,
    span: &'a Span,
) -> bool
    ensures { (k : Known) → KeepsKnowledge k known.now → open_txn k ≡ Some t.now → IsTrue result ↔ IsRefreshIn (call_of k) t.now k.heard id from to span.now }
{
    is_committing(known.call(), t, id) && is_refresh_of(known, t, from, to, span)
}

/// Whether the open transaction, in a commit, may send this refresh.
pub fn may_send_refresh<'a>(
    known: &Knowledge<'a>,
    id: TxnId,
    from: Timestamp,
    to: Timestamp,
    span: &'a Span,
) -> bool
    ensures { (k : Known) → KeepsKnowledge k known.now → IsTrue result ↔ MaySendRefresh k id from to span.now }
{
    match known.open_txn() {
        None => false,
        Some(t) => is_refresh_in(known, t, id, from, to, span),
    }
}
