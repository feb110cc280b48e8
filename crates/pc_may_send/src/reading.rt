//! Get and Scan: the open transaction reads what the open call asks, once its own writes there are proved.

ghost use Rattle.std.specs.Prelude.{◌≡◌, ◌↔◌, ◌+◌, ◌<◌, ◌^◌, Any, Contains, IfOk, IsTrue, Some, length, map};
ghost use Rattle.std.specs.Option.{option_copied};
ghost use Rattle.pc_base.specs.declared.span.Span.TheVariants.{One};
ghost use Rattle.pc_known.specs.Parts.{part_span};
ghost use Rattle.pc_knowledge.specs.Keeping.{KeepsKnowledge};
ghost use Rattle.pc_world.specs.Known.{Known};
ghost use Rattle.pc_world.specs.RangeOf.{pieces};
ghost use Rattle.pc_world.specs.Send.Reading.{IsReadOf, MaySendGet, MaySendScan};

use pc_base::{Key, NoMemory, Span, Timestamp, TxnId};
use pc_knowledge::Knowledge;
use pc_known::{Part, Piece, is_key, is_span, number, pieces};
use pc_own::{OwnTxn, part_of};
use pc_proto::{Call, Keys};
use std::alloc::Global;

fn is_read_of(
    t: &OwnTxn<'_>,
    id: TxnId,
    epoch: u32,
    seq: u32,
    ts: Timestamp,
    span: Part<'_>,
) -> bool
    ensures { IsTrue result ↔ IsReadOf t.now id epoch seq ts (part_span span.entry) }
{
    id == t.id()
        && t.is_epoch(epoch)
        && seq == t.writes().last_seq()
        && number(ts) == t.read_ts()
        && t.writes().are_proved_in(span)
}

fn asks_get(call: Option<&Call>, key: &Key) -> bool
    ensures { IsTrue result ↔ (option_copied call.entry ≡ Some (Call.Get key.now)) }
{
    match call {
        Some(Call::Get(asked)) => is_key(asked, key),
        _ => false,
    }
}

/// Whether the open transaction may send this get.
pub fn may_send_get(
    known: &Knowledge<'_>,
    id: TxnId,
    epoch: u32,
    seq: u32,
    ts: Timestamp,
    key: &Key,
) -> bool
    ensures { (k : Known) → KeepsKnowledge k known.now → IsTrue result ↔ MaySendGet k id epoch seq ts key.now }
{
    match known.open_txn() {
        None => false,
        Some(t) => asks_get(known.call(), key) && is_read_of(t, id, epoch, seq, ts, Part::One(key)),
    }
}

fn is_some_piece(cut: &[Piece<'_>], span: &Span) -> bool
    ensures { IsTrue result ↔ Any (λ p. p.1 ≡ span.now) cut.now }
{
    cut.iter().any(|piece| is_span(piece.part, span))
}

/// Whether the span is a piece of the whole one.
fn is_piece(alloc: Global, splits: &Keys, whole: &Span, span: &Span) -> Result<bool, NoMemory>
    requires { length splits.now + 1 < 2 ^ 32 }
    ensures { IfOk result (λ is. IsTrue is ↔ Contains (map (λ p. p.1) (pieces splits.now whole.now)) span.now) }
{
    let cut = pieces(alloc, splits, whole)?;
    Ok(is_some_piece(cut.as_slice(), span))
}

/// Whether the open transaction may send this piece of its scan.
pub fn may_send_scan(
    splits: &Keys,
    known: &Knowledge<'_>,
    id: TxnId,
    epoch: u32,
    seq: u32,
    ts: Timestamp,
    span: &Span,
) -> Result<bool, NoMemory>
    requires { length splits.now + 1 < 2 ^ 32 }
    ensures { (k : Known) → KeepsKnowledge k known.now → IfOk result (λ may. IsTrue may ↔ MaySendScan splits.now k id epoch seq ts span.now) }
{
    match (known.open_txn(), known.call()) {
        (Some(t), Some(Call::Scan(whole))) => {
            let cut = is_piece(known.alloc(), splits, whole, span)?;
            Ok(cut && is_read_of(t, id, epoch, seq, ts, part_of(span)))
        }
        _ => Ok(false),
    }
}
