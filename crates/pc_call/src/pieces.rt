ghost use Rattle.std.specs.Prelude.{◌≡◌, ◌++◌, None, Some, IfOk, OnOk};
ghost use Rattle.pc_call.specs.Pieces.{scan_messages, span_piece, spans_from, spans_in};
ghost use Rattle.pc_world.specs.RangeOf.{earlier_end, later_start};

use pc_base::{Key, NoMemory, Span, TryCopy};
use pc_proto::Keys;
use pc_txn::OpenTxn;
use pc_wave::Wave;
use std::alloc::Global;

/// The messages that scan a span: one to each range that it meets, in key order.
pub fn scan_wave(alloc: Global, splits: &Keys, txn: &OpenTxn, span: &Span) -> Result<Wave, NoMemory>
    ensures { IfOk result (λ made. made ≡ scan_messages txn.now (spans_in splits.now span.now)) }
{
    match span {
        Span::One(key) => {
            let mut wave = Wave::new(alloc);
            wave.add(txn.scan(Span::One(key.copy()?)))?;
            Ok(wave)
        }
        Span::Between { from, to } => pieces(alloc, splits, txn, from, to),
    }
}

/// A message for each range in which a key may lie between the two ends.
fn pieces(
    alloc: Global,
    splits: &Keys,
    txn: &OpenTxn,
    from: &Option<Key>,
    to: &Option<Key>,
) -> Result<Wave, NoMemory>
    ensures { IfOk result (λ made. made ≡ scan_messages txn.now (spans_from None splits.now from.now to.now)) }
{
    let mut wave = Wave::new(alloc);
    let mut low = None;
    for split in splits.as_slice() {
        let start = later_start(&low, from)?;
        let end = earlier_end(split, to)?;
        add_piece(&mut wave, txn, start, end)?;
        low = Some(split.copy()?);
    }
    add_piece(&mut wave, txn, later_start(&low, from)?, to.copy()?)?;
    Ok(wave)
}

/// A piece is asked for where a key may lie in it.
fn add_piece(
    wave: &mut Wave,
    txn: &OpenTxn,
    from: Option<Key>,
    to: Option<Key>,
) -> Result<(), NoMemory>
    ensures { OnOk result (wave.new ≡ wave.old ++ scan_messages txn.now (span_piece from to)) }
{
    match Span::between(from, to) {
        Ok(span) => wave.add(txn.scan(span)),
        Err(_) => Ok(()),
    }
}

fn later_start(one: &Option<Key>, other: &Option<Key>) -> Result<Option<Key>, NoMemory>
    ensures { IfOk result (λ made. made ≡ later_start one.now other.now) }
{
    match (one, other) {
        (None, _) => other.copy(),
        (Some(_), None) => one.copy(),
        (Some(first), Some(second)) => {
            if first < second {
                other.copy()
            } else {
                one.copy()
            }
        }
    }
}

fn earlier_end(split: &Key, to: &Option<Key>) -> Result<Option<Key>, NoMemory>
    ensures { IfOk result (λ made. made ≡ earlier_end (Some split.now) to.now) }
{
    match to {
        Some(end) if end < split => to.copy(),
        _ => Ok(Some(split.copy()?)),
    }
}
