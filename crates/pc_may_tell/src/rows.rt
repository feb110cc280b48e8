//! Rows: what was heard in the open call to the pieces of its scan.

ghost use Rattle.std.specs.Prelude.{◌≡◌, ◌↔◌, ◌+◌, ◌++◌, ◌∷◌, ◌<◌, ◌^◌, ℕ, IfOk, IsTrue, List, Some, length, map};
ghost use Rattle.std.specs.Option.{option_copied};
ghost use Rattle.pc_known.specs.Parts.{part_span};
ghost use Rattle.pc_knowledge.specs.Keeping.{KeepsKnowledge};
ghost use Rattle.pc_may_tell.specs.Scanned.{AreRowsNow, GoOnAfter};
ghost use Rattle.pc_proto.specs.declared.reply.Origin.{Origin as origin_of};
ghost use Rattle.pc_world.specs.Known.{Known};
ghost use Rattle.pc_world.specs.Tell.Data.{MayTellRows, told_row};

use pc_base::{Key, NoMemory, Value};
use pc_knowledge::{Knowledge, same_value};
use pc_known::{Hearing, Open, Part, Piece, Sends, is_key, is_span, pieces};
use pc_proto::{Call, Keys, Origin, Reply, Request, Rows};

/// Whether the row is told as it was found: without its origin.
fn is_told_row(told: &(Key, Origin, Value), found: &(Key, Origin, Value)) -> bool
    ensures { IsTrue result ↔ (told.now ≡ told_row found.now) }
{
    is_key(&told.0, &found.0)
        && told.1 == Origin::Nothing
        && same_value(Some(&told.2), Some(&found.2))
}

/// What goes on after this row, where it comes first as it is told.
fn after_row<'a>(
    rows: &'a [(Key, Origin, Value)],
    found: &(Key, Origin, Value),
) -> Option<&'a [(Key, Origin, Value)]>
    ensures { (later : List (List ℕ × origin_of × List ℕ)) → (option_copied result ≡ Some later) ↔ (rows.now ≡ told_row found.now ∷ later) }
{
    match rows.split_first() {
        Some((first, later)) if is_told_row(first, found) => Some(later),
        _ => None,
    }
}

/// What goes on after these rows, where the rows that are told begin with them.
fn after<'a>(
    rows: &'a [(Key, Origin, Value)],
    found: &[(Key, Origin, Value)],
) -> Option<&'a [(Key, Origin, Value)]>
    ensures { (later : List (List ℕ × origin_of × List ℕ)) → (option_copied result ≡ Some later) ↔ (rows.now ≡ map told_row found.now ++ later) }
{
    let mut rest = rows;
    for row in found {
        match after_row(rest, row) {
            Some(later) => rest = later,
            None => return None,
        }
    }
    Some(rest)
}

/// What goes on after the rows of this reply, where it is to the piece, which was sent in the open call, and the rows that are told begin
/// with its own.
fn after_reply<'a>(
    sends: &Sends<'_>,
    part: Part<'_>,
    hearing: &Hearing<'_>,
    rows: &'a [(Key, Origin, Value)],
) -> Option<&'a [(Key, Origin, Value)]>
    ensures { (later : List (List ℕ × origin_of × List ℕ)) → (option_copied result ≡ Some later) ↔ GoOnAfter sends.now (part_span part.entry) rows.now later hearing.now }
{
    match (hearing.request, hearing.reply) {
        (Request::Scan { span, .. }, Reply::Rows(found))
            if sends.was_sent_now(hearing.number) && is_span(part, span) => {
            after(rows, found.as_slice())
        }
        _ => None,
    }
}

/// Whether the rows are those that were heard to each piece in turn. A piece may have been heard more than once.
fn are_rows_now(
    sends: &Sends<'_>,
    heard: &[Hearing<'_>],
    cut: &[Piece<'_>],
    rows: &[(Key, Origin, Value)],
) -> bool
    ensures { IsTrue result ↔ AreRowsNow sends.now heard.now cut.now rows.now }
{
    match cut.split_first() {
        None => rows.is_empty(),
        Some((piece, others)) => {
            for hearing in heard {
                match after_reply(sends, piece.part, hearing, rows) {
                    None => continue,
                    Some(later) => {
                        if are_rows_now(sends, heard, others, later) {
                            return true;
                        }
                    }
                }
            }
            false
        }
    }
}

/// Whether the call may be told these rows.
pub(crate) fn may_tell_rows(
    splits: &Keys,
    known: &Knowledge<'_>,
    call: &Open<'_>,
    rows: &Rows,
) -> Result<bool, NoMemory>
    requires { length splits.now + 1 < 2 ^ 32 }
    ensures { (k : Known) → KeepsKnowledge k known.now → IfOk result (λ may. IsTrue may ↔ MayTellRows splits.now k call.now rows.now) }
{
    match call.call {
        Call::Scan(span) => {
            let cut = pieces(known.alloc(), splits, span)?;
            Ok(are_rows_now(
                known.sends(),
                known.heard_now(),
                cut.as_slice(),
                rows.as_slice(),
            ))
        }
        _ => Ok(false),
    }
}
