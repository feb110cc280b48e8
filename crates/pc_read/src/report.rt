ghost use Rattle.std.specs.Prelude.{◌≡◌, ◌||◌, ◌==◌, bytes_eq, codes, is_some};
ghost use Rattle.std.specs.List.{list_all, slice_split};
ghost use Rattle.pc_spelling.specs.Cutting.{both};
ghost use Rattle.pc_spelling.specs.Reading.{id_at, key_at, ts_at, value_bytes_at, why_at};
ghost use Rattle.pc_spelling.specs.ReadingReport.{are_last_writes, are_two, is_last_write, is_record_word, is_report_row};

use crate::cut::{cut, cut_last, is};
use crate::list::{Item, is_list};
use crate::name::id;
use crate::number::timestamp;
use crate::part::why;
use crate::text::{key, value_bytes};

struct LastWriteItem;

impl Item for LastWriteItem {
    ghost readable = { is_last_write };

    fn is_item(bytes: &[u8]) -> bool {
        is_last_write(bytes)
    }
}

/// The last write of a key, or its deletion.
#[tactic(auto, unfolding(pc_spelling::specs::ReadingReport::is_last_write))]
fn is_last_write(bytes: &[u8]) -> bool
    ensures { result ≡ is_last_write bytes.now }
{
    match cut(b'=', bytes) {
        Some((name, value)) => key(name).is_some() && value_bytes(value).is_some(),
        None => match cut_last(b'-', bytes) {
            Some((name, behind)) => is(behind, b"") && key(name).is_some(),
            None => false,
        },
    }
}

fn are_last_writes(bytes: &[u8]) -> bool
    ensures { result ≡ are_last_writes bytes.now }
{
    is_list::<LastWriteItem>(bytes)
}

fn is_record_word(bytes: &[u8]) -> bool
    ensures { result ≡ is_record_word bytes.now }
{
    is(bytes, b"none") || is(bytes, b"pending") || is(bytes, b"staging")
}

/// A key and its value.
fn is_pair(bytes: &[u8]) -> bool
    ensures { result ≡ is_some (both 61 key_at value_bytes_at bytes.now) }
{
    match cut(b'=', bytes) {
        Some((name, value)) => key(name).is_some() && value_bytes(value).is_some(),
        None => false,
    }
}

/// What a committed transaction's line has behind its first word.
fn is_commit(bytes: &[u8]) -> bool
    ensures { result ≡ are_two (λ bs. is_some (id_at bs)) (λ bs. are_two (λ ts. is_some (ts_at ts)) are_last_writes bs) bytes.now }
{
    let Some((name, rest)) = cut(b' ', bytes) else {
        return false;
    };
    let Some((ts, writes)) = cut(b' ', rest) else {
        return false;
    };
    id(name).is_some() && timestamp(ts).is_some() && are_last_writes(writes)
}

/// What an aborted transaction's line has behind its first word.
fn is_abort(bytes: &[u8]) -> bool
    ensures { result ≡ are_two (λ bs. is_some (id_at bs)) (λ bs. is_some (why_at bs)) bytes.now }
{
    match cut(b' ', bytes) {
        Some((name, cause)) => id(name).is_some() && why(cause).is_some(),
        None => false,
    }
}

/// What an open transaction's line has behind its first word.
fn is_open(bytes: &[u8]) -> bool
    ensures { result ≡ are_two (λ bs. is_some (id_at bs)) is_record_word bytes.now }
{
    match cut(b' ', bytes) {
        Some((name, word)) => id(name).is_some() && is_record_word(word),
        None => false,
    }
}

/// Whether the line may stand in a report.
#[tactic(auto, unfolding(pc_spelling::specs::ReadingReport::is_report_row))]
pub fn is_report_row(line: &[u8]) -> bool
    ensures { result ≡ is_report_row line.now }
{
    match cut(b' ', line) {
        Some((word, rest)) => {
            is(word, b"committed") && is_commit(rest)
                || is(word, b"aborted") && is_abort(rest)
                || is(word, b"open") && is_open(rest)
                || is(word, b"map") && is_pair(rest)
        }
        None => false,
    }
}
