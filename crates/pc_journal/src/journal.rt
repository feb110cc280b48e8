ghost use Rattle.std.specs.Prelude.{◌≡◌, ◌∷◌, ◌++◌, [], All, OnOk, OnErr};
ghost use Rattle.std.specs.List.{flat_map};
ghost use Rattle.pc_journal.specs.AppendsPart.{AppendsPart};
ghost use Rattle.pc_journal.specs.Event.{entry_line};
ghost use Rattle.pc_journal.specs.Fits.{FitsKeys};
ghost use Rattle.pc_journal.specs.FitsJournal.{FitsEntries};
ghost use Rattle.pc_journal.specs.Journal.{head_then, journal_text, ranges_text, splits_text};
ghost use Rattle.pc_journal.specs.ToldRows.{AllTellBare, FitsWhereBare};

use crate::lists::each_behind;
use crate::text::{Text, one, three};
use pc_base::{Entry, Key, NoMemory};
use pc_proto::{Event, Keys};

/// Appends one line of a journal: the entry and a line feed.
pub fn print_event(entry: &Entry<Event>, out: &mut Vec<u8>) -> Result<(), NoMemory>
    ensures ok { OnOk result (out.new.items ≡ out.old.items ++ entry_line entry.now) }
    ensures spelled { OnOk result (FitsWhereBare entry.now) }
    ensures err { OnErr result (out.new.items ≡ out.old.items) }
{
    let mut line = Vec::new(*out.allocator());
    print_by(&mut line, entry, out)
}

/// Appends the line as a whole, which is first printed into this one.
fn print_by(line: &mut Vec<u8>, entry: &Entry<Event>, out: &mut Vec<u8>) -> Result<(), NoMemory>
    ensures ok { OnOk result (out.new.items ≡ out.old.items ++ entry_line entry.now) }
    ensures spelled { OnOk result (FitsWhereBare entry.now) }
    ensures err { OnErr result (out.new.items ≡ out.old.items) }
{
    line.clear();
    entry.print(line)?;
    line.push(b'\n')?;
    one(line.as_slice(), out)
}

/// Appends a whole journal, without a report. Where memory runs out, whole lines of it stand there.
pub fn print_journal(
    splits: &Keys,
    sessions: u32,
    recoverers: u32,
    entries: &[Entry<Event>],
    out: &mut Vec<u8>,
) -> Result<(), NoMemory>
    ensures ok { OnOk result (out.new.items ≡ out.old.items ++ journal_text splits.now sessions recoverers entries.now) }
    ensures keys { OnOk result (FitsKeys splits.now) }
    ensures spelled { OnOk result (AllTellBare entries.now → FitsEntries entries.now) }
    ensures err { OnErr result (AppendsPart out.old.items (journal_text splits.now sessions recoverers entries.now) out.new.items) }
{
    print_head(splits, sessions, recoverers, out)?;
    print_lines(entries, out)
}

fn print_head(
    splits: &Keys,
    sessions: u32,
    recoverers: u32,
    out: &mut Vec<u8>,
) -> Result<(), NoMemory>
    ensures ok { OnOk result (out.new.items ≡ out.old.items ++ head_then splits.now sessions recoverers []) }
    ensures keys { OnOk result (FitsKeys splits.now) }
    ensures err { OnErr result (out.new.items ≡ out.old.items) }
{
    let mut head = Vec::new(*out.allocator());
    one(b"journal 1\n", &mut head)?;
    print_ranges(splits, &mut head)?;
    head.push(b'\n')?;
    three(b"actors", &sessions, &recoverers, &mut head)?;
    head.push(b'\n')?;
    one(head.as_slice(), out)
}

fn print_ranges(splits: &Keys, out: &mut Vec<u8>) -> Result<(), NoMemory>
    ensures text { OnOk result (out.new.items ≡ out.old.items ++ ranges_text splits.now) }
    ensures keys { OnOk result (FitsKeys splits.now) }
{
    one(b"ranges ", out)?;
    print_splits(splits.as_slice(), out)
}

fn print_splits(splits: &[Key], out: &mut Vec<u8>) -> Result<(), NoMemory>
    ensures text { OnOk result (out.new.items ≡ out.old.items ++ splits_text splits.now) }
    ensures keys { OnOk result (FitsKeys splits.now) }
{
    let ranges = splits.len() as u64 + 1;
    ranges.print(out)?;
    each_behind(b' ', splits, out)
}

#[tactic(auto, using(crate::proofs::Lines::part_from_pieces))]
fn print_lines(entries: &[Entry<Event>], out: &mut Vec<u8>) -> Result<(), NoMemory>
    ensures ok { OnOk result (out.new.items ≡ out.old.items ++ flat_map entry_line entries.now) }
    ensures spelled { OnOk result (All FitsWhereBare entries.now) }
    ensures err { OnErr result (AppendsPart out.old.items (flat_map entry_line entries.now) out.new.items) }
{
    let mut line = Vec::new(*out.allocator());
    for entry in entries {
        print_by(&mut line, entry, out)?;
    }
    Ok(())
}
