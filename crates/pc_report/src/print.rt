ghost use Rattle.std.specs.Prelude.{◌≡◌, ℕ, List, [], ◌∷◌, ◌++◌, All, OnOk};
ghost use Rattle.std.specs.List.{flat_map};
ghost use Rattle.pc_journal.specs.Lists.{listed};
ghost use Rattle.pc_journal.specs.Side.{◌·◌, ◌⏎◌};
ghost use Rattle.pc_report.specs.Report.{committed_text, last_write_text, map_text, other_text, report_text, rows_text};
ghost use Rattle.pc_report.specs.Spelled.{FitsCommittedRow, FitsLastWrite, FitsMapRow, FitsOtherRow, FitsReport};

use crate::rows::{CommittedRow, Ending, MapRow, OtherRow, Report};
use pc_base::{Items, Key, NoMemory, Value};
use pc_journal::Text;

/// Appends the report: the line `report`, a line for each row, and the line `end`.
pub fn print_report(report: &Report, out: &mut Vec<u8>) -> Result<(), NoMemory>
    ensures text { OnOk result (out.new.items ≡ out.old.items ++ report_text report.now) }
    ensures spelled { OnOk result (FitsReport report.now) }
{
    framed(b"report", report, b"end", out)
}

fn framed(first: &[u8], report: &Report, last: &[u8], out: &mut Vec<u8>) -> Result<(), NoMemory>
    ensures text { OnOk result (out.new.items ≡ out.old.items ++ (first.now ⏎ (rows_text report.now ++ (last.now ⏎ [])))) }
    ensures spelled { OnOk result (FitsReport report.now) }
{
    line(first, out)?;
    print_rows(report, out)?;
    line(last, out)
}

fn print_rows(report: &Report, out: &mut Vec<u8>) -> Result<(), NoMemory>
    ensures text { OnOk result (out.new.items ≡ out.old.items ++ rows_text report.now) }
    ensures spelled { OnOk result (FitsReport report.now) }
{
    row_lines(&report.committed, out)?;
    row_lines(&report.others, out)?;
    row_lines(&report.map, out)?;
    Ok(())
}

/// What stands on one line of a report.
trait Row {
    ghost text: { Self → List ℕ };

    /// What every row of the type has, so that its line is one of a report.
    ghost spelled: { Self → Type 0 };

    fn print(&self, out: &mut Vec<u8>) -> Result<(), NoMemory>
        ensures text { OnOk result (out.new.items ≡ out.old.items ++ text self.now) }
        ensures spelled { OnOk result (spelled self.now) };
}

fn row_lines<R: Row>(rows: &Items<R>, out: &mut Vec<u8>) -> Result<(), NoMemory>
    ensures text { OnOk result (out.new.items ≡ out.old.items ++ flat_map (λ row. R.text row ⏎ []) rows.now) }
    ensures spelled { OnOk result (All R.spelled rows.now) }
{
    lines(rows.as_slice(), out)
}

fn lines<R: Row>(rows: &[R], out: &mut Vec<u8>) -> Result<(), NoMemory>
    ensures text { OnOk result (out.new.items ≡ out.old.items ++ flat_map (λ row. R.text row ⏎ []) rows.now) }
    ensures spelled { OnOk result (All R.spelled rows.now) }
{
    for row in rows {
        row.print(out)?;
        out.push(b'\n')?;
    }
    Ok(())
}

fn word(word: &[u8], out: &mut Vec<u8>) -> Result<(), NoMemory>
    ensures { OnOk result (out.new.items ≡ out.old.items ++ word.now) }
{
    out.extend_from_slice(word)?;
    Ok(())
}

fn line(text: &[u8], out: &mut Vec<u8>) -> Result<(), NoMemory>
    ensures { OnOk result (out.new.items ≡ out.old.items ++ (text.now ⏎ [])) }
{
    word(text, out)?;
    out.push(b'\n')?;
    Ok(())
}

fn then<T: Text>(part: &T, out: &mut Vec<u8>) -> Result<(), NoMemory>
    ensures text { OnOk result (out.new.items ≡ out.old.items ++ 32 ∷ T.text part.now) }
    ensures spelled { OnOk result (T.spelled part.now) }
{
    out.push(b' ')?;
    part.print(out)
}

fn two<A: Text>(first: &[u8], a: &A, out: &mut Vec<u8>) -> Result<(), NoMemory>
    ensures text { OnOk result (out.new.items ≡ out.old.items ++ (first.now · A.text a.now)) }
    ensures spelled { OnOk result (A.spelled a.now) }
{
    word(first, out)?;
    then(a, out)
}

fn three<A: Text, B: Text>(first: &[u8], a: &A, b: &B, out: &mut Vec<u8>) -> Result<(), NoMemory>
    ensures text { OnOk result (out.new.items ≡ out.old.items ++ (first.now · A.text a.now · B.text b.now)) }
    ensures spelled { OnOk result (A.spelled a.now × B.spelled b.now) }
{
    two(first, a, out)?;
    then(b, out)
}

fn around<A: Text>(first: &[u8], a: &A, last: &[u8], out: &mut Vec<u8>) -> Result<(), NoMemory>
    ensures text { OnOk result (out.new.items ≡ out.old.items ++ (first.now · A.text a.now · last.now)) }
    ensures spelled { OnOk result (A.spelled a.now) }
{
    two(first, a, out)?;
    out.push(b' ')?;
    word(last, out)
}

impl Row for CommittedRow {
    ghost text = { committed_text };

    ghost spelled = { FitsCommittedRow };

    fn print(&self, out: &mut Vec<u8>) -> Result<(), NoMemory> {
        three(b"committed", &self.id, &self.ts, out)?;
        out.push(b' ')?;
        print_writes(self.writes.as_slice(), out)
    }
}

fn print_writes(writes: &[(Key, Option<Value>)], out: &mut Vec<u8>) -> Result<(), NoMemory>
    ensures text { OnOk result (out.new.items ≡ out.old.items ++ listed last_write_text writes.now) }
    ensures spelled { OnOk result (All FitsLastWrite writes.now) }
{
    match writes.split_first() {
        None => word(b"-", out),
        Some((first, rest)) => {
            print_write(first, out)?;
            print_more_writes(rest, out)
        }
    }
}

fn print_more_writes(writes: &[(Key, Option<Value>)], out: &mut Vec<u8>) -> Result<(), NoMemory>
    ensures text { OnOk result (out.new.items ≡ out.old.items ++ flat_map (λ write. 44 ∷ last_write_text write) writes.now) }
    ensures spelled { OnOk result (All FitsLastWrite writes.now) }
{
    for write in writes {
        out.push(b',')?;
        print_write(write, out)?;
    }
    Ok(())
}

fn print_write(write: &(Key, Option<Value>), out: &mut Vec<u8>) -> Result<(), NoMemory>
    ensures text { OnOk result (out.new.items ≡ out.old.items ++ last_write_text write.now) }
    ensures spelled { OnOk result (FitsLastWrite write.now) }
{
    write.0.print(out)?;
    write.1.print(out)
}

impl Row for OtherRow {
    ghost text = { other_text };

    ghost spelled = { FitsOtherRow };

    fn print(&self, out: &mut Vec<u8>) -> Result<(), NoMemory> {
        match &self.ending {
            Ending::Aborted(why) => three(b"aborted", &self.id, why, out),
            Ending::NoRecord => around(b"open", &self.id, b"none", out),
            Ending::Pending => around(b"open", &self.id, b"pending", out),
            Ending::Staging => around(b"open", &self.id, b"staging", out),
        }
    }
}

impl Row for MapRow {
    ghost text = { map_text };

    ghost spelled = { FitsMapRow };

    fn print(&self, out: &mut Vec<u8>) -> Result<(), NoMemory> {
        two(b"map", &self.0, out)?;
        self.1.print(out)
    }
}
