ghost use Rattle.std.specs.Prelude.{◌≡◌, ◌++◌, ◌∷◌, [], IfErr, IfOk, IfSome, IsSome, OnOk, map};
ghost use Rattle.std.specs.List.{filter_map};
ghost use Rattle.pc_read.specs.Left.{own_line};
ghost use Rattle.pc_verdict.specs.Reading.{IsBodyOf, NamesMalformed, entry_in, report_line_in};

use crate::journal::Unread;
use pc_base::{Entry, Items, NoMemory};
use pc_proto::Event;
use pc_read::{LineRef, Lines, Malformed};
use std::alloc::Global;

/// What stands below the head of a journal: its entries, and the lines of its report from the line `report` to the line `end`.
#[derive(Debug, Drop)]
pub struct Body<'a> {
    pub entries: Items<Entry<Event>>,
    pub report: Items<&'a [u8]>,
}

impl<'a> Body<'a> {
    /// All lines that are left, in memory.
    pub fn read(alloc: Global, lines: &mut Lines<'a>) -> Result<Body<'a>, Unread>
        ensures read { IfOk result (IsBodyOf lines.old) }
        ensures unread { IfErr result (NamesMalformed lines.old) }
    {
        let mut body = Body {
            entries: Items::new(alloc),
            report: Items::new(alloc),
        };
        while let Some(line) = lines.next() {
            match line {
                Ok(line) => body.take(alloc, &line)?,
                Err(Malformed { line }) => return Err(Unread::Malformed { line }),
            }
        }
        Ok(body)
    }

    /// Takes one more line.
    fn take(&mut self, alloc: Global, line: &LineRef<'a>) -> Result<(), NoMemory>
        requires { IsSome (own_line line.now) }
        ensures entries { OnOk result (IfSome (own_line line.now) (λ item. self.new.entries ≡ self.old.entries ++ filter_map entry_in (item ∷ []))) }
        ensures report { OnOk result (IfSome (own_line line.now) (λ item. map (λ l. l.now) self.new.report ≡ map (λ l. l.now) self.old.report ++ filter_map report_line_in (item ∷ []))) }
    {
        match line {
            LineRef::Entry(entry) => self.entries.add(entry.entry(alloc)?),
            LineRef::ReportWord => self.report.add(b"report"),
            LineRef::Report(text) => self.report.add(*text),
            LineRef::End => self.report.add(b"end"),
            LineRef::Head(_) => Ok(()),
        }
    }
}
