ghost use Rattle.std.specs.Prelude.{ℕ, [], IfOk, List};
ghost use Rattle.pc_check.specs.FirstBroken.{head_with};
ghost use Rattle.pc_verdict.specs.Reading.{IsReadFrom, IsReadFromSome};
ghost use Rattle.pc_verdict.specs.Verdicts.{IsVerdictOf};
ghost use Rattle.pc_world.specs.Run.{IsRun};

use crate::differing::first_difference;
use crate::journal::Journal;
use pc_base::{Entry, NoMemory};
use pc_check::{Judge, Rule, first_broken};
use pc_proto::Event;
use pc_report::{print_report, report};
use std::alloc::Global;

/// What a text is found to be.
#[derive(Clone, Copy, Debug, PartialEq, Eq)]
pub enum Verdict {
    /// The journal of a run, and below it the run's report.
    Run,
    /// A journal with a report, of which this line is the first that breaks a rule.
    NotRun { line: u64, rule: Rule },
    /// This line is the first that is outside the grammar.
    Malformed { line: u64 },
}

impl<'b> Journal<'b> {
    /// The verdict on the text that the journal was read from, by a judge that has judged nothing yet.
    pub fn verdict<'a, J: Judge<'a>>(
        &'a self,
        judge: &mut J,
        alloc: Global,
    ) -> Result<Verdict, NoMemory>
        requires read { IsReadFromSome self.now }
        requires kept { J.keeps (head_with self.now.splits self.now.sessions self.now.recoverers) [] judge.old }
        ensures { IfOk result (λ verdict. (bytes : List ℕ) → IsReadFrom bytes self.now → IsVerdictOf bytes verdict) }
    {
        let entries: &'a [Entry<Event>] = self.body.entries.as_slice();
        match first_broken(
            judge,
            &self.splits,
            self.sessions,
            self.recoverers,
            entries,
            alloc,
        )? {
            Some((place, rule)) => Ok(Verdict::NotRun {
                line: place as u64 + 4,
                rule,
            }),
            None => self.report_verdict(alloc),
        }
    }

    /// The verdict on the text where the entries are a run.
    fn report_verdict(&self, alloc: Global) -> Result<Verdict, NoMemory>
        requires read { IsReadFromSome self.now }
        requires run { IsRun (head_with self.now.splits self.now.sessions self.now.recoverers) self.now.body.entries }
        ensures { IfOk result (λ verdict. (bytes : List ℕ) → IsReadFrom bytes self.now → IsVerdictOf bytes verdict) }
    {
        let entries = self.body.entries.as_slice();
        let report = report(alloc, &self.splits, entries)?;
        let mut text = Vec::new(alloc);
        print_report(&report, &mut text)?;
        match first_difference(self.body.report.as_slice(), &text) {
            Some(place) => Ok(Verdict::NotRun {
                line: entries.len() as u64 + 4 + place as u64,
                rule: Rule::Report,
            }),
            None => Ok(Verdict::Run),
        }
    }
}
