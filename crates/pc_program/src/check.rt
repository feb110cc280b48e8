ghost use Rattle.std.specs.Prelude.{◌≡◌, ℕ, ◌+◌, ◌<◌, ◌↔◌, IfSome, length, take};
ghost use Rattle.std.specs.Io.KnownBytes.{Appends};
ghost use Rattle.pc_base.specs.Counts.{saturating_next};
ghost use Rattle.pc_checking.specs.Ends.{run_line};
ghost use Rattle.pc_io.specs.Reading.{HasNoneLeft, TakesAtMost, TakesExactly};
ghost use Rattle.pc_program.specs.Causes.{IfDone, IfRead, IfWriteFault, IsOfCheck, UnlessWriteFault, UnlessWriting};
ghost use Rattle.pc_program.specs.ModeCheck.{verdict_told};
ghost use Rattle.pc_verdict.specs.Verdicts.{IsVerdictOf};

use crate::status::Status;
use pc_checker::JournalChecker;
use pc_checking::{Checked, JOURNAL_BYTES, check};
use pc_io::{Sink, Source};
use std::alloc::Global;

/// Mode check: reads a journal with its report from the source, and writes the line `run` where it is a run with its report.
pub(crate) fn check_journal<S: Source, K: Sink>(
    alloc: Global,
    source: &mut S,
    sink: &mut K,
) -> Status
    ensures read_fault { result ≡ Status.ReadFault → S.faults source.new ≡ saturating_next (S.faults source.old) }
    ensures read_count { ¬ (result ≡ Status.ReadFault) → S.faults source.new ≡ S.faults source.old }
    ensures write_fault { IfWriteFault result (λ written. K.faults sink.new ≡ saturating_next (K.faults sink.old)) }
    ensures write_count { UnlessWriteFault result (K.faults sink.new ≡ K.faults sink.old) }
    ensures too_long { IfSome (S.left source.old) (λ left.
        (result ≡ Status.TooLong (JOURNAL_BYTES + 1)) ↔ TakesExactly (JOURNAL_BYTES + 1) left (S.left source.new)) }
    ensures too_long_by_one { (bytes : ℕ) → result ≡ Status.TooLong bytes → bytes ≡ JOURNAL_BYTES + 1 }
    ensures read_whole { IfRead result (HasNoneLeft (S.left source.old) (S.left source.new)) }
    ensures read_most { TakesAtMost (JOURNAL_BYTES + 1) (S.left source.old) (S.left source.new) }
    ensures verdict { IfSome (S.left source.old) (λ bytes. IfSome (verdict_told result) (IsVerdictOf bytes)) }
    ensures done { IfDone result (Appends (K.taken sink.old) (K.taken sink.new) run_line) }
    ensures part { IfWriteFault result (λ written. Appends (K.taken sink.old) (K.taken sink.new) (take written run_line)) }
    ensures short { IfWriteFault result (λ written. written < length run_line) }
    ensures unwritten { UnlessWriting result (sink.new ≡ sink.old) }
    ensures kind { IsOfCheck result }
{
    match check(alloc, source, sink, &JournalChecker) {
        Checked::Run => Status::Done,
        Checked::NotRun { line, rule } => Status::NotRun { line, rule },
        Checked::Malformed { line } => Status::Journal { line },
        Checked::ReadFault => Status::ReadFault,
        Checked::WriteFault { written } => Status::WriteFault { written },
        Checked::TooLong { bytes } => Status::TooLong { bytes },
        Checked::NoMemory => Status::NoMemory,
    }
}
