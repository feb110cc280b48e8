ghost use Rattle.std.specs.Prelude.{◌≡◌, ℕ, ◌+◌, ◌<◌, ◌↔◌, IfSome, Some, length, take};
ghost use Rattle.std.specs.Io.KnownBytes.{Appends};
ghost use Rattle.pc_base.specs.Counts.{saturating_next};
ghost use Rattle.pc_checking.specs.Ends.{IfStopped, IsAfterWhole, UnlessStopped, UnlessWritten, run_line, verdict_in};
ghost use Rattle.pc_io.specs.Reading.{HasNoneLeft, TakesAtMost, TakesExactly};
ghost use Rattle.pc_verdict.specs.Verdicts.{IsVerdictOf};

use crate::checked::Checked;
use crate::checker::Checker;
use pc_base::NoMemory;
use pc_io::{ReadFault, Sink, Source, read_all, write_all};
use pc_verdict::Verdict;
use std::alloc::Global;

/// The most bytes of a journal with its report.
pub const JOURNAL_BYTES: usize = 268_435_456;

/// Reads the source to its end, and says what its bytes are found to be.
pub fn check<S: Source, K: Sink, C: Checker>(
    alloc: Global,
    source: &mut S,
    sink: &mut K,
    checker: &C,
) -> Checked
    // The verdict that is answered is right of the bytes that the source had, all of which were read.
    ensures verdict { IfSome (S.left source.old) (λ bytes. IfSome (verdict_in result) (IsVerdictOf bytes)) }
    ensures read_whole { IfSome (verdict_in result) (λ verdict. HasNoneLeft (S.left source.old) (S.left source.new)) }

    // A fault is answered exactly where a call of the object that was handed in failed, and the first failure ends it.
    ensures read_fault { result ≡ Checked.ReadFault → S.faults source.new ≡ saturating_next (S.faults source.old) }
    ensures read_count { ¬ (result ≡ Checked.ReadFault) → S.faults source.new ≡ S.faults source.old }
    ensures write_fault { IfStopped result (λ written. K.faults sink.new ≡ saturating_next (K.faults sink.old)) }
    ensures write_count { UnlessStopped result (K.faults sink.new ≡ K.faults sink.old) }

    // Too long exactly where one byte more than the limit was read.
    ensures too_long { IfSome (S.left source.old) (λ left.
        (result ≡ Checked.TooLong (JOURNAL_BYTES + 1)) ↔ TakesExactly (JOURNAL_BYTES + 1) left (S.left source.new)) }
    ensures too_long_by_one { (bytes : ℕ) → result ≡ Checked.TooLong bytes → bytes ≡ JOURNAL_BYTES + 1 }
    ensures read_most { TakesAtMost (JOURNAL_BYTES + 1) (S.left source.old) (S.left source.new) }

    // Of a run the line `run` was appended to what the sink had taken; a write fault is a part of it. Else nothing was written.
    ensures done { result ≡ Checked.Run → Appends (K.taken sink.old) (K.taken sink.new) run_line }
    ensures part { IfStopped result (λ written. Appends (K.taken sink.old) (K.taken sink.new) (take written run_line)) }
    ensures short { IfStopped result (λ written. written < length run_line) }
    ensures unwritten { UnlessWritten result (sink.new ≡ sink.old) }
{
    match read_all(alloc, source, JOURNAL_BYTES) {
        Ok(bytes) => judged(alloc, &bytes, sink, checker),
        Err(ReadFault::Failed) => Checked::ReadFault,
        Err(ReadFault::TooLong { bytes }) => Checked::TooLong { bytes },
        Err(ReadFault::NoMemory) => Checked::NoMemory,
    }
}

/// What the bytes are found to be.
fn judged<K: Sink, C: Checker>(alloc: Global, bytes: &[u8], sink: &mut K, checker: &C) -> Checked
    ensures verdict { IfSome (verdict_in result) (IsVerdictOf bytes.now) }
    ensures write_fault { IfStopped result (λ written. K.faults sink.new ≡ saturating_next (K.faults sink.old)) }
    ensures write_count { UnlessStopped result (K.faults sink.new ≡ K.faults sink.old) }
    ensures done { result ≡ Checked.Run → Appends (K.taken sink.old) (K.taken sink.new) run_line }
    ensures part { IfStopped result (λ written. Appends (K.taken sink.old) (K.taken sink.new) (take written run_line)) }
    ensures short { IfStopped result (λ written. written < length run_line) }
    ensures unwritten { UnlessWritten result (sink.new ≡ sink.old) }
    ensures kind { IsAfterWhole result }
{
    match checker.verdict(alloc, bytes) {
        Ok(Verdict::Run) => write_run(sink),
        Ok(Verdict::NotRun { line, rule }) => Checked::NotRun { line, rule },
        Ok(Verdict::Malformed { line }) => Checked::Malformed { line },
        Err(NoMemory) => Checked::NoMemory,
    }
}

fn write_run<K: Sink>(sink: &mut K) -> Checked
    ensures verdict { verdict_in result ≡ Some Verdict.Run }
    ensures write_fault { IfStopped result (λ written. K.faults sink.new ≡ saturating_next (K.faults sink.old)) }
    ensures write_count { UnlessStopped result (K.faults sink.new ≡ K.faults sink.old) }
    ensures done { result ≡ Checked.Run → Appends (K.taken sink.old) (K.taken sink.new) run_line }
    ensures part { IfStopped result (λ written. Appends (K.taken sink.old) (K.taken sink.new) (take written run_line)) }
    ensures short { IfStopped result (λ written. written < length run_line) }
    ensures kind { IsAfterWhole result }
    ensures unwritten { UnlessWritten result (sink.new ≡ sink.old) }
{
    match write_all(sink, b"run\n") {
        Ok(()) => Checked::Run,
        Err(stop) => Checked::WriteFault {
            written: stop.written,
        },
    }
}
