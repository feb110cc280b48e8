ghost use Rattle.std.specs.Prelude.{◌≡◌, ◌↔◌, None, Some, map, string_bytes};
ghost use Rattle.pc_base.specs.Counts.{saturating_next};
ghost use Rattle.pc_io.specs.Reading.{HasNoneLeft};
ghost use Rattle.pc_program.specs.Causes.{IfRead, IfWriteFault, UnlessWriteFault, UnlessWriting};
ghost use Rattle.pc_program.specs.Limits.{KeepsLimit, input_limit};
ghost use Rattle.pc_program.specs.ModeCheck.{HasChecked};
ghost use Rattle.pc_program.specs.ModeRun.{HasRun};
ghost use Rattle.pc_words.specs.declared.Mode.{Mode as asked};
ghost use Rattle.pc_words.specs.declared.Mode.TheVariants as modes;
ghost use Rattle.pc_words.specs.Forms.{mode_in};

use crate::check::check_journal;
use crate::run::run_workload;
use crate::status::Status;
use pc_base::NoMemory;
use pc_clock::Clocks;
use pc_io::{Sink, Source};
use pc_range::Gate;
use pc_words::{Mode, mode_of};
use std::alloc::Global;
use std::sync::Wait;
use std::thread::Threads;

/// The whole program, in the mode that its words ask for.
///
/// Mode run reads a workload from the source, runs it, and writes its journal and report to the sink; mode check reads such an output, and
/// writes the line `run` where it is a run with its report. The words are those behind the program's name. A session or recoverer whose clock the
/// workload does not state reads the one that is handed in for it. The gate is asked before each evaluation.
pub fn pcommit<S: Source, K: Sink, M: Clocks, G: Gate + Sync, R: Wait + Threads + Sync>(
    rt: &R,
    alloc: Global,
    words: &[String],
    source: &mut S,
    sink: &mut K,
    clocks: &mut M,
    gate: &G,
) -> Status
where
    M::Clock: Drop + Send,
    // Usage comes exactly where the words name no mode, unless memory ran out; nothing is read then.
    ensures usage { ¬ (result ≡ Status.NoMemory) → ((result ≡ Status.Usage) ↔ (mode_in (map string_bytes words.now) ≡ None)) }
    ensures usage_reads_nothing { mode_in (map string_bytes words.now) ≡ None → source.new ≡ source.old }

    // A fault is answered exactly where a call of the object that was handed in failed, and the first failure ends it.
    ensures read_fault { result ≡ Status.ReadFault → S.faults source.new ≡ saturating_next (S.faults source.old) }
    ensures read_count { ¬ (result ≡ Status.ReadFault) → S.faults source.new ≡ S.faults source.old }
    ensures write_fault { IfWriteFault result (λ written. K.faults sink.new ≡ saturating_next (K.faults sink.old)) }
    ensures write_count { UnlessWriteFault result (K.faults sink.new ≡ K.faults sink.old) }

    // The input is read to its end, unless it is longer than the mode allows.
    ensures limit { (mode : asked) → mode_in (map string_bytes words.now) ≡ Some mode →
        KeepsLimit (input_limit mode) result (S.left source.old) (S.left source.new) }
    ensures read_whole { IfRead result (HasNoneLeft (S.left source.old) (S.left source.new)) }

    // What the input is found to be, and what is written. Where neither mode comes to its writing, nothing is.
    ensures run { mode_in (map string_bytes words.now) ≡ Some modes.Run →
        HasRun result (M.rules clocks.old) (S.left source.old) (K.taken sink.old) (K.taken sink.new) }
    ensures check { mode_in (map string_bytes words.now) ≡ Some modes.Check →
        HasChecked result (S.left source.old) (K.taken sink.old) (K.taken sink.new) }
    ensures unwritten { UnlessWriting result (sink.new ≡ sink.old) }
{
    match mode_of(alloc, words) {
        Ok(Some(Mode::Run)) => run_workload(rt, alloc, source, sink, clocks, gate),
        Ok(Some(Mode::Check)) => check_journal(alloc, source, sink),
        Ok(None) => Status::Usage,
        Err(NoMemory) => Status::NoMemory,
    }
}
