ghost use Rattle.std.specs.Prelude.{IfOk};
ghost use Rattle.pc_verdict.specs.Verdicts.{IsVerdictOf};

use pc_base::NoMemory;
use pc_verdict::Verdict;
use std::alloc::Global;

/// Finds the verdict on a text.
pub trait Checker {
    fn verdict(&self, alloc: Global, bytes: &[u8]) -> Result<Verdict, NoMemory>
        ensures { IfOk result (IsVerdictOf bytes.now) };
}
