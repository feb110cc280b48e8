//! Which calls of a source or a sink in memory fail.

ghost use Rattle.std.specs.Prelude.{◌≡◌, ◌↔◌, Contains, IsTrue};
ghost use Rattle.pc_base.specs.Counts.{saturating_next};

use crate::failure::Failed;

/// The numbers of the calls that fail, counted from 1, and the counts of calls and of faults.
#[derive(Drop)]
pub struct Schedule {
    pub failing: Vec<u64>,
    pub calls: u64,
    pub faults: u64,
}

impl Schedule {
    pub fn new(failing: Vec<u64>) -> Schedule
        ensures failing { result.failing ≡ failing }
        ensures calls { result.calls ≡ 0 }
        ensures faults { result.faults ≡ 0 }
    {
        Schedule {
            failing,
            calls: 0,
            faults: 0,
        }
    }

    /// Counts one more call, and says whether it is to fail.
    pub fn begin(&mut self) -> bool
        ensures listed { IsTrue result ↔ Contains self.old.failing.items (saturating_next self.old.calls) }
        ensures counted { self.new ≡ record self.old { calls = saturating_next self.old.calls } }
    {
        self.calls = self.calls.saturating_add(1);
        self.failing.contains(&self.calls)
    }

    /// Counts one more fault.
    pub fn fail(&mut self) -> Failed
        ensures { self.new ≡ record self.old { faults = saturating_next self.old.faults } }
    {
        self.faults = self.faults.saturating_add(1);
        Failed
    }
}
