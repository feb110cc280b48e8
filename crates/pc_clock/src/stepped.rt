ghost use Rattle.std.specs.Prelude.{◌≡◌, ◌+◌, ◌*◌, ◌-◌, ◌^◌, min};
ghost use Rattle.std.specs.Prelude.{IsTrue};
ghost use Rattle.pc_base.specs.Counts.{saturating_next};
ghost use Rattle.pc_clock.specs.Stepped.{stepped_reading, stepped_rule};

use crate::clock::{Clock, Clocks};
use pc_base::ActorId;
use std::marker::Model;

/// A clock whose reading i, from 0, is `start + i * step`, held at `2^64 - 1`.
#[derive(Clone, Copy, Debug, PartialEq, Eq)]
pub struct Stepped {
    start: u64,
    step: u64,
    reads: u64,
}

impl Model for Stepped {
    ghost use Rattle.pc_clock.specs.Stepped.{SteppedState};

    ghost Value = { SteppedState };

    ghost view = { λ s. record { start = s.start; step = s.step; reads = s.reads } };

    ghost inverse = { λ s. record { start = s.start; step = s.step; reads = s.reads } };
}

impl Stepped {
    pub fn new(start: u64, step: u64) -> Stepped
        ensures start { result.start ≡ start }
        ensures step { result.step ≡ step }
        ensures fresh { result.reads ≡ 0 }
    {
        Stepped {
            start,
            step,
            reads: 0,
        }
    }
}

impl Clock for Stepped {
    ghost rule = { λ s. stepped_rule s.start s.step };

    ghost reads = { λ s. s.reads };

    fn read(&mut self) -> u64
        ensures reading { result ≡ stepped_reading self.old.start self.old.step self.old.reads }
        ensures given { IsTrue (stepped_rule self.old.start self.old.step self.old.reads result) }
        ensures counted { self.new.reads ≡ saturating_next self.old.reads }
        ensures start { self.new.start ≡ self.old.start }
        ensures step { self.new.step ≡ self.old.step }
        ensures kept { stepped_rule self.new.start self.new.step ≡ stepped_rule self.old.start self.old.step }
    {
        let since_start = self.reads.saturating_mul(self.step);
        self.reads = self.reads.saturating_add(1);
        self.start.saturating_add(since_start)
    }
}

impl Clocks for Stepped {
    type Clock = Stepped;

    ghost rules = { λ s actor. stepped_rule s.start s.step };

    fn clock(&mut self, _actor: ActorId) -> Stepped {
        Stepped::new(self.start, self.step)
    }
}
