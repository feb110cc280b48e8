ghost use Rattle.std.specs.Prelude.{◌≡◌, ◌<◌, false, ◌↔◌, max, IsErr, IfErr, IfOk, OnErr};
ghost use Rattle.pc_base.specs.Clock.{clock_now};
ghost use Rattle.pc_base.specs.declared.limits.TheConstants.{GREATEST_READING};
ghost use Rattle.pc_base.specs.Timestamp.{greatest};
ghost use Rattle.pc_hlc.specs.Giving.{IsLeastAbove};

use pc_base::Timestamp;
use pc_base::limits::GREATEST_READING;
use std::marker::Model;

/// The greatest timestamp: none follows it.
const GREATEST: Timestamp = Timestamp {
    wall: u64::MAX,
    logical: u32::MAX,
};

/// The physical clock reads past the range in which timestamps are given.
#[derive(Clone, Copy, Debug, PartialEq, Eq)]
pub struct ClockRange {
    pub reading: u64,
}

/// A hybrid logical clock. Contracts see it as the last timestamp that it heard or gave.
#[derive(Debug, Drop)]
pub struct Hlc {
    last: Timestamp,
}

impl Model for Hlc {
    ghost use Rattle.std.specs.Prelude.{ℕ};

    ghost Value = { ℕ };

    ghost view = { λ clock. clock.last };
}

impl Hlc {
    /// A clock that has heard and given nothing.
    pub fn new() -> Hlc
        ensures { result ≡ 0 }
    {
        Hlc {
            last: Timestamp::ZERO,
        }
    }

    /// The time at this reading of the physical clock, in nanoseconds: the reading where it is past the last timestamp's, else the
    /// timestamp after the last one. Refused past the clock's range, and then the clock is as it was.
    pub fn now(&mut self, reading: u64) -> Result<Timestamp, ClockRange>
        requires { self.old < greatest }
        ensures refused { IsErr result ↔ GREATEST_READING < reading }
        ensures fault { IfErr result (λ fault. fault ≡ record { reading = reading }) }
        ensures kept { OnErr result (self.new ≡ self.old) }
        ensures value { IfOk result (λ ts. ts ≡ clock_now reading self.old) }
        ensures given { IfOk result (λ ts. self.new ≡ ts) }
        ensures least { IfOk result (λ ts. IsLeastAbove self.old reading ts) }
    {
        if reading > GREATEST_READING {
            return Err(ClockRange { reading });
        }
        self.last = time_at(reading, self.last);
        Ok(self.last)
    }

    /// Whether no timestamp is left to give.
    pub fn is_used_up(&self) -> bool
        ensures { result ≡ false → self.now < greatest }
    {
        self.last >= GREATEST
    }

    /// A timestamp was heard, and the clock is not below it from now on.
    pub fn hear(&mut self, ts: Timestamp)
        ensures { self.new ≡ max self.old ts }
    {
        self.last = self.last.max(ts);
    }
}

fn time_at(reading: u64, last: Timestamp) -> Timestamp
    requires { last < greatest }
    ensures value { result ≡ clock_now reading last }
    ensures least { IsLeastAbove last reading result }
{
    if reading > last.wall {
        Timestamp::new(reading, 0)
    } else {
        last.next()
    }
}
