ghost use Rattle.std.specs.Prelude.{◌≡◌, ◌^◌, ◌-◌, min, true};
ghost use Rattle.std.specs.Time.{system_time_nanos};

use pc_base::ActorId;
use pc_clock::{Clock, Clocks};
use std::rt::Clock as TimeSource;
use std::time::{SystemTime, UNIX_EPOCH};

/// The system's clock, for every actor. Its rule allows any reading.
#[derive(Drop)]
pub struct SystemClocks<'a, R: TimeSource> {
    rt: &'a R,
}

impl<'a, R: TimeSource> SystemClocks<'a, R> {
    pub fn new(rt: &'a R) -> SystemClocks<'a, R> {
        SystemClocks { rt }
    }
}

/// The system's clock as one actor reads it.
#[derive(Drop)]
pub struct SystemClock<'a, R: TimeSource> {
    rt: &'a R,
    reads: u64,
}

impl<'a, R: TimeSource> Clock for SystemClock<'a, R> {
    ghost rule = { λ s i reading. true };

    ghost reads = { λ s. s.reads };

    fn read(&mut self) -> u64 {
        self.reads = self.reads.saturating_add(1);
        nanoseconds(self.rt)
    }
}

impl<'a, R: TimeSource> Clocks for SystemClocks<'a, R> {
    type Clock = SystemClock<'a, R>;

    ghost rules = { λ s actor i reading. true };

    fn clock(&mut self, _actor: ActorId) -> SystemClock<'a, R> {
        SystemClock {
            rt: self.rt,
            reads: 0,
        }
    }
}

/// Nanoseconds since 1970; 0 where the clock gives none.
fn nanoseconds<R: TimeSource>(rt: &R) -> u64 {
    match SystemTime::now(rt) {
        Ok(time) => nanoseconds_since_1970(time),
        Err(_) => 0,
    }
}

/// The time's nanoseconds since 1970, held at the greatest number.
fn nanoseconds_since_1970(time: SystemTime) -> u64
    ensures { result ≡ min (system_time_nanos time) (2 ^ 64 - 1) }
{
    match time.duration_since(UNIX_EPOCH) {
        Ok(since) => u64::try_from(since.as_nanos()).unwrap_or(u64::MAX),
        Err(_) => 0,
    }
}
