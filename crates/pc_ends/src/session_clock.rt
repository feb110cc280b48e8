ghost use Rattle.std.specs.Prelude.{◌≡◌};
ghost use Rattle.pc_ends.specs.SessionClock.{session_reads, session_rule};
ghost use Rattle.pc_script.specs.Clocks.{clock_rule};

use pc_base::ActorId;
use pc_clock::{Clock, Clocks, Stepped};
use pc_work::ClockWork;

/// The clock of a session or a recoverer: the one that the workload states, or the one that was handed in.
#[derive(Drop)]
pub enum SessionClock<C> {
    Stated(Stepped),
    Handed(C),
}

impl<C: Clock> Clock for SessionClock<C> {
    ghost rule = { session_rule C.rule };

    ghost reads = { session_reads C.reads };

    fn read(&mut self) -> u64 {
        match self {
            SessionClock::Stated(clock) => clock.read(),
            SessionClock::Handed(clock) => clock.read(),
        }
    }
}

/// The clock of this client, on which no read was made yet.
pub(crate) fn clock_for<M: Clocks>(
    clocks: &mut M,
    stated: Option<ClockWork>,
    id: ActorId,
) -> SessionClock<M::Clock>
    ensures rule { session_rule M.Clock.rule result ≡ clock_rule stated (M.rules clocks.old id) }
    ensures unread { session_reads M.Clock.reads result ≡ 0 }
    ensures kept { M.rules clocks.new ≡ M.rules clocks.old }
{
    match stated {
        Some(clock) => SessionClock::Stated(Stepped::new(clock.start, clock.step)),
        None => SessionClock::Handed(clocks.clock(id)),
    }
}
