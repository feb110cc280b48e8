ghost use Rattle.std.specs.Prelude.{◌≡◌, IfOk};
ghost use Rattle.pc_rounds.specs.Counted.{GoesInRounds};
ghost use Rattle.pc_threads.specs.RoundLanes.{HasLeftRoundLane, HasRunRounds};

use pc_base::NoMemory;
use pc_clock::Clock;
use pc_history::Named;
use pc_range::{CommitWorld, Gate};
use pc_rounds::CountedRecoverer;
use pc_wire::Wire;
use std::marker::Model;
use std::sync::Wait;

/// A recoverer that makes its rounds beside others, and how it ended.
#[derive(Drop)]
pub(crate) struct RoundLane<'a, N: Named<CommitWorld>, C: Clock, V: Wire, G> {
    pub(crate) recoverer: CountedRecoverer<'a, N, C, V, G>,
    pub(crate) ended: Result<(), NoMemory>,
}

impl<'a, N: Named<CommitWorld>, C: Clock, V: Wire, G> Model for RoundLane<'a, N, C, V, G> {
    ghost use Rattle.pc_threads.specs.RoundLanes.{RoundLaneMeaning};

    ghost Value = { RoundLaneMeaning C };

    ghost view = { λ l. record { recoverer = l.recoverer; ended = l.ended } };
}

impl<'a, N: Named<CommitWorld>, C: Clock + Drop, V: Wire + Drop, G: Gate> RoundLane<
    'a,
    N,
    C,
    V,
    G,
> {
    /// The recoverer, before it makes them.
    pub(crate) fn new(recoverer: CountedRecoverer<'a, N, C, V, G>) -> RoundLane<'a, N, C, V, G>
        ensures { result.recoverer ≡ recoverer.entry }
    {
        RoundLane {
            recoverer,
            ended: Ok(()),
        }
    }

    /// The recoverer again, where memory did not run out.
    pub(crate) fn finish(self) -> Result<CountedRecoverer<'a, N, C, V, G>, NoMemory>
        ensures { IfOk result (HasLeftRoundLane self.entry) }
    {
        self.ended?;
        Ok(self.recoverer)
    }

    /// The recoverer makes the rounds that are left to it.
    pub(crate) fn run<R: Wait>(&mut self, rt: &R)
        requires { GoesInRounds self.old.recoverer }
        ensures { HasRunRounds C.rule self.old self.new }
    {
        self.ended = self.recoverer.make_all(rt);
    }
}
