ghost use Rattle.std.specs.Prelude.{◌≡◌, IfOk};
ghost use Rattle.pc_scripted.specs.Scripted.{IsScripted};
ghost use Rattle.pc_threads.specs.Lanes.{HasLeftLane, HasRunLane};

use pc_base::NoMemory;
use pc_clock::Clock;
use pc_history::Named;
use pc_range::{CommitWorld, Gate};
use pc_scripted::Scripted;
use pc_wire::Wire;
use std::marker::Model;
use std::sync::Wait;
use std::thread::Threads;

/// A session that goes to the end of its script beside others, and how it ended.
#[derive(Drop)]
pub(crate) struct Lane<'a, N: Named<CommitWorld>, C: Clock, V: Wire, G> {
    pub(crate) session: Scripted<'a, N, C, V, G>,
    pub(crate) ended: Result<(), NoMemory>,
}

impl<'a, N: Named<CommitWorld>, C: Clock, V: Wire, G> Model for Lane<'a, N, C, V, G> {
    ghost use Rattle.pc_threads.specs.Lanes.{LaneMeaning};

    ghost Value = { LaneMeaning C };

    ghost view = { λ l. record { session = l.session; ended = l.ended } };
}

impl<'a, N: Named<CommitWorld>, C: Clock + Drop, V: Wire + Drop, G: Gate> Lane<'a, N, C, V, G> {
    /// The session, before it goes.
    pub(crate) fn new(session: Scripted<'a, N, C, V, G>) -> Lane<'a, N, C, V, G>
        ensures { result.session ≡ session.entry }
    {
        Lane {
            session,
            ended: Ok(()),
        }
    }

    /// The session again, where memory did not run out.
    pub(crate) fn finish(self) -> Result<Scripted<'a, N, C, V, G>, NoMemory>
        ensures { IfOk result (HasLeftLane self.entry) }
    {
        self.ended?;
        Ok(self.session)
    }
}

impl<'a, N: Named<CommitWorld> + Send + Sync, C: Clock + Drop, V: Wire + Drop, G: Gate + Sync> Lane<
    'a,
    N,
    C,
    V,
    G,
> {
    /// The session goes by itself to the end of its script.
    pub(crate) fn run<R: Wait + Threads + Sync>(&mut self, rt: &R)
        requires { IsScripted self.old.session }
        ensures { HasRunLane C.rule self.old self.new }
    {
        self.ended = self.session.run_to_end(rt);
    }
}
