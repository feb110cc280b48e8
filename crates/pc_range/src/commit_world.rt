ghost use Rattle.std.specs.Prelude.{◌≡◌};

use pc_history::World;
use pc_proto::{Event, Keys};
use std::marker::Model;

/// The protocol over these ranges, with so many sessions and recoverers: what a table of steps runs.
///
/// Contracts see it as the head of a history.
#[derive(Debug, Drop)]
pub struct CommitWorld {
    splits: Keys,
    sessions: u32,
    recoverers: u32,
}

impl Model for CommitWorld {
    ghost use Rattle.pc_world.specs.Local.{Head};

    ghost Value = { Head };

    ghost view = { λ w. record { splits = w.splits; sessions = w.sessions; recoverers = w.recoverers } };
}

impl CommitWorld {
    /// Ranges that are cut at the splits, and actors that are numbered from 1.
    pub fn new(splits: Keys, sessions: u32, recoverers: u32) -> CommitWorld
        ensures { result ≡ record { splits = splits; sessions = sessions; recoverers = recoverers } }
    {
        CommitWorld {
            splits,
            sessions,
            recoverers,
        }
    }
}

impl World for CommitWorld {
    ghost use Rattle.pc_world.proofs.World.{is_world};
    ghost use Rattle.pc_world.specs.Run.{protocol};

    type Event = Event;

    ghost sense = { protocol };

    ghost laws = { is_world };
}
