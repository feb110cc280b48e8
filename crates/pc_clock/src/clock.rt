ghost use Rattle.std.specs.Prelude.{◌≡◌, ℕ, Bool, IsTrue};
ghost use Rattle.pc_base.specs.Counts.{saturating_next};
ghost use Rattle.pc_base.specs.declared.actor.ActorId.{ActorId as Actor};

use pc_base::ActorId;

/// A clock of one actor, in nanoseconds since 1970.
///
/// It keeps a rule, which says of each read whether a reading is possible there. So whoever uses a clock knows of a
/// reading no more than what the rule says of it.
pub trait Clock {
    /// Whether a read, counted from 0, can give a reading.
    ghost rule: { Self → ℕ → ℕ → Bool };

    /// How many reads were made; it stands still at the greatest `u64`.
    ghost reads: { Self → ℕ };

    fn read(&mut self) -> u64
        ensures given { IsTrue (rule self.old (reads self.old) result) }
        ensures counted { reads self.new ≡ saturating_next (reads self.old) }
        ensures kept { rule self.new ≡ rule self.old };
}

/// The clocks of all actors.
pub trait Clocks {
    type Clock: Clock;

    /// The rule of each actor's clock.
    ghost rules: { Self → Actor → ℕ → ℕ → Bool };

    /// A clock of this actor on which no read was made yet.
    fn clock(&mut self, actor: ActorId) -> Self::Clock
        ensures rule { Self.Clock.rule result ≡ rules self.old actor }
        ensures fresh { Self.Clock.reads result ≡ 0 }
        ensures kept { rules self.new ≡ rules self.old };
}
