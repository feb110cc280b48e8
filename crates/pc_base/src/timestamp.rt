ghost use Rattle.std.specs.Prelude.{◌≡◌, ◌==◌, ◌+◌, ◌*◌, ◌^◌, ◌<◌};
ghost use Rattle.pc_base.specs.Timestamp.{greatest};
ghost use Rattle.std.proofs.Common.{rules};
ghost use Rattle.std.specs.Cmp.{partial_order_from_own_ties};
ghost use Rattle.std.specs.Cmp.Rules.{comparing};
ghost use Rattle.std.specs.Ordering.{nat_cmp, as_partial_cmp};

use crate::memory::{NoMemory, TryCopy};
use std::cmp::Ordering;
use std::marker::Model;

/// A hybrid logical timestamp: nanoseconds since 1970, then a count that orders what shares them.
///
/// Printed `wall.logical`. Contracts see it as one number.
#[derive(Clone, Copy, Debug)]
pub struct Timestamp {
    pub wall: u64,
    pub logical: u32,
}

impl Model for Timestamp {
    ghost use Rattle.std.specs.Prelude.{ℕ, ◌+◌, ◌*◌, ◌/◌, ◌%◌, ◌^◌, ◌<◌};

    ghost Value = { ℕ };

    ghost use Rattle.pc_base.specs.TimestampParts.{parts_again};

    ghost view = { λ t. t.wall * 2 ^ 32 + t.logical };

    ghost invariant = { λ t. t.logical < 2 ^ 32 };

    ghost inverse = { λ n. record { wall = n / 2 ^ 32; logical = n % 2 ^ 32 } };

    ghost inverse_ok = { parts_again };
}

impl Timestamp {
    pub const ZERO: Timestamp = Timestamp {
        wall: 0,
        logical: 0,
    };

    pub fn new(wall: u64, logical: u32) -> Timestamp
        ensures { result ≡ wall * 2 ^ 32 + logical }
    {
        Timestamp { wall, logical }
    }

    /// The least timestamp above this one.
    pub fn next(self) -> Timestamp
        requires { self < greatest }
        ensures { result ≡ self + 1 }
    {
        if self.logical < u32::MAX {
            Timestamp::new(self.wall, self.logical + 1)
        } else {
            Timestamp::new(self.wall + 1, 0)
        }
    }

    fn number(self) -> u128
        ensures { result ≡ self }
    {
        self.wall as u128 * (1 << 32) + self.logical as u128
    }
}

impl PartialEq for Timestamp {
    ghost eq = { ◌==◌ };

    ghost laws = { Prim.search (comparing, rules) };

    fn eq(&self, other: &Timestamp) -> bool {
        self.number() == other.number()
    }
}

impl Eq for Timestamp {
    ghost laws = { Prim.search (comparing, rules) };
}

impl PartialOrd for Timestamp {
    ghost partial_cmp = { as_partial_cmp nat_cmp };

    ghost laws = { partial_order_from_own_ties (Prim.search (comparing, rules)) (Prim.search (comparing, rules)) };

    fn partial_cmp(&self, other: &Timestamp) -> Option<Ordering> {
        Some(self.cmp(other))
    }
}

impl Ord for Timestamp {
    ghost cmp = { nat_cmp };

    ghost total = { Prim.search (comparing, rules) };

    ghost matches_partial_cmp = { Prim.search (comparing, rules) };

    ghost matches_eq = { Prim.search (comparing, rules) };

    fn cmp(&self, other: &Timestamp) -> Ordering {
        self.number().cmp(&other.number())
    }
}

impl TryCopy for Timestamp {
    fn copy(&self) -> Result<Timestamp, NoMemory> {
        Ok(*self)
    }
}
