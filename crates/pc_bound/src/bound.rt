ghost use Rattle.std.specs.Prelude.{◌≡◌, ◌<◌};
ghost use Rattle.pc_base.specs.Bound.{least_write, no_bound, raised, shared_owner};
ghost use Rattle.pc_base.specs.Timestamp.{greatest};
ghost use Rattle.pc_bound.specs.LeastWrite.{IsLeastWrite};

use pc_base::{Timestamp, TxnId};
use std::cmp::Ordering;
use std::marker::Model;

/// What has been read of a range: the greatest timestamp of a read, and the transaction that alone read there.
///
/// Nobody but the owner may write at or below the bound, and the owner not below it. It never falls.
#[derive(Debug, Drop)]
pub struct Bound {
    ts: Timestamp,
    owner: Option<TxnId>,
}

impl Model for Bound {
    ghost use Rattle.pc_base.specs.Bound.{ReadBound};

    ghost Value = { ReadBound };

    ghost view = { λ b. record { ts = b.ts; owner = b.owner } };
}

impl Bound {
    /// Nothing has been read yet.
    pub fn new() -> Bound
        ensures { result ≡ no_bound }
    {
        Bound {
            ts: Timestamp::ZERO,
            owner: None,
        }
    }

    /// A read at this timestamp, by a transaction or on behalf of nobody.
    pub fn raise(&mut self, ts: Timestamp, owner: Option<TxnId>)
        ensures { self.new ≡ raised ts owner self.old }
    {
        match self.ts.cmp(&ts) {
            Ordering::Less => {
                self.ts = ts;
                self.owner = owner;
            }
            Ordering::Equal => self.owner = shared_owner(self.owner, owner),
            Ordering::Greater => {}
        }
    }

    /// The least timestamp at which this writer may write, not below the one that it asks for.
    pub fn least_write(&self, ts: Timestamp, writer: TxnId) -> Timestamp
        requires { self.now.ts < greatest }
        ensures value { result ≡ least_write self.now ts writer }
        ensures least { IsLeastWrite self.now ts writer result }
    {
        let free = if self.owner == Some(writer) {
            self.ts
        } else {
            self.ts.next()
        };
        ts.max(free)
    }
}

fn shared_owner(one: Option<TxnId>, other: Option<TxnId>) -> Option<TxnId>
    ensures { result ≡ shared_owner one other }
{
    if one == other { one } else { None }
}

#[cfg(test)]
mod tests {
    use super::*;

    const ONE: TxnId = TxnId {
        session: 1,
        number: 1,
    };

    const OTHER: TxnId = TxnId {
        session: 2,
        number: 1,
    };

    #[test]
    fn only_the_owner_writes_at_the_bound(rt: HostRuntime) {
        let mut bound = Bound::new();
        bound.raise(Timestamp::new(10, 0), Some(ONE));
        let asked = Timestamp::new(5, 0);
        assert_eq!(rt; bound.least_write(asked, ONE), Timestamp::new(10, 0));
        assert_eq!(rt; bound.least_write(asked, OTHER), Timestamp::new(10, 1));
    }

    #[test]
    fn a_shared_bound_is_nobodys(rt: HostRuntime) {
        let mut bound = Bound::new();
        bound.raise(Timestamp::new(10, 0), Some(ONE));
        bound.raise(Timestamp::new(10, 0), Some(OTHER));
        let asked = Timestamp::new(5, 0);
        assert_eq!(rt; bound.least_write(asked, ONE), Timestamp::new(10, 1));
    }
}
