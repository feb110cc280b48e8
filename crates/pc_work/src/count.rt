ghost use Rattle.std.specs.Prelude.{◌≡◌, ℕ, ◌-◌, ◌^◌, min, sum_by};
ghost use Rattle.pc_work.specs.Count.{statement_count, item_count, session_count};

use crate::item::Item;
use crate::session::SessionWork;
use crate::statement::Statement;
use pc_base::Items;

/// A part of a workload that counts for a number of statements.
pub(crate) trait Counted {
    ghost size: { Self → ℕ };

    /// The number, held at the greatest that fits.
    fn count(&self) -> u64
        ensures { result ≡ min (size self.now) (2 ^ 64 - 1) };
}

impl<T: Counted> Counted for Items<T> {
    ghost size = { λ items. sum_by T.size items };

    fn count(&self) -> u64 {
        let mut count = 0u64;
        for item in self.as_slice() {
            count = count.saturating_add(item.count());
        }
        count
    }
}

impl Counted for Statement {
    ghost size = { statement_count };

    fn count(&self) -> u64 {
        match self {
            Statement::Add(_, _) => 2,
            _ => 1,
        }
    }
}

impl Counted for Item {
    ghost size = { item_count };

    fn count(&self) -> u64 {
        match self {
            Item::Learn(_) => 1,
            Item::Txn { statements, .. } => statements.count().saturating_add(2),
        }
    }
}

impl Counted for SessionWork {
    ghost size = { session_count };

    fn count(&self) -> u64 {
        self.script.count()
    }
}
