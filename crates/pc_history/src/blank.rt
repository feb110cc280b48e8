ghost use Rattle.std.specs.Prelude.{◌≡◌, IfOk};

use crate::rule::StepRule;
use crate::view::View;
use crate::world::World;
use atomic_table::{Seat, Table};
use pc_base::NoMemory;
use std::alloc::Global;
use std::marker::Model;
use std::sync::Arc;

/// The shared word, which all that is made of one table holds.
pub(crate) type StepTable<W> = Table<(), View<W, <W as World>::Event>, W, StepRule, Global>;

/// A seat at it.
pub(crate) type StepSeat<W> = Seat<(), View<W, <W as World>::Event>>;

/// A table with no history yet, whose name is not known yet: a function that is generic in the name takes it.
#[derive(Drop)]
pub struct Blank<W: World> {
    pub(crate) alloc: Global,
    pub(crate) table: Arc<StepTable<W>, Global>,
    pub(crate) seat: StepSeat<W>,
}

impl<W: World> Model for Blank<W> {
    ghost use Rattle.pc_history.specs.Meanings.{BlankMeaning};
    ghost use Rattle.pc_history.specs.Ties.{BlankIsTied};

    ghost Value = { BlankMeaning W };

    ghost view = { λ b. record { world = b.table.value.shared.key; table = b.table.value.shared.table_id } };

    ghost invariant = { λ b. BlankIsTied b.table.value.shared.key b.table.value.shared.table_id b.seat.table_id b.seat.me };
}

impl<W: World> Blank<W> {
    /// Makes a table for the histories of a world.
    pub fn new(alloc: Global, world: W) -> Result<Blank<W>, NoMemory>
        ensures { IfOk result (λ b. b.world ≡ world) }
    {
        let (table, seat) = StepTable::<W>::of_words(alloc, &[0], &world)?;
        let table = Arc::new(alloc, table)?;
        Ok(Blank { alloc, table, seat })
    }
}
