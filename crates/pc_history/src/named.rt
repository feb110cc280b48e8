use std::marker::Brand;

/// Names one table and its world, so that all that is made of one table is known to belong together, also what comes out of a lock.
/// The caller that makes a table passes `Brand` for it, and its proof picks the two.
pub trait Named<W> {
    ghost use Rattle.std.specs.Prelude.{Option};
    ghost use Rattle.atomic_table.specs.Seated.{TableId};

    ghost table: { TableId };

    ghost world: { Option W };
}

impl<W> Named<W> for Brand {
    ghost use Rattle.std.specs.Prelude.{None};
    ghost use Rattle.pc_history.specs.Meanings.{no_table};

    ghost table = { no_table };

    ghost world = { None };
}
