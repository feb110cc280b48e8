//! The rule of the step table.
use crate::view::View;
use crate::world::World;
use atomic_table::TableRule;

pub struct StepRule;

impl<W: World> TableRule<(), View<W, W::Event>, W> for StepRule {
    ghost use Rattle.pc_history.specs.Table.{Rules, opening_view};

    ghost holds = { Rules W.sense };

    ghost first = { opening_view };
}
