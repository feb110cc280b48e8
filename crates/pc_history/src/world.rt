/// What the events of a history mean, and the laws that a meaning has to meet.
pub trait World: Drop {
    ghost use Rattle.pc_history.specs.Sense.{Sense};
    ghost use Rattle.pc_history.specs.World.{IsWorld};

    type Event: Drop;

    ghost sense: { Self → Sense Self.Event };

    ghost laws: { (world : Self) → IsWorld (sense world) };
}
