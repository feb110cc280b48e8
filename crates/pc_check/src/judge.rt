ghost use Rattle.std.specs.Prelude.{◌≡◌, ◌↔◌, ◌++◌, ◌∷◌, [], IfOk, IsTrue, List, OnOk};
ghost use Rattle.std.specs.Option.{option_copied};
ghost use Rattle.pc_base.specs.declared.entry.Entry.{Entry as entry_of};
ghost use Rattle.pc_proto.specs.declared.event.Event.{Event as event_of};
ghost use Rattle.pc_history.specs.Own.{named_in};
ghost use Rattle.pc_world.specs.Local.{Head};
ghost use Rattle.pc_world.specs.Run.{IsRun, protocol};
ghost use Rattle.pc_check.specs.Judging.{IsNextFor, MayComeAfter};

use pc_base::{Entry, NoMemory};
use pc_proto::Event;

/// Decides, entry by entry, which event may come next in its actor's own list.
pub trait Judge<'a> {
    ghost keeps: { Head → List (entry_of event_of) → Self → Type 0 };

    /// Whether the next entry, which is caused by those before it, may come next in its actor's list. Where it may, it is taken, with
    /// the one that it names.
    fn take(
        &mut self,
        before: &'a [Entry<Event>],
        entry: &'a Entry<Event>,
        named: Option<&'a Entry<Event>>,
    ) -> Result<bool, NoMemory>
        requires named { (head : Head) → IsRun head before.now → option_copied named ≡ named_in (protocol head) before.now entry.now.event }
        requires next { IsNextFor keeps self.old before.now entry.now }
        ensures may { IfOk result (λ may. (head : Head) → keeps head before.now self.old → IsNextFor keeps self.old before.now entry.now → IsTrue may ↔ MayComeAfter head before.now entry.now) }
        ensures taken { (head : Head) → keeps head before.now self.old → MayComeAfter head before.now entry.now → OnOk result (keeps head (before.now ++ entry.now ∷ []) self.new) };
}
