ghost use Rattle.std.specs.Prelude.{◌≡◌, ◌↔◌, IfOk, IsTrue, OnOk};
ghost use Rattle.std.specs.Option.{option_copied};
ghost use Rattle.pc_base.specs.declared.actor.ActorId.{ActorId as actor_id};
ghost use Rattle.pc_check.specs.Judging.{CanDo};
ghost use Rattle.pc_history.specs.Own.{pair};
ghost use Rattle.pc_world.specs.Known.{Known, learn, nothing_known};
ghost use Rattle.pc_world.specs.Local.{Head, MayDo};

use pc_base::{ActorId, Entry, NoMemory};
use pc_proto::{Event, Keys};
use std::alloc::Global;

/// Decides what one session or recoverer may do next, by what it knows.
pub trait Client<'a> {
    ghost keeps: { Head → actor_id → Known → Self → Type 0 };

    /// An actor that has no entry yet.
    fn new(alloc: Global, actor: ActorId, splits: &'a Keys) -> Result<Self, NoMemory>
        ensures { IfOk result (λ made. (head : Head) → head.splits ≡ splits.now → keeps head actor nothing_known made) };

    /// Whether the actor may make the event next.
    fn may(&self, event: &'a Event) -> Result<bool, NoMemory>
        ensures { IfOk result (λ may. (head : Head) (actor : actor_id) (k : Known) → keeps head actor k self.now → IsTrue may ↔ MayDo head actor k event.now) };

    /// Takes one more entry, which the actor may make, with the one that it names.
    fn add(
        &mut self,
        entry: &'a Entry<Event>,
        named: Option<&'a Entry<Event>>,
    ) -> Result<(), NoMemory>
        requires { CanDo keeps self.old entry.now.event }
        ensures { (head : Head) (actor : actor_id) (k : Known) → keeps head actor k self.old → MayDo head actor k entry.now.event → OnOk result (keeps head actor (learn (pair entry.now (option_copied named.entry)) k) self.new) };
}
