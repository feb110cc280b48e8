ghost use Rattle.std.specs.Prelude.{◌≡◌, ◌↔◌, ◌+◌, ◌<◌, ◌^◌, IfOk, IsTrue, length};
ghost use Rattle.pc_allow.specs.Keeping.{KeepsAllow};
ghost use Rattle.pc_knowledge.specs.Keeping.{KeepsKnowledge};
ghost use Rattle.pc_world.specs.Known.{Known};
ghost use Rattle.pc_world.specs.Local.{Head, MayDo};

use pc_base::{ActorId, Entry, NoMemory};
use pc_check::Client;
use pc_knowledge::Knowledge;
use pc_may_send::may_send;
use pc_may_tell::may_tell;
use pc_proto::{Event, Keys};
use std::alloc::Global;

/// What a session or recoverer may do next, by what it knows.
#[derive(Drop)]
pub struct Allow<'a> {
    actor: ActorId,
    splits: &'a Keys,
    known: Knowledge<'a>,
}

/// Whether ranges with these splits can be numbered in 32 bits. No memory has as many keys as can't.
fn are_few(splits: &Keys) -> bool
    ensures { IsTrue result ↔ (length splits.now + 1 < 2 ^ 32) }
{
    (splits.len() as u64) < (1 << 32) - 1
}

impl<'a> Allow<'a> {
    /// Whether the actor may make the event next.
    fn may_next(&self, event: &'a Event) -> Result<bool, NoMemory>
        requires { length self.now.splits.now + 1 < 2 ^ 32 }
        ensures { (head : Head) (k : Known) → head.splits ≡ self.now.splits.now → KeepsKnowledge k self.now.known → IfOk result (λ may. IsTrue may ↔ MayDo head self.now.actor k event.now) }
    {
        match event {
            Event::Ask { call, .. } => Ok(self.known.calls().may_ask(self.actor, call)),
            Event::Send {
                number,
                range,
                request,
            } => may_send(
                self.splits,
                self.actor,
                &self.known,
                *number,
                *range,
                request,
            ),
            Event::Eval { .. } => Ok(false),
            Event::Hear { number, .. } => Ok(self.known.sends().may_hear(*number)),
            Event::Tell(answer) => may_tell(self.splits, self.actor, &self.known, answer),
            Event::Meet { .. } => Ok(self.known.calls().may_meet()),
        }
    }
}

impl<'a> Client<'a> for Allow<'a> {
    ghost keeps = { KeepsAllow };

    fn new(alloc: Global, actor: ActorId, splits: &'a Keys) -> Result<Allow<'a>, NoMemory> {
        Ok(Allow {
            actor,
            splits,
            known: Knowledge::new(alloc),
        })
    }

    fn may(&self, event: &'a Event) -> Result<bool, NoMemory> {
        if are_few(self.splits) {
            self.may_next(event)
        } else {
            Err(NoMemory)
        }
    }

    fn add(
        &mut self,
        entry: &'a Entry<Event>,
        named: Option<&'a Entry<Event>>,
    ) -> Result<(), NoMemory> {
        self.known.learn(entry, named)
    }
}
