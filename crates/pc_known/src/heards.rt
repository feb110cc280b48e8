ghost use Rattle.std.specs.Prelude.{◌≡◌, ℕ, OnOk};
ghost use Rattle.pc_known.specs.Heards.{KeepsHeards};
ghost use Rattle.pc_world.specs.Known.{Known, known_after, nothing_known};

use crate::traffic::Hearing;
use pc_base::NoMemory;
use pc_proto::Event;
use std::alloc::Global;

/// The replies that an actor heard.
#[derive(Drop)]
pub struct Heards<'a> {
    /// All replies, in order.
    replies: Vec<Hearing<'a>>,
    /// How many were heard before the last call was asked.
    before: usize,
}

impl<'a> Heards<'a> {
    /// An actor that has no entry yet.
    pub fn new(alloc: Global) -> Heards<'a>
        ensures { KeepsHeards nothing_known result }
    {
        Heards {
            replies: Vec::new(alloc),
            before: 0,
        }
    }

    /// All replies that were heard.
    pub fn all(&self) -> &[Hearing<'a>]
        ensures { (k : Known) → KeepsHeards k self.now → result.now ≡ k.heard }
    {
        self.replies.as_slice()
    }

    /// The replies that were heard since the last call was asked.
    pub fn now(&self) -> &[Hearing<'a>]
        ensures { (k : Known) → KeepsHeards k self.now → result.now ≡ k.heard_now }
    {
        let place = self.before.min(self.replies.len());
        let (_, now) = self.replies.as_slice().split_at(place);
        now
    }

    /// Takes one more entry, and the reply that it brings. After a refusal nothing is known.
    pub fn learn(&mut self, event: &Event, heard: Option<Hearing<'a>>) -> Result<(), NoMemory>
        ensures { (k : Known) (top high : ℕ) → KeepsHeards k self.old → OnOk result (KeepsHeards (known_after event.now heard.entry top high k) self.new) }
    {
        if let Some(hearing) = heard {
            self.replies.push(hearing)?;
        }
        if let Event::Ask { .. } = event {
            self.before = self.replies.len();
        }
        Ok(())
    }
}
