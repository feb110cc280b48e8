ghost use Rattle.std.specs.Prelude.{◌≡◌, ◌++◌, ◌∷◌, [], OnOk, find, slice_get};
ghost use Rattle.std.specs.Option.{option_copied};
ghost use Rattle.pc_sent.specs.Sending.{AreSendsOf, sends_message};
ghost use Rattle.pc_sent.specs.Naming.{message_name};

use pc_base::{ActorId, Entry, NoMemory};
use pc_proto::Event;
use std::alloc::Global;
use std::collections::HashMap;

/// A message by who sent it, a kind of actor and its number, and by its own number.
#[derive(Clone, Copy, Debug, PartialEq, Eq, Hash)]
pub(crate) struct MessageName {
    pub kind: u8,
    pub actor: u32,
    pub number: u64,
}

/// The place of the entry that sent each message of a history.
#[derive(Drop)]
pub struct Sent {
    places: HashMap<MessageName, usize>,
}

impl Sent {
    /// A history without entries.
    pub fn new(alloc: Global) -> Sent
        ensures { AreSendsOf [] result }
    {
        Sent {
            places: HashMap::new(alloc),
        }
    }

    /// The entry of the history that sent the actor's message of this number.
    pub fn entry<'a>(
        &self,
        history: &'a [Entry<Event>],
        actor: ActorId,
        number: u64,
    ) -> Option<&'a Entry<Event>>
        ensures { AreSendsOf history.now self.now → option_copied result ≡ find (sends_message actor number) history.now }
    {
        let place = *self.places.get(&message_name(actor, number))?;
        at(history, place)
    }

    /// Takes the entry that comes next after those before it.
    pub fn add(&mut self, before: &[Entry<Event>], entry: &Entry<Event>) -> Result<(), NoMemory>
        ensures { AreSendsOf before.now self.old → OnOk result (AreSendsOf (before.now ++ entry.now ∷ []) self.new) }
    {
        if let Event::Send { number, .. } = &entry.event {
            let name = message_name(entry.actor, *number);
            self.places.entry(name)?.or_insert(before.len());
        }
        Ok(())
    }
}

/// The entry at this place.
fn at(history: &[Entry<Event>], place: usize) -> Option<&Entry<Event>>
    ensures { option_copied result ≡ slice_get history.now place }
{
    history.get(place)
}

fn message_name(actor: ActorId, number: u64) -> MessageName
    ensures { result ≡ message_name actor number }
{
    let (kind, actor) = match actor {
        ActorId::Range(range) => (0, range),
        ActorId::Session(session) => (1, session),
        ActorId::Recoverer(recoverer) => (2, recoverer),
    };
    MessageName {
        kind,
        actor,
        number,
    }
}
