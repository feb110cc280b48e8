ghost use Rattle.std.specs.Prelude.{◌≡◌, ◌==◌, ◌↔◌, ℕ, false, true, Some, IsTrue, Option, OnOk, length, slice_get};
ghost use Rattle.std.specs.List.{list_any};
ghost use Rattle.std.specs.Option.{option_copied, option_map};
ghost use Rattle.pc_known.specs.Sends.{MarksHeard, HasOneMoreSent, IsMarked, KeepsSends, SendsNext, is_number_now};
ghost use Rattle.pc_base.specs.declared.entry.Entry.{Entry};
ghost use Rattle.pc_proto.specs.declared.event.Event.{Event};
ghost use Rattle.pc_world.specs.Known.{Known, known_after, next_number, nothing_known};
ghost use Rattle.pc_world.specs.Known.Traffic.{heard_as, heard_by, reply_named, request_sent};
ghost use Rattle.pc_world.specs.Local.{MayHear};
ghost use Rattle.pc_world.specs.Tell.Data.{sent_before};

use crate::traffic::{Hearing, Message};
use pc_base::{Entry, NoMemory};
use pc_proto::{Event, Reply, Request};
use std::alloc::Global;

/// The messages that an actor sent, and which of them were heard.
#[derive(Drop)]
pub struct Sends<'a> {
    /// All messages, by number from 1.
    messages: Vec<Message<'a>>,
    /// How many were sent before the last call was asked.
    before: usize,
    /// Whether a reply was heard, by number from 1.
    heard: Vec<bool>,
}

impl<'a> Sends<'a> {
    /// An actor that has no entry yet.
    pub fn new(alloc: Global) -> Sends<'a>
        ensures { KeepsSends nothing_known result }
    {
        Sends {
            messages: Vec::new(alloc),
            before: 0,
            heard: Vec::new(alloc),
        }
    }

    /// Whether this is the number of the next message.
    pub fn is_next(&self, number: u64) -> bool
        ensures { (k : Known) → KeepsSends k self.now → IsTrue result ↔ (number ≡ next_number k) }
    {
        number == self.messages.len() as u64 + 1
    }

    /// All messages, in order.
    pub fn messages(&self) -> &[Message<'a>]
        ensures { (k : Known) → KeepsSends k self.now → result.now ≡ k.sent }
    {
        self.messages.as_slice()
    }

    /// The messages that were sent before the last call was asked, and those since.
    pub fn halves(&self) -> (&[Message<'a>], &[Message<'a>])
        ensures { (k : Known) → KeepsSends k self.now → (result.0.now ≡ sent_before k) × (result.1.now ≡ k.sent_now) }
    {
        let place = self.before.min(self.messages.len());
        self.messages.as_slice().split_at(place)
    }

    /// Whether the message of this number was sent since the last call was asked.
    pub fn was_sent_now(&self, number: u64) -> bool
        ensures now { result ≡ is_number_now self.now number }
        ensures known { (k : Known) → KeepsSends k self.now → result ≡ list_any (λ m. m.number == number) k.sent_now }
    {
        (self.before as u64) < number && number <= self.messages.as_slice().len() as u64
    }

    /// Whether a reply to the message of this number was heard.
    pub fn was_heard(&self, number: u64) -> bool
        ensures { (k : Known) → KeepsSends k self.now → result ≡ list_any (λ h. h.number == number) k.heard }
    {
        match number.checked_sub(1) {
            None => false,
            Some(place) => self.is_marked(place as usize),
        }
    }

    fn is_marked(&self, place: usize) -> bool
        ensures { IsTrue result ↔ (slice_get self.now.heard.items place ≡ Some true) }
    {
        matches!(self.heard.get(place), Some(true))
    }

    /// What the message of this number said.
    #[tactic(auto, using(crate::proofs::Numbered::request_at, crate::proofs::Numbered::no_request))]
    pub fn request(&self, number: u64) -> Option<&'a Request>
        ensures { (k : Known) → KeepsSends k self.now → option_copied result ≡ request_sent number k.sent }
    {
        match number.checked_sub(1) {
            None => None,
            Some(place) => self.at(place as usize),
        }
    }

    fn at(&self, place: usize) -> Option<&'a Request>
        ensures { option_copied result ≡ option_map (λ m. m.request) (slice_get self.now.messages.items place) }
    {
        match self.messages.get(place) {
            None => None,
            Some(message) => Some(message.request),
        }
    }

    /// Whether the message of this number may be heard.
    pub fn may_hear(&self, number: u64) -> bool
        ensures { (k : Known) → KeepsSends k self.now → IsTrue result ↔ MayHear k number }
    {
        match number.checked_sub(1) {
            None => false,
            Some(place) => self.is_unheard(place as usize),
        }
    }

    fn is_unheard(&self, place: usize) -> bool
        ensures { IsTrue result ↔ (slice_get self.now.heard.items place ≡ Some false) }
    {
        matches!(self.heard.get(place), Some(false))
    }

    /// The reply that the event brings, where it is a hearing.
    pub fn heard_by(&self, event: &Event, named: Option<&'a Entry<Event>>) -> Option<Hearing<'a>>
        ensures { (k : Known) → KeepsSends k self.now → result ≡ heard_by event.now (option_copied named.entry) k.sent }
    {
        match event {
            Event::Hear { number, step } => {
                heard_as(*number, *step, self.request(*number), reply_named(named))
            }
            _ => None,
        }
    }

    /// Takes one more entry, and the reply that it brings. After a refusal nothing is known.
    pub fn learn(&mut self, event: &'a Event, heard: Option<&Hearing<'a>>) -> Result<(), NoMemory>
        ensures { (k : Known) (named : Option (Entry Event)) (top high : ℕ) → KeepsSends k self.old → option_copied heard.entry ≡ heard_by event.now named k.sent → SendsNext (next_number k) event.now → OnOk result (KeepsSends (known_after event.now (heard_by event.now named k.sent) top high k) self.new) }
    {
        match event {
            Event::Ask { .. } => self.ask(),
            Event::Send {
                number,
                range,
                request,
            } => self.send(*number, *range, request)?,
            Event::Hear { .. } => self.hear(heard),
            _ => {}
        }
        Ok(())
    }

    fn ask(&mut self)
        ensures { self.new ≡ record self.old { before = length self.old.messages.items } }
    {
        self.before = self.messages.len();
    }

    fn send(&mut self, number: u64, range: u32, request: &'a Request) -> Result<(), NoMemory>
        ensures { OnOk result (HasOneMoreSent (record { number = number; range = range; request = request.now }) self.old self.new) }
    {
        self.messages.push(Message {
            number,
            range,
            request,
        })?;
        self.heard.push(false)?;
        Ok(())
    }

    fn hear(&mut self, heard: Option<&Hearing<'a>>)
        ensures { MarksHeard (option_copied heard.entry) self.old self.new }
    {
        match heard {
            None => {}
            Some(hearing) => self.mark(hearing.number),
        }
    }

    fn mark(&mut self, number: u64)
        ensures { IsMarked number self.old self.new }
    {
        if let Some(place) = number.checked_sub(1)
            && let Some(mark) = self.heard.get_mut(place as usize)
        {
            *mark = true;
        }
    }
}

fn reply_named<'a>(named: Option<&'a Entry<Event>>) -> Option<&'a Reply>
    ensures { option_copied result ≡ reply_named (option_copied named.entry) }
{
    match named {
        Some(entry) => match &entry.event {
            Event::Eval { reply, .. } => Some(reply),
            _ => None,
        },
        None => None,
    }
}

fn heard_as<'a>(
    number: u64,
    step: u64,
    request: Option<&'a Request>,
    reply: Option<&'a Reply>,
) -> Option<Hearing<'a>>
    ensures { result ≡ heard_as number step (option_copied request.entry) (option_copied reply.entry) }
{
    match (request, reply) {
        (Some(request), Some(reply)) => Some(Hearing {
            number,
            request,
            reply,
            step,
        }),
        _ => None,
    }
}
