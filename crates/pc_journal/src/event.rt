ghost use Rattle.std.specs.Prelude.{◌≡◌, ◌∷◌, ◌++◌, OnOk};
ghost use Rattle.pc_journal.specs.Fits.{FitsEntry, FitsEvent};
ghost use Rattle.pc_journal.specs.ToldRows.{TellsBare};
ghost use Rattle.pc_journal.specs.Event.{event_text, entry_text};

use crate::number::Reading;
use crate::text::{Text, four, then, three, two};
use pc_base::{ActorId, Entry, NoMemory};
use pc_proto::Event;

impl Text for Event {
    ghost text = { event_text };

    ghost spelled = { λ event. TellsBare event → FitsEvent event };

    fn print(&self, out: &mut Vec<u8>) -> Result<(), NoMemory> {
        match self {
            Event::Ask { call, reading } => three(b"ask", call, &Reading(*reading), out),
            Event::Send {
                number,
                range,
                request,
            } => four(b"send", number, &ActorId::Range(*range), request, out),
            Event::Eval {
                actor,
                number,
                reply,
            } => four(b"eval", actor, number, reply, out),
            Event::Hear { number, step } => three(b"hear", number, step, out),
            Event::Tell(answer) => two(b"tell", answer, out),
            Event::Meet { id, step } => three(b"meet", id, step, out),
        }
    }
}

impl Text for Entry<Event> {
    ghost text = { entry_text };

    ghost spelled = { λ entry. TellsBare entry.event → FitsEntry entry };

    fn print(&self, out: &mut Vec<u8>) -> Result<(), NoMemory> {
        self.step.print(out)?;
        then(b' ', &self.actor, out)?;
        then(b' ', &self.event, out)
    }
}
