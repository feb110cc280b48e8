ghost use Rattle.std.specs.Prelude.{◌≡◌, ◌∷◌, ◌++◌, OnOk};
ghost use Rattle.pc_journal.specs.Fits.{FitsActor, FitsId, FitsPriority, FitsWho};
ghost use Rattle.pc_journal.specs.Names.{id_text, actor_text, who_text, priority_text};

use crate::text::{Text, one, then};
use pc_base::{ActorId, NoMemory, Priority, TxnId, Who};

impl Text for TxnId {
    ghost text = { id_text };

    ghost spelled = { FitsId };

    fn print(&self, out: &mut Vec<u8>) -> Result<(), NoMemory> {
        self.session.print(out)?;
        then(b'.', &self.number, out)
    }
}

impl Text for ActorId {
    ghost text = { actor_text };

    ghost spelled = { FitsActor };

    fn print(&self, out: &mut Vec<u8>) -> Result<(), NoMemory> {
        match self {
            ActorId::Range(number) => then(b'r', number, out),
            ActorId::Session(number) => then(b's', number, out),
            ActorId::Recoverer(number) => then(b'v', number, out),
        }
    }
}

impl Text for Who {
    ghost text = { who_text };

    ghost spelled = { FitsWho };

    fn print(&self, out: &mut Vec<u8>) -> Result<(), NoMemory> {
        match self {
            Who::Txn(id) => id.print(out),
            Who::Recoverer(number) => then(b'v', number, out),
        }
    }
}

impl Text for Priority {
    ghost text = { priority_text };

    ghost spelled = { FitsPriority };

    fn print(&self, out: &mut Vec<u8>) -> Result<(), NoMemory> {
        match self {
            Priority::Low => one(b"low", out),
            Priority::Normal => one(b"normal", out),
            Priority::High => one(b"high", out),
        }
    }
}
