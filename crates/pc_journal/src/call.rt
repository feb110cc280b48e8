ghost use Rattle.std.specs.Prelude.{◌≡◌, ◌∷◌, ◌++◌, OnOk};
ghost use Rattle.pc_journal.specs.Fits.{FitsCall};
ghost use Rattle.pc_journal.specs.Call.{call_text};

use crate::text::{Text, one, three, two};
use pc_base::NoMemory;
use pc_proto::Call;

impl Text for Call {
    ghost text = { call_text };

    ghost spelled = { FitsCall };

    fn print(&self, out: &mut Vec<u8>) -> Result<(), NoMemory> {
        match self {
            Call::Begin(priority) => two(b"begin", priority, out),
            Call::Get(key) => two(b"get", key, out),
            Call::Scan(span) => two(b"scan", span, out),
            Call::Put(key, value) => three(b"put", key, value, out),
            Call::Delete(key) => two(b"delete", key, out),
            Call::Commit => one(b"commit", out),
            Call::Rollback => one(b"rollback", out),
            Call::Learn(id) => two(b"learn", id, out),
            Call::Round => one(b"round", out),
        }
    }
}
