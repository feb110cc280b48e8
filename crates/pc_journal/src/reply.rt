ghost use Rattle.std.specs.Prelude.{◌≡◌, ◌∷◌, ◌++◌, OnOk};
ghost use Rattle.pc_journal.specs.Fits.{FitsOrigin, FitsReply, FitsRow};
ghost use Rattle.pc_journal.specs.Reply.{origin_text, row_text, reply_text};

use crate::text::{Text, four, one, then, three, two};
use pc_base::{Key, NoMemory, Value};
use pc_proto::{Origin, Reply};

impl Text for Origin {
    ghost text = { origin_text };

    ghost spelled = { FitsOrigin };

    fn print(&self, out: &mut Vec<u8>) -> Result<(), NoMemory> {
        match self {
            Origin::Nothing => one(b"-", out),
            Origin::Own => one(b"own", out),
            Origin::At(ts) => ts.print(out),
        }
    }
}

impl Text for (Key, Origin, Value) {
    ghost text = { row_text };

    ghost spelled = { FitsRow };

    fn print(&self, out: &mut Vec<u8>) -> Result<(), NoMemory> {
        self.0.print(out)?;
        then(b'@', &self.1, out)?;
        self.2.print(out)
    }
}

impl Text for Reply {
    ghost text = { reply_text };

    ghost spelled = { FitsReply };

    fn print(&self, out: &mut Vec<u8>) -> Result<(), NoMemory> {
        match self {
            Reply::Value { origin, value } => three(b"value", origin, value, out),
            Reply::Rows(rows) => two(b"rows", rows, out),
            Reply::Conflict { holder, ts, key } => four(b"conflict", holder, ts, key, out),
            Reply::Written { ts } => two(b"written", ts, out),
            Reply::Refreshed => one(b"refreshed", out),
            Reply::Unrefreshed { key, ts } => three(b"unrefreshed", key, ts, out),
            Reply::Status(view) => two(b"status", view, out),
            Reply::Refused(view) => two(b"refused", view, out),
            Reply::Unsure(view) => two(b"unsure", view, out),
            Reply::Found => one(b"found", out),
            Reply::Missing => one(b"missing", out),
            Reply::Resolved => one(b"resolved", out),
            Reply::Removed => one(b"removed", out),
            Reply::Listed(metas) => two(b"listed", metas, out),
        }
    }
}
