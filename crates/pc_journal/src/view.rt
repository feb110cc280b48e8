ghost use Rattle.std.specs.Prelude.{◌≡◌, ◌∷◌, ◌++◌, OnOk};
ghost use Rattle.pc_journal.specs.Fits.{FitsFate, FitsFinding, FitsGoal, FitsView};
ghost use Rattle.pc_journal.specs.View.{view_text, goal_text, finding_text, fate_text};

use crate::text::{Text, four, one, three, two};
use pc_base::NoMemory;
use pc_proto::{Fate, Finding, Goal, View};

impl Text for View {
    ghost text = { view_text };

    ghost spelled = { FitsView };

    fn print(&self, out: &mut Vec<u8>) -> Result<(), NoMemory> {
        match self {
            View::Nothing => one(b"none", out),
            View::Pending { epoch, ts } => three(b"pending", epoch, ts, out),
            View::Staging { epoch, ts, writes } => four(b"staging", epoch, ts, writes, out),
            View::Committed { epoch, ts, locks } => four(b"committed", epoch, ts, locks, out),
            View::Aborted { epoch, why, locks } => four(b"aborted", epoch, why, locks, out),
        }
    }
}

impl Text for Goal {
    ghost text = { goal_text };

    ghost spelled = { FitsGoal };

    fn print(&self, out: &mut Vec<u8>) -> Result<(), NoMemory> {
        match self {
            Goal::Abort => one(b"abort", out),
            Goal::Move(ts) => two(b"move", ts, out),
        }
    }
}

impl Text for Finding {
    ghost text = { finding_text };

    ghost spelled = { FitsFinding };

    fn print(&self, out: &mut Vec<u8>) -> Result<(), NoMemory> {
        match self {
            Finding::All => one(b"found", out),
            Finding::Missing { key, by } => three(b"missing", key, by, out),
        }
    }
}

impl Text for Fate {
    ghost text = { fate_text };

    ghost spelled = { FitsFate };

    fn print(&self, out: &mut Vec<u8>) -> Result<(), NoMemory> {
        match self {
            Fate::Committed { epoch, ts } => three(b"committed", epoch, ts, out),
            Fate::Aborted => one(b"aborted", out),
            Fate::Pending { ts } => two(b"pending", ts, out),
        }
    }
}
