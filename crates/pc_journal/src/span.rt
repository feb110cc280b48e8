ghost use Rattle.std.specs.Prelude.{◌≡◌, ◌∷◌, ◌++◌, OnOk};
ghost use Rattle.pc_journal.specs.Fits.{FitsSpan};
ghost use Rattle.pc_journal.specs.Span.{span_text};

use crate::text::{Text, then};
use pc_base::{NoMemory, Span};

impl Text for Span {
    ghost text = { span_text };

    ghost spelled = { FitsSpan };

    fn print(&self, out: &mut Vec<u8>) -> Result<(), NoMemory> {
        match self {
            Span::One(key) => key.print(out),
            Span::Between { from, to } => {
                from.print(out)?;
                then(b',', to, out)
            }
        }
    }
}
