ghost use Rattle.std.specs.Prelude.{◌≡◌, ◌∷◌, ◌++◌, IfSome, OnOk};
ghost use Rattle.pc_base.specs.Key.{IsKey};
ghost use Rattle.pc_base.specs.Value.{IsValue};
ghost use Rattle.pc_journal.specs.Optional.{or_dash, key_text, value_text};

use crate::text::{Text, one};
use pc_base::{Key, NoMemory, Value};

impl Text for Key {
    ghost text = { key_text };

    ghost spelled = { IsKey };

    fn print(&self, out: &mut Vec<u8>) -> Result<(), NoMemory> {
        one(self.as_bytes(), out)
    }
}

impl Text for Value {
    ghost text = { value_text };

    ghost spelled = { IsValue };

    fn print(&self, out: &mut Vec<u8>) -> Result<(), NoMemory> {
        out.push(b'=')?;
        one(self.as_bytes(), out)
    }
}

impl<T: Text> Text for Option<T> {
    ghost text = { or_dash T.text };

    ghost spelled = { λ held. IfSome held T.spelled };

    fn print(&self, out: &mut Vec<u8>) -> Result<(), NoMemory> {
        match self {
            Some(here) => here.print(out),
            None => one(b"-", out),
        }
    }
}
