ghost use Rattle.std.specs.Prelude.{◌≡◌, ◌∷◌, ◌++◌, All, OnOk};
ghost use Rattle.std.specs.List.{flat_map};
ghost use Rattle.pc_journal.specs.Lists.{listed};

use crate::text::{Text, one, then};
use pc_base::{Items, NoMemory};

impl<T: Text> Text for Items<T> {
    ghost text = { listed T.text };

    ghost spelled = { All T.spelled };

    fn print(&self, out: &mut Vec<u8>) -> Result<(), NoMemory> {
        match self.as_slice().split_first() {
            None => one(b"-", out),
            Some((first, rest)) => {
                first.print(out)?;
                each_behind(b',', rest, out)
            }
        }
    }
}

/// The items, the byte before each.
pub fn each_behind<T: Text>(byte: u8, items: &[T], out: &mut Vec<u8>) -> Result<(), NoMemory>
    ensures text { OnOk result (out.new.items ≡ out.old.items ++ flat_map (λ item. byte ∷ T.text item) items.now) }
    ensures spelled { OnOk result (All T.spelled items.now) }
{
    for item in items {
        then(byte, item, out)?;
    }
    Ok(())
}
