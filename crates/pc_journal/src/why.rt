ghost use Rattle.std.specs.Prelude.{◌≡◌, ◌∷◌, ◌++◌, OnOk};
ghost use Rattle.pc_journal.specs.Fits.{FitsWhy};
ghost use Rattle.pc_journal.specs.Side.{◌⦂◌};
ghost use Rattle.pc_journal.specs.Why.{why_text};

use crate::text::{Text, one, then};
use pc_base::NoMemory;
use pc_proto::Why;

impl Text for Why {
    ghost text = { why_text };

    ghost spelled = { FitsWhy };

    fn print(&self, out: &mut Vec<u8>) -> Result<(), NoMemory> {
        match self {
            Why::Pushed { by } => naming(b"pushed", by, out),
            Why::Missing { key, by } => naming_both(b"missing", key, by, out),
            Why::Refresh { key, ts } => naming_both(b"refresh", key, ts, out),
            Why::Client => one(b"client", out),
        }
    }
}

fn naming<A: Text>(word: &[u8], a: &A, out: &mut Vec<u8>) -> Result<(), NoMemory>
    ensures text { OnOk result (out.new.items ≡ out.old.items ++ (word.now ⦂ A.text a.now)) }
    ensures spelled { OnOk result (A.spelled a.now) }
{
    one(word, out)?;
    then(b':', a, out)
}

fn naming_both<A: Text, B: Text>(
    word: &[u8],
    a: &A,
    b: &B,
    out: &mut Vec<u8>,
) -> Result<(), NoMemory>
    ensures text { OnOk result (out.new.items ≡ out.old.items ++ (word.now ⦂ A.text a.now ⦂ B.text b.now)) }
    ensures spelled { OnOk result (A.spelled a.now × B.spelled b.now) }
{
    naming(word, a, out)?;
    then(b':', b, out)
}
