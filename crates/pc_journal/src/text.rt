ghost use Rattle.std.specs.Prelude.{◌≡◌, ℕ, List, [], ◌∷◌, ◌++◌, OnOk, OnErr};
ghost use Rattle.pc_journal.specs.Side.{◌·◌};

use pc_base::NoMemory;

/// What has one spelling in a journal or a report.
pub trait Text {
    ghost text: { Self → List ℕ };

    /// What every value of the type has, so that its text is read again as it.
    ghost spelled: { Self → Type 0 };

    /// Appends the spelling. Where memory runs out, some of it may stand there: print into a line of your own, and
    /// append that to what is kept.
    fn print(&self, out: &mut Vec<u8>) -> Result<(), NoMemory>
        ensures text { OnOk result (out.new.items ≡ out.old.items ++ text self.now) }
        ensures spelled { OnOk result (spelled self.now) };
}

/// A word as it stands.
pub fn one(word: &[u8], out: &mut Vec<u8>) -> Result<(), NoMemory>
    ensures ok { OnOk result (out.new.items ≡ out.old.items ++ word.now) }
    ensures err { OnErr result (out.new.items ≡ out.old.items) }
{
    out.extend_from_slice(word)?;
    Ok(())
}

/// A byte, and what follows it.
pub fn then<A: Text>(byte: u8, part: &A, out: &mut Vec<u8>) -> Result<(), NoMemory>
    ensures text { OnOk result (out.new.items ≡ out.old.items ++ byte ∷ A.text part.now) }
    ensures spelled { OnOk result (A.spelled part.now) }
{
    out.push(byte)?;
    part.print(out)
}

/// A word and one part, a space between them.
pub fn two<A: Text>(word: &[u8], a: &A, out: &mut Vec<u8>) -> Result<(), NoMemory>
    ensures text { OnOk result (out.new.items ≡ out.old.items ++ (word.now · A.text a.now)) }
    ensures spelled { OnOk result (A.spelled a.now) }
{
    one(word, out)?;
    then(b' ', a, out)
}

pub fn three<A: Text, B: Text>(word: &[u8], a: &A, b: &B, out: &mut Vec<u8>) -> Result<(), NoMemory>
    ensures text { OnOk result (out.new.items ≡ out.old.items ++ (word.now · A.text a.now · B.text b.now)) }
    ensures spelled { OnOk result (A.spelled a.now × B.spelled b.now) }
{
    two(word, a, out)?;
    then(b' ', b, out)
}

pub fn four<A: Text, B: Text, C: Text>(
    word: &[u8],
    a: &A,
    b: &B,
    c: &C,
    out: &mut Vec<u8>,
) -> Result<(), NoMemory>
    ensures text { OnOk result (out.new.items ≡ out.old.items ++ (word.now · A.text a.now · B.text b.now · C.text c.now)) }
    ensures spelled { OnOk result (A.spelled a.now × (B.spelled b.now × C.spelled c.now)) }
{
    three(word, a, b, out)?;
    then(b' ', c, out)
}

pub fn five<A: Text, B: Text, C: Text, D: Text>(
    word: &[u8],
    a: &A,
    b: &B,
    c: &C,
    d: &D,
    out: &mut Vec<u8>,
) -> Result<(), NoMemory>
    ensures text { OnOk result (out.new.items ≡ out.old.items ++ (word.now · A.text a.now · B.text b.now · C.text c.now · D.text d.now)) }
    ensures spelled { OnOk result (A.spelled a.now × (B.spelled b.now × (C.spelled c.now × D.spelled d.now))) }
{
    four(word, a, b, c, out)?;
    then(b' ', d, out)
}

pub fn six<A: Text, B: Text, C: Text, D: Text, E: Text>(
    word: &[u8],
    a: &A,
    b: &B,
    c: &C,
    d: &D,
    e: &E,
    out: &mut Vec<u8>,
) -> Result<(), NoMemory>
    ensures text { OnOk result (out.new.items ≡ out.old.items ++ (word.now · A.text a.now · B.text b.now · C.text c.now · D.text d.now · E.text e.now)) }
    ensures spelled { OnOk result (A.spelled a.now × (B.spelled b.now × (C.spelled c.now × (D.spelled d.now × E.spelled e.now)))) }
{
    five(word, a, b, c, d, out)?;
    then(b' ', e, out)
}
