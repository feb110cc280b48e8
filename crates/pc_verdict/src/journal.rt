ghost use Rattle.std.specs.Prelude.{◌≡◌, Contains, IfErr, IfOk, Ok, Some};
ghost use Rattle.pc_read.specs.Items.{Malformed as malformed_line, head_items, text_lines};
ghost use Rattle.pc_read.specs.Left.{TakesNext};
ghost use Rattle.pc_read.specs.declared.lines.LineRef.TheVariants as line_refs;
ghost use Rattle.pc_verdict.specs.Reading.{AreOfHead, IsReadFrom, NamesMalformed};

use crate::body::Body;
use pc_base::NoMemory;
use pc_proto::Keys;
use pc_read::{HeadRef, LineRef, Lines, Malformed};
use std::alloc::Global;

/// A journal with the lines of its report, in memory.
#[derive(Debug, Drop)]
pub struct Journal<'a> {
    pub splits: Keys,
    pub sessions: u32,
    pub recoverers: u32,
    pub body: Body<'a>,
}

/// Why a text was not read whole.
#[derive(Clone, Copy, Debug, PartialEq, Eq)]
pub enum Unread {
    /// This line is the first that is outside the grammar, counted from 1.
    Malformed { line: u64 },
    NoMemory,
}

impl From<Malformed> for Unread {
    ghost use Rattle.std.specs.Prelude.{◌≡◌};
    ghost use Rattle.pc_verdict.specs.declared.journal.Unread.TheVariants as unreads;

    ghost from_gives = { λ fault unread. unread ≡ unreads.Malformed fault.line };

    fn from(fault: Malformed) -> Unread {
        Unread::Malformed { line: fault.line }
    }
}

impl From<NoMemory> for Unread {
    ghost use Rattle.std.specs.Prelude.{◌≡◌};
    ghost use Rattle.pc_verdict.specs.declared.journal.Unread.TheVariants as unreads;

    ghost from_gives = { λ _ unread. unread ≡ unreads.NoMemory };

    fn from(_fault: NoMemory) -> Unread {
        Unread::NoMemory
    }
}

impl<'a> Journal<'a> {
    /// The journal that the bytes spell, with its report, or the first line that is outside the grammar.
    pub fn read(alloc: Global, bytes: &'a [u8]) -> Result<Journal<'a>, Unread>
        ensures read { IfOk result (IsReadFrom bytes.now) }
        ensures unread { IfErr result (NamesMalformed (head_items (text_lines bytes.now))) }
    {
        let mut lines = Lines::new(bytes);
        let head = read_head(&mut lines)?;
        let splits = head.keys(alloc)?;
        match Body::read(alloc, &mut lines) {
            Ok(body) => Ok(Journal {
                splits,
                sessions: head.sessions,
                recoverers: head.recoverers,
                body,
            }),
            Err(unread) => Err(unread),
        }
    }
}

/// The head, which is the first of the lines.
fn read_head<'a>(lines: &mut Lines<'a>) -> Result<HeadRef<'a>, Malformed>
    requires { AreOfHead lines.old }
    ensures head { IfOk result (λ head. TakesNext (Some (Ok (line_refs.Head head))) lines.old lines.new) }
    ensures malformed { IfErr result (λ fault. Contains lines.old (malformed_line fault.line)) }
{
    match lines.next() {
        Some(Ok(line)) => match line {
            LineRef::Head(head) => Ok(head),
            _ => unreachable!(),
        },
        Some(Err(fault)) => Err(fault),
        None => unreachable!(),
    }
}
