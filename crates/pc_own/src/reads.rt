ghost use Rattle.std.specs.Prelude.{◌≡◌, ◌↔◌, ◌++◌, ◌∷◌, [], Any, IsTrue, OnErr, OnOk};
ghost use Rattle.pc_known.specs.Sends.{KeepsSends};
ghost use Rattle.pc_own.specs.ReadSpans.{AreReadSpans};
ghost use Rattle.pc_world.specs.Known.{Known};
ghost use Rattle.pc_world.specs.Known.Reads.{reads_heard};
ghost use Rattle.pc_world.specs.Known.Traffic.{replies_to};

use crate::read::{OwnRead, part_of, read_in};
use crate::spans::OrderedPart;
use pc_base::{NoMemory, Span};
use pc_known::{Hearing, Sends};
use std::alloc::Global;
use std::collections::BTreeSet;
use std::marker::Model;

/// The reads of a transaction's present epoch.
#[derive(Drop)]
pub struct Reads<'a> {
    reads: Vec<OwnRead<'a>>,
    /// Their spans, each once.
    spans: BTreeSet<OrderedPart<'a>>,
}

impl<'a> Model for Reads<'a> {
    ghost use Rattle.std.specs.Prelude.{List};
    ghost use Rattle.pc_own.specs.ReadSpans.{AreReadSpans};
    ghost use Rattle.pc_world.specs.Known.Reads.{Read};

    ghost Value = { List Read };

    ghost view = { λ rs. rs.reads.items };

    ghost invariant = { λ rs. AreReadSpans rs.reads.items rs.spans };
}

impl<'a> Reads<'a> {
    /// Nothing was read.
    pub(crate) fn new(alloc: Global) -> Reads<'a>
        ensures { result ≡ [] }
    {
        Reads {
            reads: Vec::new(alloc),
            spans: BTreeSet::new(alloc),
        }
    }

    pub fn as_slice(&self) -> &[OwnRead<'a>]
        ensures { result.now ≡ self.now }
    {
        self.reads.as_slice()
    }

    pub(crate) fn clear(&mut self)
        ensures { self.new ≡ [] }
    {
        self.reads.clear();
        self.spans.clear();
    }

    /// Whether the span is that of a read.
    pub fn has(&self, span: &'a Span) -> bool
        ensures { IsTrue result ↔ Any (λ r. r.span ≡ span.now) self.now }
    {
        self.spans.contains(&OrderedPart {
            part: part_of(span),
        })
    }

    /// What these replies read, where they are to messages of the open call, was told.
    pub(crate) fn tell(&mut self, sends: &Sends<'a>, heard: &[Hearing<'a>]) -> Result<(), NoMemory>
        ensures { (k : Known) → KeepsSends k sends.now → OnOk result (self.new ≡ self.old ++ reads_heard (replies_to k.sent_now heard.now)) }
    {
        add_reads(&mut self.reads, &mut self.spans, sends, heard)
    }
}

fn add_reads<'a>(
    reads: &mut Vec<OwnRead<'a>>,
    spans: &mut BTreeSet<OrderedPart<'a>>,
    sends: &Sends<'a>,
    heard: &[Hearing<'a>],
) -> Result<(), NoMemory>
    ensures told { (k : Known) → KeepsSends k sends.now → OnOk result (reads.new.items ≡ reads.old.items ++ reads_heard (replies_to k.sent_now heard.now)) }
    ensures spans { AreReadSpans reads.old.items spans.old → AreReadSpans reads.new.items spans.new }
{
    for hearing in heard {
        tell_one(reads, spans, sends, hearing)?;
    }
    Ok(())
}

/// What this reply read, where it is to a message of the open call, was told.
fn tell_one<'a>(
    reads: &mut Vec<OwnRead<'a>>,
    spans: &mut BTreeSet<OrderedPart<'a>>,
    sends: &Sends<'a>,
    hearing: &Hearing<'a>,
) -> Result<(), NoMemory>
    ensures told { (k : Known) → KeepsSends k sends.now → OnOk result (reads.new.items ≡ reads.old.items ++ reads_heard (replies_to k.sent_now (hearing.now ∷ []))) }
    ensures spans { AreReadSpans reads.old.items spans.old → AreReadSpans reads.new.items spans.new }
{
    if sends.was_sent_now(hearing.number) {
        add_heard(reads, spans, hearing)
    } else {
        Ok(())
    }
}

fn add_heard<'a>(
    reads: &mut Vec<OwnRead<'a>>,
    spans: &mut BTreeSet<OrderedPart<'a>>,
    hearing: &Hearing<'a>,
) -> Result<(), NoMemory>
    ensures told { OnOk result (reads.new.items ≡ reads.old.items ++ reads_heard (hearing.now ∷ [])) }
    ensures spans { AreReadSpans reads.old.items spans.old → AreReadSpans reads.new.items spans.new }
{
    match read_in(hearing) {
        Some(read) => add_read(reads, spans, read),
        None => Ok(()),
    }
}

/// Adds a read and its span. After a refusal neither is there.
fn add_read<'a>(
    reads: &mut Vec<OwnRead<'a>>,
    spans: &mut BTreeSet<OrderedPart<'a>>,
    read: OwnRead<'a>,
) -> Result<(), NoMemory>
    ensures told { OnOk result (reads.new.items ≡ reads.old.items ++ read.entry ∷ []) }
    ensures err { OnErr result (reads.new.items ≡ reads.old.items) }
    ensures spans { AreReadSpans reads.old.items spans.old → AreReadSpans reads.new.items spans.new }
{
    reads.reserve(1)?;
    spans.insert(OrderedPart { part: read.span })?;
    reads.push(read)?;
    Ok(())
}
