ghost use Rattle.std.specs.Prelude.{◌≡◌, ◌==◌, [], Contains, OnOk, OnErr, length};
ghost use Rattle.std.specs.BTreeSet.{insert_key};
ghost use Rattle.pc_base.specs.declared.span.Span.{Span};
ghost use Rattle.pc_base.specs.SpanOrder.{span_cmp};

use crate::order::OrderedSpan;
use pc_base::{NoMemory, Span};
use std::alloc::Global;
use std::collections::BTreeSet;
use std::collections::btree_set::Iter;
use std::marker::Model;

/// The spans of what was read, in order, each once.
#[derive(Debug, Drop)]
pub struct Reads {
    spans: BTreeSet<OrderedSpan>,
}

impl Model for Reads {
    ghost use Rattle.std.specs.Prelude.{List};
    ghost use Rattle.pc_base.specs.declared.span.Span.{Span};

    ghost Value = { List Span };

    ghost view = { λ reads. reads.spans.keys };
}

impl Reads {
    /// Nothing was read.
    pub fn new(alloc: Global) -> Reads
        ensures { result ≡ [] }
    {
        Reads {
            spans: BTreeSet::new(alloc),
        }
    }

    /// This span was read. One that is there already is kept once.
    pub fn add(&mut self, span: Span) -> Result<(), NoMemory>
        ensures ok { OnOk result (self.new ≡ insert_key span_cmp self.old span) }
        ensures err { OnErr result (self.new ≡ self.old) }
        ensures covered { OnOk result (Contains self.new span) }
        ensures kept { (other : Span) → Contains self.old other → Contains self.new other }
    {
        self.spans.insert(OrderedSpan::new(span))?;
        Ok(())
    }

    /// Whether nothing was read.
    pub fn is_empty(&self) -> bool
        ensures { result ≡ (length self.now == 0) }
    {
        self.spans.len() == 0
    }

    /// The spans, in order.
    pub fn iter(&self) -> Iter<'_, OrderedSpan>
        ensures { result ≡ self.now }
    {
        self.spans.iter()
    }

    /// What was read is forgotten: a new epoch begins.
    pub fn clear(&mut self)
        ensures { self.new ≡ [] }
    {
        self.spans.clear();
    }
}
