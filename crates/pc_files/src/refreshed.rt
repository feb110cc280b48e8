ghost use Rattle.std.specs.Prelude.{◌≡◌, [], List, OnOk, Some};
ghost use Rattle.std.specs.Option.{option_copied};
ghost use Rattle.pc_known.specs.Parts.{part_span};
ghost use Rattle.pc_files.specs.RefreshedSpans.{AreRefreshedSpans, LeadsFurther, TakesFurther, is_refreshed, leads_from, way_further};
ghost use Rattle.pc_world.specs.Known.Traffic.{Heard, heard_after};

use pc_base::{NoMemory, Span, Timestamp, TxnId};
use pc_known::{Hearing, Part};
use pc_own::{OrderedPart, part_of};
use pc_proto::{Reply, Request};
use std::alloc::Global;
use std::collections::BTreeMap;

/// From where to where refreshes of one span lead, each beginning where those before it have come, by transaction and span.
#[derive(Drop)]
pub(crate) struct RefreshedSpans<'a> {
    ways: BTreeMap<(TxnId, OrderedPart<'a>), (Timestamp, Timestamp)>,
}

impl<'a> RefreshedSpans<'a> {
    /// None was refreshed.
    pub(crate) fn new(alloc: Global) -> RefreshedSpans<'a>
        ensures { AreRefreshedSpans [] result }
    {
        RefreshedSpans {
            ways: BTreeMap::new(alloc),
        }
    }

    /// Whether a read of the span that was made at `ts` is good up to `to`, by refreshes of that very span.
    pub(crate) fn lead(&self, id: TxnId, span: Part<'a>, ts: Timestamp, to: Timestamp) -> bool
        ensures { (heard : List Heard) → AreRefreshedSpans heard self.now → result ≡ is_refreshed id (part_span span.entry) ts to heard }
    {
        match self.ways.get(&(id, OrderedPart { part: span })).copied() {
            Some(way) => leads(way, ts, to),
            None => false,
        }
    }

    /// Takes one more reply, if one was heard. After a refusal nothing is known.
    pub(crate) fn learn(&mut self, heard: Option<&Hearing<'a>>) -> Result<(), NoMemory>
        ensures { (all : List Heard) → AreRefreshedSpans all self.old → OnOk result (AreRefreshedSpans (heard_after (option_copied heard.entry) all) self.new) }
    {
        match heard {
            None => Ok(()),
            Some(hearing) => self.hear(hearing),
        }
    }

    fn hear(&mut self, hearing: &Hearing<'a>) -> Result<(), NoMemory>
        ensures { OnOk result (LeadsFurther hearing.now self.old self.new) }
    {
        match (hearing.request, hearing.reply) {
            (Request::Refresh { id, from, to, span }, Reply::Refreshed) => {
                self.take_further(*id, span, *from, *to)
            }
            _ => Ok(()),
        }
    }

    /// The span was refreshed from here to there.
    fn take_further(
        &mut self,
        id: TxnId,
        span: &'a Span,
        from: Timestamp,
        to: Timestamp,
    ) -> Result<(), NoMemory>
        ensures { OnOk result (TakesFurther id span.now from to self.old self.new) }
    {
        let place = (
            id,
            OrderedPart {
                part: part_of(span),
            },
        );
        let way = way_further(self.ways.get(&place).copied(), from, to);
        self.ways.insert(place, way)?;
        Ok(())
    }
}

/// Whether the way begins where a read was made or before, and leads as far as this.
fn leads(way: (Timestamp, Timestamp), ts: Timestamp, to: Timestamp) -> bool
    ensures { result ≡ leads_from ts to (Some way) }
{
    way.0 <= ts && to <= way.1
}

/// The way of a span after one more refresh: that goes on from where it has come, or else begins anew.
fn way_further(
    way: Option<(Timestamp, Timestamp)>,
    from: Timestamp,
    to: Timestamp,
) -> (Timestamp, Timestamp)
    ensures { result ≡ way_further way from to }
{
    match way {
        None => (from, from.max(to)),
        Some((start, good)) => {
            if from <= good {
                (start, good.max(to))
            } else {
                (from, from.max(to))
            }
        }
    }
}
