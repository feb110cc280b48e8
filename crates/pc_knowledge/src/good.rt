//! How far a read is good, by all the replies to requests of its transaction that its session heard.

ghost use Rattle.std.specs.Prelude.{◌≡◌, ◌↔◌, ◌≤◌, ◌<◌, ℕ, IsTrue};
ghost use Rattle.pc_known.specs.Parts.{part_span};
ghost use Rattle.pc_knowledge.specs.Good.{IsGoodJustTo, good_after_all, good_from, taken_further};
ghost use Rattle.pc_world.specs.Known.Reads.{IsGoodTo};

use pc_base::{Timestamp, TxnId};
use pc_known::{Hearing, Part};
use pc_own::{OwnRead, holds, part_of};
use pc_proto::{Reply, Request};

/// From where to where the reply takes a read of the span, if it is that of a refresh of a span that holds it.
fn taken_further(id: TxnId, span: Part<'_>, hearing: &Hearing<'_>) -> Option<(Timestamp, Timestamp)>
    ensures { result ≡ taken_further id (part_span span.entry) hearing.now.request hearing.now.reply }
{
    match (hearing.request, hearing.reply) {
        (
            Request::Refresh {
                id: other,
                from,
                to,
                span: wider,
            },
            Reply::Refreshed,
        ) => {
            if *other == id && holds(part_of(wider), span) {
                Some((*from, *to))
            } else {
                None
            }
        }
        _ => None,
    }
}

/// How far a read is good that was good so far, and is taken further from where it is good already.
fn good_from(way: Option<(Timestamp, Timestamp)>, good: Timestamp) -> Timestamp
    ensures { result ≡ good_from way good }
{
    match way {
        None => good,
        Some((from, to)) => { if from <= good { good.max(to) } else { good } }
    }
}

/// How far it is good after all replies in turn.
fn good_after_all(id: TxnId, span: Part<'_>, heard: &[Hearing<'_>], good: Timestamp) -> Timestamp
    ensures { result ≡ good_after_all id (part_span span.entry) heard.now good }
{
    let mut last = good;
    for hearing in heard {
        let way = taken_further(id, span, hearing);
        last = good_from(way, last);
    }
    last
}

fn is_below(one: Timestamp, other: Timestamp) -> bool
    ensures { IsTrue result ↔ (one < other) }
{
    one < other
}

pub(crate) fn is_by(one: Timestamp, other: Timestamp) -> bool
    ensures { IsTrue result ↔ (one ≤ other) }
{
    one <= other
}

/// How far a read of the span that was made at this timestamp is good. Refreshes count in whichever order they were heard.
pub fn good_to(id: TxnId, heard: &[Hearing<'_>], span: Part<'_>, ts: Timestamp) -> Timestamp
    ensures { IsGoodJustTo id heard.now (part_span span.entry) ts result }
{
    let mut good = ts;
    let mut next = good_after_all(id, span, heard, good);
    'further: while is_below(good, next) {
        good = next;
        next = good_after_all(id, span, heard, good);
    }
    good
}

/// Whether the read is good at this timestamp, or at a later one.
pub(crate) fn is_good_up_to(
    id: TxnId,
    heard: &[Hearing<'_>],
    read: &OwnRead<'_>,
    ts: Timestamp,
) -> bool
    ensures { IsTrue result ↔ ((good : ℕ) × IsGoodTo id heard.now read.now.span read.now.ts good × (ts ≤ good)) }
{
    is_by(ts, read.ts) || is_by(ts, good_to(id, heard, read.span, read.ts))
}
