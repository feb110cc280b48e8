ghost use Rattle.std.specs.Prelude.{◌≡◌};
ghost use Rattle.std.specs.Option.{option_copied, option_to_list};
ghost use Rattle.pc_base.specs.Span.{contains, is_before, is_from};
ghost use Rattle.pc_known.specs.Parts.{part_span};
ghost use Rattle.pc_world.specs.Known.Reads.{ends_after, holds_span, read_heard, starts_by};

use pc_base::{Key, Span, Timestamp};
use pc_known::{Hearing, Part};
use pc_proto::{Reply, Request};
use std::marker::Model;

/// A read whose value or rows were told: its span, and the timestamp at which it was made.
#[derive(Drop)]
pub struct OwnRead<'a> {
    pub span: Part<'a>,
    pub ts: Timestamp,
}

impl<'a> Model for OwnRead<'a> {
    ghost use Rattle.pc_known.specs.Parts.{part_span};
    ghost use Rattle.pc_world.specs.Known.Reads.{Read};

    ghost Value = { Read };

    ghost view = { λ r. record { span = part_span r.span; ts = r.ts } };
}

/// What a reply read, if it is to a get or to a piece of a scan.
pub(crate) fn read_in<'a>(hearing: &Hearing<'a>) -> Option<OwnRead<'a>>
    ensures { option_to_list result ≡ read_heard hearing.now.request hearing.now.reply }
{
    match (hearing.request, hearing.reply) {
        (Request::Get { ts, key, .. }, Reply::Value { .. }) => Some(OwnRead {
            span: Part::One(key),
            ts: *ts,
        }),
        (Request::Scan { ts, span, .. }, Reply::Rows(_)) => Some(OwnRead {
            span: part_of(span),
            ts: *ts,
        }),
        _ => None,
    }
}

/// The span by the keys at its ends.
pub fn part_of(span: &Span) -> Part<'_>
    ensures { part_span result ≡ span.now }
{
    match span {
        Span::One(key) => Part::One(key),
        Span::Between { from, to } => Part::Between {
            from: from.as_ref(),
            to: to.as_ref(),
        },
    }
}

/// Whether the first span holds the second, by their ends.
pub fn holds(wider: Part<'_>, span: Part<'_>) -> bool
    ensures { result ≡ holds_span (part_span wider.entry) (part_span span.entry) }
{
    match (wider, span) {
        (Part::One(one), Part::One(other)) => one == other,
        (Part::One(_), Part::Between { .. }) => false,
        (Part::Between { from, to }, Part::One(key)) => is_from(from, key) && is_before(to, key),
        (
            Part::Between { from, to },
            Part::Between {
                from: first,
                to: end,
            },
        ) => { starts_by(from, first) && ends_after(to, end) }
    }
}

fn is_from(from: Option<&Key>, key: &Key) -> bool
    ensures { result ≡ is_from (option_copied from.entry) key.now }
{
    match from {
        None => true,
        Some(first) => !(key < first),
    }
}

fn is_before(to: Option<&Key>, key: &Key) -> bool
    ensures { result ≡ is_before (option_copied to.entry) key.now }
{
    match to {
        None => true,
        Some(end) => key < end,
    }
}

/// Whether the first start is not behind the second.
fn starts_by(one: Option<&Key>, other: Option<&Key>) -> bool
    ensures { result ≡ starts_by (option_copied one.entry) (option_copied other.entry) }
{
    match (one, other) {
        (None, _) => true,
        (Some(_), None) => false,
        (Some(one), Some(other)) => one <= other,
    }
}

/// Whether the first end is not before the second.
fn ends_after(one: Option<&Key>, other: Option<&Key>) -> bool
    ensures { result ≡ ends_after (option_copied one.entry) (option_copied other.entry) }
{
    match (one, other) {
        (None, _) => true,
        (Some(_), None) => false,
        (Some(one), Some(other)) => other <= one,
    }
}

/// Whether the span has the key.
pub fn contains(span: Part<'_>, key: &Key) -> bool
    ensures { result ≡ contains (part_span span.entry) key.now }
{
    match span {
        Part::One(one) => key == one,
        Part::Between { from, to } => is_from(from, key) && is_before(to, key),
    }
}
