ghost use Rattle.std.specs.Prelude.{◌≡◌};
ghost use Rattle.std.proofs.Common.{rules};
ghost use Rattle.std.specs.Cmp.{partial_order_from_own_ties, partial_order_from_total};
ghost use Rattle.std.specs.Cmp.Rules.{comparing};
ghost use Rattle.std.specs.Cmp.Lexicographic.{slice_cmp};
ghost use Rattle.std.specs.Option.{option_cmp, option_copied};
ghost use Rattle.std.specs.Ordering.{as_partial_cmp, eq_by_cmp, nat_cmp};
ghost use Rattle.pc_base.specs.SpanOrder.{end_cmp, rest_cmp, span_cmp, start_of};
ghost use Rattle.pc_refresh.specs.SpanTotal.{span_total};

use pc_base::{Key, Span};
use std::cmp::Ordering;
use std::marker::Model;

/// A span in the order of spans: by its start, an open one first; then one key before the keys from it on; then by its end, an open one
/// last.
#[derive(Debug, Drop)]
pub struct OrderedSpan {
    span: Span,
}

impl Model for OrderedSpan {
    ghost use Rattle.pc_base.specs.declared.span.Span.{Span};

    ghost Value = { Span };

    ghost view = { λ s. s.span };
}

impl OrderedSpan {
    pub(crate) fn new(span: Span) -> OrderedSpan
        ensures { result ≡ span }
    {
        OrderedSpan { span }
    }

    pub fn span(&self) -> &Span
        ensures { result.now ≡ self.now }
    {
        &self.span
    }
}

impl PartialEq for OrderedSpan {
    ghost eq = { eq_by_cmp span_cmp };

    ghost laws = { Prim.search (comparing, span_total, rules) };

    fn eq(&self, other: &OrderedSpan) -> bool {
        self.cmp(other).is_eq()
    }
}

impl Eq for OrderedSpan {
    ghost laws = { Prim.search (comparing, span_total, rules) };
}

impl PartialOrd for OrderedSpan {
    ghost partial_cmp = { as_partial_cmp span_cmp };

    ghost laws = { partial_order_from_own_ties (partial_order_from_total span_total) (Prim.search (comparing, rules)) };

    fn partial_cmp(&self, other: &OrderedSpan) -> Option<Ordering> {
        Some(self.cmp(other))
    }
}

impl Ord for OrderedSpan {
    ghost cmp = { span_cmp };

    ghost total = { span_total };

    ghost matches_partial_cmp = { Prim.search (comparing, rules) };

    ghost matches_eq = { Prim.search (comparing, rules) };

    fn cmp(&self, other: &OrderedSpan) -> Ordering {
        span_order(&self.span, &other.span)
    }
}

fn span_order(one: &Span, other: &Span) -> Ordering
    ensures { result ≡ span_cmp one.now other.now }
{
    match start_order(one, other) {
        Ordering::Equal => rest_order(one, other),
        order => order,
    }
}

fn start_order(one: &Span, other: &Span) -> Ordering
    ensures { result ≡ option_cmp (slice_cmp nat_cmp) (start_of one.now) (start_of other.now) }
{
    match (start_of(one), start_of(other)) {
        (None, None) => Ordering::Equal,
        (None, Some(_)) => Ordering::Less,
        (Some(_), None) => Ordering::Greater,
        (Some(key), Some(other)) => key.cmp(other),
    }
}

fn start_of(span: &Span) -> Option<&Key>
    ensures { option_copied result ≡ start_of span.now }
{
    match span {
        Span::One(key) => Some(key),
        Span::Between { from, .. } => from.as_ref(),
    }
}

fn rest_order(one: &Span, other: &Span) -> Ordering
    ensures { result ≡ rest_cmp one.now other.now }
{
    match (one, other) {
        (Span::One(_), Span::One(_)) => Ordering::Equal,
        (Span::One(_), Span::Between { .. }) => Ordering::Less,
        (Span::Between { .. }, Span::One(_)) => Ordering::Greater,
        (Span::Between { to, .. }, Span::Between { to: end, .. }) => end_order(to, end),
    }
}

fn end_order(one: &Option<Key>, other: &Option<Key>) -> Ordering
    ensures { result ≡ end_cmp one.now other.now }
{
    match (one, other) {
        (None, None) => Ordering::Equal,
        (None, Some(_)) => Ordering::Greater,
        (Some(_), None) => Ordering::Less,
        (Some(end), Some(other)) => end.cmp(other),
    }
}
