ghost use Rattle.std.specs.Prelude.{◌≡◌, [], IsTrue, List, OnOk};
ghost use Rattle.std.proofs.Common.{rules};
ghost use Rattle.std.specs.Cmp.{partial_order_from_own_ties, partial_order_from_total};
ghost use Rattle.std.specs.Cmp.Rules.{comparing};
ghost use Rattle.std.specs.Cmp.Lexicographic.{slice_cmp};
ghost use Rattle.std.specs.Option.{option_cmp, option_copied};
ghost use Rattle.std.specs.Ordering.{as_partial_cmp, eq_by_cmp, nat_cmp};
ghost use Rattle.pc_base.specs.SpanOrder.{end_cmp, rest_cmp, span_cmp, start_of};
ghost use Rattle.pc_known.specs.Parts.{part_span};
ghost use Rattle.pc_refresh.specs.SpanTotal.{span_total};

use pc_base::Key;
use pc_known::Part;
use std::cmp::Ordering;
use std::marker::Model;

/// A span by the keys at its ends, in the order of spans.
#[derive(Drop)]
pub struct OrderedPart<'a> {
    pub part: Part<'a>,
}

impl<'a> Model for OrderedPart<'a> {
    ghost use Rattle.pc_base.specs.declared.span.Span.{Span};
    ghost use Rattle.pc_known.specs.Parts.{part_span};

    ghost Value = { Span };

    ghost view = { λ s. part_span s.part };
}

impl<'a> PartialEq for OrderedPart<'a> {
    ghost eq = { eq_by_cmp span_cmp };

    ghost laws = { Prim.search (comparing, span_total, rules) };

    fn eq(&self, other: &OrderedPart<'a>) -> bool {
        self.cmp(other).is_eq()
    }
}

impl<'a> Eq for OrderedPart<'a> {
    ghost laws = { Prim.search (comparing, span_total, rules) };
}

impl<'a> PartialOrd for OrderedPart<'a> {
    ghost partial_cmp = { as_partial_cmp span_cmp };

    ghost laws = { partial_order_from_own_ties (partial_order_from_total span_total) (Prim.search (comparing, rules)) };

    fn partial_cmp(&self, other: &OrderedPart<'a>) -> Option<Ordering> {
        Some(self.cmp(other))
    }
}

impl<'a> Ord for OrderedPart<'a> {
    ghost cmp = { span_cmp };

    ghost total = { span_total };

    ghost matches_partial_cmp = { Prim.search (comparing, rules) };

    ghost matches_eq = { Prim.search (comparing, rules) };

    fn cmp(&self, other: &OrderedPart<'a>) -> Ordering {
        part_order(self.part, other.part)
    }
}

fn part_order(one: Part<'_>, other: Part<'_>) -> Ordering
    ensures { result ≡ span_cmp (part_span one.entry) (part_span other.entry) }
{
    match start_order(one, other) {
        Ordering::Equal => rest_order(one, other),
        order => order,
    }
}

fn start_order(one: Part<'_>, other: Part<'_>) -> Ordering
    ensures { result ≡ option_cmp (slice_cmp nat_cmp) (start_of (part_span one.entry)) (start_of (part_span other.entry)) }
{
    match (start_of(one), start_of(other)) {
        (None, None) => Ordering::Equal,
        (None, Some(_)) => Ordering::Less,
        (Some(_), None) => Ordering::Greater,
        (Some(key), Some(other)) => key.cmp(other),
    }
}

fn start_of(part: Part<'_>) -> Option<&Key>
    ensures { option_copied result ≡ start_of (part_span part.entry) }
{
    match part {
        Part::One(key) => Some(key),
        Part::Between { from, .. } => from,
    }
}

fn rest_order(one: Part<'_>, other: Part<'_>) -> Ordering
    ensures { result ≡ rest_cmp (part_span one.entry) (part_span other.entry) }
{
    match (one, other) {
        (Part::One(_), Part::One(_)) => Ordering::Equal,
        (Part::One(_), Part::Between { .. }) => Ordering::Less,
        (Part::Between { .. }, Part::One(_)) => Ordering::Greater,
        (Part::Between { to, .. }, Part::Between { to: end, .. }) => end_order(to, end),
    }
}

fn end_order(one: Option<&Key>, other: Option<&Key>) -> Ordering
    ensures { result ≡ end_cmp (option_copied one.entry) (option_copied other.entry) }
{
    match (one, other) {
        (None, None) => Ordering::Equal,
        (None, Some(_)) => Ordering::Greater,
        (Some(_), None) => Ordering::Less,
        (Some(end), Some(other)) => end.cmp(other),
    }
}
