ghost use Rattle.std.specs.Prelude.{◌≡◌, ◌↔◌, IsTrue, IsErr, IfOk, if◌then◌else◌};
ghost use Rattle.std.specs.Range.Bound.{bound_map};
ghost use Rattle.pc_base.specs.Span.{contains, is_empty};
ghost use Rattle.pc_base.specs.SpanBounds.{AreBoundsOf, end_bound, start_bound};

use crate::key::Key;
use crate::memory::{NoMemory, TryCopy};
use std::ops::Bound;

/// Some keys that stand together in key order.
#[derive(Debug, PartialEq, Eq, Drop)]
pub enum Span {
    /// One key.
    One(Key),
    /// The keys from `from`, which is inside, to `to`, which is outside; `None` is an open end.
    Between { from: Option<Key>, to: Option<Key> },
}

/// No key lies between the two ends.
#[derive(Clone, Copy, Debug, PartialEq, Eq)]
pub struct EmptySpan;

impl Span {
    pub fn between(from: Option<Key>, to: Option<Key>) -> Result<Span, EmptySpan>
        ensures refused { IsErr result ↔ IsTrue (is_empty from to) }
        ensures ok { IfOk result (λ span. span ≡ Span.Between from to) }
    {
        if is_empty(&from, &to) {
            return Err(EmptySpan);
        }
        Ok(Span::Between { from, to })
    }

    /// The bounds between which its keys stand in an ordered table, never backwards.
    pub fn bounds(&self) -> (Bound<&Key>, Bound<&Key>)
        ensures { AreBoundsOf self.now (bound_map (λ key. key.now) result.0) (bound_map (λ key. key.now) result.1) }
    {
        match self {
            Span::One(key) => (Bound::Included(key), Bound::Included(key)),
            Span::Between { from, to } => (start_bound(from), end_bound(end_of(from, to))),
        }
    }

    pub fn contains(&self, key: &Key) -> bool
        ensures { result ≡ contains self.now key.now }
    {
        match self {
            Span::One(one) => key == one,
            Span::Between { from, to } => {
                from.as_ref().is_none_or(|first| key >= first)
                    && to.as_ref().is_none_or(|end| key < end)
            }
        }
    }
}

fn is_empty(from: &Option<Key>, to: &Option<Key>) -> bool
    ensures { result ≡ is_empty from.now to.now }
{
    match (from, to) {
        (Some(first), Some(end)) => first >= end,
        _ => false,
    }
}

/// The end, or the start where no key lies between the two.
fn end_of<'a>(from: &'a Option<Key>, to: &'a Option<Key>) -> &'a Option<Key>
    ensures { result.now ≡ (if is_empty from.now to.now then from.now else to.now) }
{
    if is_empty(from, to) { from } else { to }
}

fn start_bound(from: &Option<Key>) -> Bound<&Key>
    ensures { bound_map (λ key. key.now) result ≡ start_bound from.now }
{
    match from {
        Some(first) => Bound::Included(first),
        None => Bound::Unbounded,
    }
}

fn end_bound(to: &Option<Key>) -> Bound<&Key>
    ensures { bound_map (λ key. key.now) result ≡ end_bound to.now }
{
    match to {
        Some(end) => Bound::Excluded(end),
        None => Bound::Unbounded,
    }
}

impl TryCopy for Span {
    fn copy(&self) -> Result<Span, NoMemory> {
        match self {
            Span::One(one) => Ok(Span::One(one.copy()?)),
            Span::Between { from, to } => {
                let from = from.copy()?;
                let to = to.copy()?;
                Ok(Span::Between { from, to })
            }
        }
    }
}
