ghost use Rattle.std.specs.Prelude.{◌≡◌, IfOk, IsSome, Some};
ghost use Rattle.pc_read.specs.Given.{StandsFor};
ghost use Rattle.pc_read.specs.Parts.{own_meta, own_span, own_why};
ghost use Rattle.pc_spelling.specs.Reading.{meta_at, point_at, span_at, why_at};

use crate::cut::{cut, is, word_of};
use crate::name::{id, priority, who};
use crate::number::{number32, number64, timestamp};
use crate::text::{key, maybe_key, owned_key, owned_maybe_key};
use pc_base::{NoMemory, Priority, Span, Timestamp, TxnId, Who};
use pc_proto::{TxnMeta, Why};
use std::alloc::Global;

/// A transaction's particulars, its anchor as it stands in the input.
#[derive(Clone, Copy, Debug)]
pub struct MetaRef<'a> {
    pub id: TxnId,
    pub epoch: u32,
    pub priority: Priority,
    pub born: u64,
    pub anchor: &'a [u8],
}

/// A span, its keys as they stand in the input.
#[derive(Clone, Copy, Debug)]
pub enum SpanRef<'a> {
    One(&'a [u8]),
    Between {
        from: Option<&'a [u8]>,
        to: Option<&'a [u8]>,
    },
}

/// A cause of an abort, its key as it stands in the input.
#[derive(Clone, Copy, Debug)]
pub enum WhyRef<'a> {
    Pushed { by: Who },
    Missing { key: &'a [u8], by: Who },
    Refresh { key: &'a [u8], ts: Timestamp },
    Client,
}

#[tactic(auto, unfolding(pc_spelling::specs::Reading::meta_at))]
pub fn meta(bytes: &[u8]) -> Option<MetaRef<'_>>
    ensures { StandsFor own_meta result (meta_at bytes.now) }
{
    let (name, rest) = cut(b':', bytes)?;
    let name = id(name)?;
    let (epoch, rest) = cut(b':', rest)?;
    let epoch = number32(epoch)?;
    let (level, rest) = cut(b':', rest)?;
    let level = priority(level)?;
    let (born, rest) = cut(b':', rest)?;
    let born = number64(born)?;
    let anchor = key(rest)?;
    Some(MetaRef {
        id: name,
        epoch,
        priority: level,
        born,
        anchor,
    })
}

#[tactic(auto, unfolding(pc_spelling::specs::Reading::point_at))]
pub fn point(bytes: &[u8]) -> Option<(TxnId, (u32, u32))>
    ensures { result ≡ point_at bytes.now }
{
    let (name, rest) = cut(b':', bytes)?;
    let name = id(name)?;
    let (epoch, sequence) = cut(b':', rest)?;
    let epoch = number32(epoch)?;
    let sequence = number32(sequence)?;
    Some((name, (epoch, sequence)))
}

#[tactic(auto, unfolding(pc_spelling::specs::Reading::span_at))]
pub fn span(bytes: &[u8]) -> Option<SpanRef<'_>>
    ensures { StandsFor own_span result (span_at bytes.now) }
{
    match cut(b',', bytes) {
        None => Some(SpanRef::One(key(bytes)?)),
        Some((from, to)) => {
            let from = maybe_key(from)?;
            let to = maybe_key(to)?;
            Some(SpanRef::Between { from, to })
        }
    }
}

#[tactic(auto, unfolding(pc_spelling::specs::Reading::why_at))]
pub fn why(bytes: &[u8]) -> Option<WhyRef<'_>>
    ensures { StandsFor own_why result (why_at bytes.now) }
{
    let (word, rest) = word_of(b':', bytes);
    let Some(rest) = rest else {
        return if is(word, b"client") {
            Some(WhyRef::Client)
        } else {
            None
        };
    };
    if is(word, b"pushed") {
        return Some(WhyRef::Pushed { by: who(rest)? });
    }
    let (named, behind) = cut(b':', rest)?;
    let named = key(named)?;
    if is(word, b"missing") {
        let by = who(behind)?;
        Some(WhyRef::Missing { key: named, by })
    } else if is(word, b"refresh") {
        let ts = timestamp(behind)?;
        Some(WhyRef::Refresh { key: named, ts })
    } else {
        None
    }
}

impl<'a> MetaRef<'a> {
    /// The particulars in memory of their own.
    pub fn meta(&self, alloc: Global) -> Result<TxnMeta, NoMemory>
        requires { IsSome (own_meta self.now) }
        ensures { IfOk result (λ made. own_meta self.now ≡ Some made) }
    {
        Ok(TxnMeta {
            id: self.id,
            epoch: self.epoch,
            priority: self.priority,
            born: self.born,
            anchor: owned_key(alloc, self.anchor)?,
        })
    }
}

impl<'a> SpanRef<'a> {
    /// The span in memory of its own.
    pub fn span(&self, alloc: Global) -> Result<Span, NoMemory>
        requires { IsSome (own_span self.now) }
        ensures { IfOk result (λ made. own_span self.now ≡ Some made) }
    {
        match self {
            SpanRef::One(key) => Ok(Span::One(owned_key(alloc, key)?)),
            SpanRef::Between { from, to } => {
                let from = owned_maybe_key(alloc, *from)?;
                let to = owned_maybe_key(alloc, *to)?;
                Ok(Span::Between { from, to })
            }
        }
    }
}

impl<'a> WhyRef<'a> {
    /// The cause in memory of its own.
    pub fn why(&self, alloc: Global) -> Result<Why, NoMemory>
        requires { IsSome (own_why self.now) }
        ensures { IfOk result (λ made. own_why self.now ≡ Some made) }
    {
        match self {
            WhyRef::Pushed { by } => Ok(Why::Pushed { by: *by }),
            WhyRef::Missing { key, by } => Ok(Why::Missing {
                key: owned_key(alloc, key)?,
                by: *by,
            }),
            WhyRef::Refresh { key, ts } => Ok(Why::Refresh {
                key: owned_key(alloc, key)?,
                ts: *ts,
            }),
            WhyRef::Client => Ok(Why::Client),
        }
    }
}
